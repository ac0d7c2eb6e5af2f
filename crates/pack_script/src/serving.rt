// Chunks read from standard input, their full blocks written to standard output, and what is not stored told on standard error. What is
// read and written is said of streams over memory (`Reads`, `Appends`), as nothing can say it of real ones; what lies between is the
// definitions' step from chunk to chunk.
ghost use Rattle.std.specs.Prelude.{◌≡◌, true, IfSome, ◌≤◌, length, take};
ghost use Rattle.std.specs.Io.KnownBytes.{Appends};
ghost use Rattle.pack_script.specs.Serving.{Waits, Steps, Reached, Turned};

use crate::AfterChunk;
use crate::memory::{block, notes, output};
use pack::lines::{pack_lines, put_end, put_last};
use std::io::{Read, Write};
use streams::{Input, Streams, buffer, fill, tell, write_or_tell};
use text::Carry;
use text::reading::carry_over;

// More lines than any script has.
const MOST_LINES: u64 = 4_611_686_018_427_387_904;

// Writes blocks out and tells what is told, or says that it cannot.
fn written<R, W: Write, E: Write>(
    streams: &mut Streams<R, W, E>,
    blocks: &[u8],
    told: &[u8],
) -> bool
    ensures written { result ≡ true → Appends (W.contents streams.old.output) (W.contents streams.new.output) blocks.now }
    ensures input { streams.new.input ≡ streams.old.input }
{
    let is_written = write_or_tell(
        &mut *streams,
        blocks,
        b"pack: standard output cannot be written\n",
    );
    if is_written {
        tell(&mut streams.errors, told);
    }
    is_written
}

// Packs the first n bytes of the buffer as a chunk, and keeps its tail at the buffer's front. None: the program stops here.
fn serve<R, W: Write, E: Write>(
    h: AfterChunk,
    streams: &mut Streams<R, W, E>,
    buf: &mut [u8],
    n: usize,
    block: &mut [u8],
    out: &mut [u8],
    said: &mut [u8],
) -> Option<AfterChunk>
    requires { (n ≤ length buf.old) × (length buf.old ≡ 4096) × (length block.old ≡ 512) × (length out.old ≡ 84480) × (length said.old ≡ 180224) × (h.line ≤ 4_611_686_018_427_387_904) × (h.records ≤ 4_611_686_018_427_387_904) }
    ensures { IfSome result (λ r. Steps (take n buf.old) h block.old buf.new block.new r) }
{
    let p = pack_lines(h.records, h.line, h.carry.long, &buf[..n], block, out, said);
    if !written(streams, &out[..p.filed], &said[..p.told]) {
        return None;
    }
    Some(AfterChunk {
        records: p.records,
        line: p.line,
        carry: carry_over(buf, p.at, n, p.long),
    })
}

// The end of the script.
fn finish<R, W: Write, E: Write>(
    h: AfterChunk,
    streams: &mut Streams<R, W, E>,
    block: &mut [u8],
    out: &mut [u8],
    said: &mut [u8],
)
    requires block_len { (length block.old ≡ 512) × (length out.old ≡ 84480) × (length said.old ≡ 180224) }
    requires waits { Waits h block.old }
{
    let filed = put_last(h.records, block, out);
    let told = put_end(h.carry, h.line, h.records, said);
    written(streams, &out[..filed], &said[..told]);
}

// Reads once, and packs the lines that end there.
fn turn<R: Read, W: Write, E: Write>(
    h: AfterChunk,
    streams: &mut Streams<R, W, E>,
    buf: &mut [u8],
    block: &mut [u8],
    out: &mut [u8],
    said: &mut [u8],
) -> Option<AfterChunk>
    requires buf_len { (length buf.old ≡ 4096) × (length block.old ≡ 512) × (length out.old ≡ 84480) × (length said.old ≡ 180224) }
    requires reached { Reached buf.old block.old h }
    ensures { IfSome result (λ r. Turned buf.old block.old h buf.new block.new r) }
{
    if MOST_LINES < h.line || MOST_LINES < h.records {
        tell(&mut streams.errors, b"pack: no script has so many lines\n");
        return None;
    }
    match fill(&mut streams.input, buf, h.carry.kept) {
        Input::Failed => {
            tell(
                &mut streams.errors,
                b"pack: standard input cannot be read\n",
            );
            None
        }
        Input::Ended => {
            finish(h, streams, block, out, said);
            None
        }
        Input::Bytes(n) => serve(h, streams, buf, n, block, out, said),
    }
}

// A proved loop has to end, and nothing says that the input does: the turns are counted up to a number that no run uses up.
pub fn run<R: Read, W: Write, E: Write>(streams: &mut Streams<R, W, E>) {
    let mut buf = buffer();
    let mut filling = block();
    let mut out = output();
    let mut said = notes();
    let mut h = AfterChunk {
        records: 0,
        line: 1,
        carry: Carry {
            kept: 0,
            long: false,
        },
    };
    for _ in 0..u64::MAX {
        let Some(next) = turn(
            h,
            &mut *streams,
            &mut buf,
            &mut filling,
            &mut out,
            &mut said,
        ) else {
            return;
        };
        h = next;
    }
}
