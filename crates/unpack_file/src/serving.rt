// Chunks read from standard input, and the lines of their blocks written to standard output. What is read and written is said of streams
// over memory (`Reads`, `Appends`), as nothing can say it of real ones; what lies between is the definitions' step from chunk to chunk.
ghost use Rattle.std.specs.Prelude.{◌≡◌, true, IfSome, ◌≤◌, length, take};
ghost use Rattle.std.specs.Io.KnownBytes.{Appends};
ghost use Rattle.unpack_file.specs.Serving.{Steps, Reached, Turned};

use crate::AfterChunk;
use std::io::{Read, Write};
use streams::{Input, Streams, buffer, fill, tell, write_or_tell};
use text::reading::to_front;
use unpack::{Unpacking, followed, put_refused, unpack_part, unpack_rest};

// The lines of eight blocks.
const OUTPUT: usize = 25_600;

// More blocks than any file has.
const MOST_BLOCKS: usize = 4_611_686_018_427_387_904;

fn output() -> [u8; OUTPUT]
    ensures { 25600 ≡ length result }
{
    [0; OUTPUT]
}

// Room for the line of a refusal.
fn note() -> [u8; 44]
    ensures { 44 ≡ length result }
{
    [0; 44]
}

// Writes lines out and tells a refusal, or says that it cannot.
fn written<R, W: Write, E: Write>(streams: &mut Streams<R, W, E>, lines: &[u8], told: &[u8]) -> bool
    ensures written { result ≡ true → Appends (W.contents streams.old.output) (W.contents streams.new.output) lines.now }
    ensures input { streams.new.input ≡ streams.old.input }
{
    let is_written = write_or_tell(
        &mut *streams,
        lines,
        b"unpack: standard output cannot be written\n",
    );
    if is_written {
        tell(&mut streams.errors, told);
    }
    is_written
}

// Shows what was unpacked behind the blocks that had passed.
fn show<R, W: Write, E: Write>(
    streams: &mut Streams<R, W, E>,
    done: Unpacking,
    passed: usize,
    out: &[u8],
) -> bool
    requires { (done.next ≤ length out.now) × (passed ≤ 4_611_686_018_427_387_904) × (done.good ≤ 4_096) }
{
    let place = passed + done.good + 1;
    let mut said = note();
    let told = put_refused(done.refusal, place as u64, &mut said);
    written(streams, &out[..done.next], &said[..told])
}

// Unpacks the first n bytes of the buffer, and keeps what cannot be judged yet at the buffer's front. None: the program stops here.
fn serve<R, W: Write, E: Write>(
    h: AfterChunk,
    streams: &mut Streams<R, W, E>,
    buf: &mut [u8],
    n: usize,
    out: &mut [u8],
) -> Option<AfterChunk>
    requires { (n ≤ length buf.old) × (length buf.old ≡ 4096) × (length out.old ≡ 25600) × (h.passed ≤ 4_611_686_018_427_387_904) }
    ensures { IfSome result (λ r. Steps (take n buf.old) h buf.new r) }
{
    let done = unpack_part(&buf[..n], h.passed, out);
    if !show(streams, done, h.passed, out) || done.refusal.is_some() {
        return None;
    }
    let blocks = followed(n);
    let at = 512 * blocks;
    to_front(buf, at, n);
    Some(AfterChunk {
        passed: h.passed + blocks,
        kept: n - at,
    })
}

// The end of the file: what was kept is its rest.
fn finish<R, W: Write, E: Write>(
    h: AfterChunk,
    streams: &mut Streams<R, W, E>,
    buf: &[u8],
    out: &mut [u8],
)
    requires { (h.kept ≤ 1023) × (length buf.now ≡ 4096) × (length out.old ≡ 25600) × (h.passed ≤ 4_611_686_018_427_387_904) }
{
    let done = unpack_rest(&buf[..h.kept], h.passed, out);
    show(streams, done, h.passed, out);
}

// Reads once, and unpacks the blocks that can be judged then.
fn turn<R: Read, W: Write, E: Write>(
    h: AfterChunk,
    streams: &mut Streams<R, W, E>,
    buf: &mut [u8],
    out: &mut [u8],
) -> Option<AfterChunk>
    requires buf_len { (length buf.old ≡ 4096) × (length out.old ≡ 25600) }
    requires reached { Reached buf.old h }
    ensures { IfSome result (λ r. Turned buf.old h buf.new r) }
{
    if MOST_BLOCKS < h.passed {
        tell(&mut streams.errors, b"unpack: no file has so many blocks\n");
        return None;
    }
    match fill(&mut streams.input, buf, h.kept) {
        Input::Failed => {
            tell(
                &mut streams.errors,
                b"unpack: standard input cannot be read\n",
            );
            None
        }
        Input::Ended => {
            finish(h, streams, buf, out);
            None
        }
        Input::Bytes(n) => serve(h, streams, buf, n, out),
    }
}

// A proved loop has to end, and nothing says that the input does: the turns are counted up to a number that no run uses up.
pub fn run<R: Read, W: Write, E: Write>(streams: &mut Streams<R, W, E>) {
    let mut buf = buffer();
    let mut out = output();
    let mut h = AfterChunk { passed: 0, kept: 0 };
    for _ in 0..u64::MAX {
        let Some(next) = turn(h, &mut *streams, &mut buf, &mut out) else {
            return;
        };
        h = next;
    }
}
