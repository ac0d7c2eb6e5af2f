// Chunks read from standard input, their good blocks written to standard output, and the others listed on standard error. What is read and
// written is said of streams over memory (`Reads`, `Appends`), as nothing can say it of real ones; what lies between is the definitions'
// step from chunk to chunk.
ghost use Rattle.std.specs.Prelude.{◌≡◌, true, IfSome, ◌*◌, ◌≤◌, length, take};
ghost use Rattle.std.specs.Io.KnownBytes.{Appends};
ghost use Rattle.rescue_file.specs.Serving.{Keeps, Lists, Steps, Reached, Turned};

use crate::AfterChunk;
use fronts::look;
use rescue::{list_blocks, list_rest};
use std::io::{Read, Write};
use streams::{Input, Streams, buffer, fill, tell, write_or_tell};
use text::reading::to_front;
use unpack::followed;

// The lines of eight blocks, a tail and the count.
const NOTES: usize = 650;

// More blocks than any file has, and more records.
const MOST: usize = 2_305_843_009_213_693_952;

const MOST_RECORDS: u64 = 2_305_843_009_213_693_952;

fn notes() -> [u8; NOTES]
    ensures { 650 ≡ length result }
{
    [0; NOTES]
}

// Writes blocks out, or says that it cannot.
fn written<R, W: Write, E: Write>(streams: &mut Streams<R, W, E>, blocks: &[u8]) -> bool
    ensures written { result ≡ true → Appends (W.contents streams.old.output) (W.contents streams.new.output) blocks.now }
    ensures input { streams.new.input ≡ streams.old.input }
{
    write_or_tell(
        streams,
        blocks,
        b"rescue: standard output cannot be written\n",
    )
}

// Copies the good ones of so many blocks, of a file that has so many whole ones, and goes on behind them. None: the program stops here.
fn keep<R, W: Write, E: Write>(
    h: AfterChunk,
    streams: &mut Streams<R, W, E>,
    buf: &mut [u8],
    n: usize,
    whole: usize,
    blocks: usize,
) -> Option<AfterChunk>
    requires { (n ≤ length buf.old) × (length buf.old ≡ 4096) × (512 * blocks ≤ n) × (h.behind ≤ 2_305_843_009_213_693_952) × (h.records ≤ 2_305_843_009_213_693_952) }
    ensures { IfSome result (λ r. Keeps whole blocks (take n buf.old) h buf.new r) }
{
    let seen = look(&buf[..n], whole, blocks, h.behind + 1);
    let end = 512 * seen.good;
    if !written(streams, &buf[..end]) {
        return None;
    }
    to_front(buf, end, n);
    Some(AfterChunk {
        listing: seen.refusal.is_some(),
        behind: h.behind + seen.good,
        records: h.records + seen.records as u64,
        kept: n - end,
    })
}

// Lists the whole blocks that stand in the buffer, and goes on behind them.
fn list<E: Write>(h: AfterChunk, errors: &mut E, buf: &mut [u8], said: &mut [u8]) -> AfterChunk
    requires { (h.kept ≤ length buf.old) × (length buf.old ≡ 4096) × (length said.old ≡ 650) × (h.behind ≤ 4_611_686_018_427_387_904) }
    ensures { Lists (take h.kept buf.old) h buf.new result }
{
    let kept = h.kept;
    let blocks = kept / 512;
    let place = h.behind + 1;
    let told = list_blocks(&buf[..kept], blocks, place as u64, said);
    tell(errors, &said[..told]);
    let end = 512 * blocks;
    to_front(buf, end, kept);
    AfterChunk {
        listing: true,
        behind: h.behind + blocks,
        records: h.records,
        kept: kept - end,
    }
}

// Serves the first n bytes of the buffer: as long as no block is refused they are kept, and then listed.
fn serve<R, W: Write, E: Write>(
    h: AfterChunk,
    streams: &mut Streams<R, W, E>,
    buf: &mut [u8],
    n: usize,
    said: &mut [u8],
) -> Option<AfterChunk>
    requires { (n ≤ length buf.old) × (length buf.old ≡ 4096) × (length said.old ≡ 650) × (h.behind ≤ 2_305_843_009_213_693_952) × (h.records ≤ 2_305_843_009_213_693_952) }
    ensures { IfSome result (λ r. Steps (take n buf.old) h buf.new r) }
{
    if h.listing {
        let filled = AfterChunk { kept: n, ..h };
        return Some(list(filled, &mut streams.errors, buf, said));
    }
    let r = keep(h, &mut *streams, buf, n, 0, followed(n))?;
    if !r.listing {
        return Some(r);
    }
    Some(list(r, &mut streams.errors, buf, said))
}

// What is told at the end.
fn tell_rest<E: Write>(h: AfterChunk, errors: &mut E, buf: &[u8], said: &mut [u8])
    requires { (h.kept ≤ 1023) × (length buf.now ≡ 4096) × (length said.old ≡ 650) × (h.behind ≤ 4_611_686_018_427_387_904) }
{
    let place = h.behind + 1;
    let told = list_rest(&buf[..h.kept], place as u64, h.records, said);
    tell(errors, &said[..told]);
}

// The end of the file: what was kept is its rest.
fn finish<R, W: Write, E: Write>(
    h: AfterChunk,
    streams: &mut Streams<R, W, E>,
    buf: &mut [u8],
    said: &mut [u8],
)
    requires { (h.kept ≤ 1023) × (length buf.old ≡ 4096) × (length said.old ≡ 650) × (h.behind ≤ 2_305_843_009_213_693_952) × (h.records ≤ 2_305_843_009_213_693_952) }
{
    if h.listing {
        tell_rest(h, &mut streams.errors, buf, said);
        return;
    }
    let blocks = h.kept / 512;
    let whole = h.behind + blocks;
    if let Some(r) = keep(h, &mut *streams, buf, h.kept, whole, blocks) {
        tell_rest(r, &mut streams.errors, buf, said);
    }
}

// Reads once, and serves the blocks that can be judged then.
fn turn<R: Read, W: Write, E: Write>(
    h: AfterChunk,
    streams: &mut Streams<R, W, E>,
    buf: &mut [u8],
    said: &mut [u8],
) -> Option<AfterChunk>
    requires buf_len { (length buf.old ≡ 4096) × (length said.old ≡ 650) }
    requires reached { Reached buf.old h }
    ensures { IfSome result (λ r. Turned buf.old h buf.new r) }
{
    if MOST < h.behind {
        tell(&mut streams.errors, b"rescue: no file has so many blocks\n");
        return None;
    }
    if MOST_RECORDS < h.records {
        tell(
            &mut streams.errors,
            b"rescue: no file has so many records\n",
        );
        return None;
    }
    match fill(&mut streams.input, buf, h.kept) {
        Input::Failed => {
            tell(
                &mut streams.errors,
                b"rescue: standard input cannot be read\n",
            );
            None
        }
        Input::Ended => {
            finish(h, streams, buf, said);
            None
        }
        Input::Bytes(n) => serve(h, streams, buf, n, said),
    }
}

// A proved loop has to end, and nothing says that the input does: the turns are counted up to a number that no run uses up.
pub fn run<R: Read, W: Write, E: Write>(streams: &mut Streams<R, W, E>) {
    let mut buf = buffer();
    let mut said = notes();
    let mut h = AfterChunk {
        listing: false,
        behind: 0,
        records: 0,
        kept: 0,
    };
    for _ in 0..u64::MAX {
        let Some(next) = turn(h, &mut *streams, &mut buf, &mut said) else {
            return;
        };
        h = next;
    }
}
