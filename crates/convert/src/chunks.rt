// A chunk converted, byte by byte. Nothing is held back: a newline alone has something put in front of it.
ghost use Rattle.std.specs.Prelude.{[], ◌∷◌, ◌+◌, ◌≤◌, length};
ghost use Rattle.printing.specs.Printing.{Wrote};
ghost use Rattle.convert.specs.Chunkwise.{added};
ghost use Rattle.convert.specs.Promises.{text_of, Converts, Answers};

use crate::Pending;

// Balance 0 after an order of five numbers.
fn put_added(line: &Pending, out: &mut [u8], at: usize) -> usize
    requires { at + 2 ≤ length out.old }
    ensures { Wrote out.old at (added (text_of line.now)) out.new result }
{
    if !line.is_five() {
        return at;
    }
    out[at] = b' ';
    out[at + 1] = b'0';
    at + 2
}

fn convert_byte(line: &mut Pending, b: u8, out: &mut [u8], at: usize) -> usize
    requires { at + 3 ≤ length out.old }
    ensures { Converts (text_of line.old) (b ∷ []) out.old at out.new result line.new }
{
    if b == b'\n' {
        let end = put_added(line, out, at);
        out[end] = b;
        line.clear();
        end + 1
    } else {
        out[at] = b;
        line.push(b);
        at + 1
    }
}

// Converts a chunk after the line that has not ended: answers the place after what was put, and the line goes on. The output takes
// up to three bytes for each byte of the chunk; a shorter one is refused, and then both stay.
pub fn convert_chunk(line: &mut Pending, chunk: &[u8], out: &mut [u8]) -> Option<usize>
    ensures { Answers line.old chunk.now out.old out.new result line.new }
{
    if out.len() / 3 < chunk.len() {
        return None;
    }
    let mut next = 0;
    for b in chunk {
        next = convert_byte(line, *b, out, next);
    }
    Some(next)
}
