// Chunks read from standard input, and written converted to standard output. What is read and written is said of streams over memory
// (`Reads`, `Appends`), as nothing can say it of real ones; what lies between is the definitions' step from chunk to chunk.
ghost use Rattle.std.specs.Prelude.{◌≡◌, true, ◌*◌, ◌≤◌, length};
ghost use Rattle.std.specs.Io.KnownBytes.{Appends};
ghost use Rattle.convert.specs.Chunkwise.{line_after, remembered};
ghost use Rattle.convert.specs.Promises.{text_of};
ghost use Rattle.convert_script.specs.Turns.{Reached, Turned};

use convert::Pending;
use convert::chunks::convert_chunk;
use std::io::{Read, Write};
use streams::{Input, Streams, fill, large_buffer, tell, write_or_tell};

// Three bytes for each byte of a chunk.
const OUTPUT: usize = 196_608;

fn output() -> [u8; OUTPUT]
    ensures { 196608 ≡ length result }
{
    [0; OUTPUT]
}

// Writes a text out, or says that it cannot.
fn write_out<R, W: Write, E: Write>(streams: &mut Streams<R, W, E>, text: &[u8]) -> bool
    ensures written { result ≡ true → Appends (W.contents streams.old.output) (W.contents streams.new.output) text.now }
    ensures input { streams.new.input ≡ streams.old.input }
{
    write_or_tell(
        streams,
        text,
        b"convert: standard output cannot be written\n",
    )
}

// Converts a chunk and writes it out, or says that it cannot.
fn serve<R, W: Write, E: Write>(
    line: &mut Pending,
    streams: &mut Streams<R, W, E>,
    chunk: &[u8],
    out: &mut [u8],
) -> bool
    requires { 3 * length chunk.now ≤ length out.old }
    ensures { text_of line.new ≡ remembered (line_after (text_of line.old) chunk.now) }
{
    match convert_chunk(line, chunk, out) {
        Some(end) => write_out(streams, &out[..end]),
        None => false,
    }
}

// Reads once, and writes what was read; answers whether the program goes on.
fn turn<R: Read, W: Write, E: Write>(
    line: &mut Pending,
    streams: &mut Streams<R, W, E>,
    buf: &mut [u8],
    out: &mut [u8],
) -> bool
    requires buf_in_bounds { 3 * length buf.old ≤ length out.old }
    requires reached { Reached line.old }
    ensures { result ≡ true → Turned line.old line.new }
{
    match fill(&mut streams.input, &mut *buf, 0) {
        Input::Failed => {
            tell(
                &mut streams.errors,
                b"convert: standard input cannot be read\n",
            );
            false
        }
        Input::Ended => false,
        Input::Bytes(n) => serve(line, streams, &buf[..n], out),
    }
}

// A proved loop has to end, and nothing says that the input does: the turns are counted up to a number that no run uses up.
pub fn run<R: Read, W: Write, E: Write>(streams: &mut Streams<R, W, E>) {
    let mut buf = large_buffer();
    let mut out = output();
    let mut line = Pending::new();
    for _ in 0..u64::MAX {
        if !turn(&mut line, &mut *streams, &mut buf, &mut out) {
            return;
        }
    }
}
