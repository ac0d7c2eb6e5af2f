// Input read chunk by chunk, after the bytes that are kept of the chunk before, and texts written whole. Readers and writers are
// taken as they come: a program gives its standard streams.
#![tactic(auto)]

ghost use Rattle.std.specs.Prelude.{◌≡◌, true, ◌≤◌, length};
ghost use Rattle.std.specs.Io.KnownBytes.{Appends};
ghost use Rattle.streams.specs.Streams.{Filled, Reads};

use std::io::{Read, Write};

// What a read brought: how many bytes stand in the buffer then.
#[derive(Clone, Copy)]
pub enum Input {
    Failed,
    Ended,
    Bytes(usize),
}

// Where a program reads, where it writes what it answers, and where it tells what it cannot do.
#[derive(Drop)]
pub struct Streams<R, W, E> {
    pub input: R,
    pub output: W,
    pub errors: E,
}

// Reads once, after what was kept.
pub fn fill<R: Read>(from: &mut R, buf: &mut [u8], kept: usize) -> Input
    requires { kept ≤ length buf.old }
    ensures filled { Filled kept buf.old buf.new result }
    ensures reads { Reads (R.remaining from.old) (R.remaining from.new) kept buf.new result }
{
    match from.read(&mut buf[kept..]) {
        Ok(0) => Input::Ended,
        Ok(n) => Input::Bytes(kept + n),
        Err(_) => Input::Failed,
    }
}

// Writes all of a text, so that its reader has it before anything more is read; or says that it cannot.
pub fn write_out<W: Write>(to: &mut W, text: &[u8]) -> bool
    ensures { result ≡ true → Appends (W.contents to.old) (W.contents to.new) text.now }
{
    match to.write_all(text) {
        Ok(()) => to.flush().is_ok(),
        Err(_) => false,
    }
}

// Writes a text where nobody is left to be told that it cannot be written.
pub fn tell<W: Write>(to: &mut W, text: &[u8]) {
    write_out(to, text);
}

// Writes a text to the output, or tells the failure.
pub fn write_or_tell<R, W: Write, E: Write>(
    streams: &mut Streams<R, W, E>,
    text: &[u8],
    failure: &[u8],
) -> bool
    ensures written { result ≡ true → Appends (W.contents streams.old.output) (W.contents streams.new.output) text.now }
    ensures input { streams.new.input ≡ streams.old.input }
    ensures errors { result ≡ true → streams.new.errors ≡ streams.old.errors }
{
    if write_out(&mut streams.output, text) {
        return true;
    }
    tell(&mut streams.errors, failure);
    false
}

// The memory for a chunk, as a program lends it. Only its length matters: lending an array as a slice needs it.
pub fn buffer() -> [u8; 4096]
    ensures { 4096 ≡ length result }
{
    [0; 4096]
}

// The same for a program that reads much, and would spend its time on calls for 4,096 bytes.
pub fn large_buffer() -> [u8; 65536]
    ensures { 65536 ≡ length result }
{
    [0; 65536]
}

#[cfg(test)]
mod tests;
