// Lines in the chunk that was just read, and what goes over to the next chunk.
ghost use Rattle.std.specs.Prelude.{eqb, ◌≡◌, ◌++◌, ◌-◌, ◌≤◌, length, take, drop};
ghost use Rattle.std.specs.List.{position};
ghost use Rattle.text.specs.Chunks.{next_line, next_command, is_left, CarriedOver};

use crate::{Bounds, Carry, NextCommand};
use model::Command;
use parsing::{LONGEST_LINE, command_of};

fn newline_in(text: &[u8]) -> Option<usize>
    ensures { result ≡ position (λ b. eqb b 10) text.now }
{
    text.iter().position(|b| *b == b'\n')
}

// A reader of lines: the chunk, and the place in it that is reached.
#[derive(Clone, Copy)]
pub struct Lines<'a> {
    pub chunk: &'a [u8],
    pub at: usize,
}

impl<'a> Lines<'a> {
    pub fn new(chunk: &'a [u8], at: usize) -> Self
        ensures { (result.chunk ≡ chunk.entry) × (result.at ≡ at) }
    {
        Lines { chunk, at }
    }

    // Where the next line stands, without its newline. The chunk's tail has none: it is no line.
    pub fn next_line(self) -> Option<Bounds>
        ensures { result ≡ next_line self.entry.chunk.now self.entry.at }
    {
        let length = newline_in(self.chunk.get(self.at..)?)?;
        Some(Bounds {
            start: self.at,
            end: self.at + length,
        })
    }
}

// The next line from plain parameters, for callers that hold no reader.
pub fn line_from(chunk: &[u8], at: usize) -> Option<Bounds>
    ensures { result ≡ next_line chunk.now at }
{
    Lines::new(chunk, at).next_line()
}

// What the next line from a place on asks for. `long`: it began before the chunk, and is too long.
pub fn next_command(chunk: &[u8], at: usize, long: bool) -> Option<NextCommand>
    ensures { result ≡ next_command long chunk.now at }
{
    let line = line_from(chunk, at)?;
    let place = line.end + 1;
    let command = if long {
        Command::Malformed
    } else {
        command_of(&chunk[line.start..line.end], true)
    };
    Some(NextCommand { command, place })
}

// Moves the bytes from `start` up to `end` to the front.
pub fn to_front(buf: &mut [u8], start: usize, end: usize)
    requires { (start ≤ end) × (end ≤ length buf.old) }
    ensures { buf.new ≡ take (end - start) (drop start buf.old) ++ drop (end - start) buf.old }
{
    buf.copy_within(start..end, 0);
}

// The chunk's tail goes to the buffer's front, unless its line is too long.
pub fn carry_over(buf: &mut [u8], start: usize, end: usize, long: bool) -> Carry
    requires { (start ≤ end) × (end ≤ length buf.old) }
    ensures { CarriedOver buf.old (take (end - start) (drop start buf.old)) long buf.new result }
{
    let rest = end - start;
    if long || LONGEST_LINE < rest {
        Carry {
            kept: 0,
            long: true,
        }
    } else {
        to_front(buf, start, end);
        Carry {
            kept: rest,
            long: false,
        }
    }
}

// Whether a line is left at the end of the input. It is unended, so it is refused.
pub fn is_left(carry: Carry) -> bool
    ensures { result ≡ is_left carry }
{
    carry.long || 0 < carry.kept
}
