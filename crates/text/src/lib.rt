// The chunks that are read: where their lines end, what a line asks for, and what goes over to the next chunk.
#![tactic(auto)]

pub mod reading;

use model::Command;

// Where a line stands in its chunk, without its newline: from start up to end. The library's range says the same, but is not Copy.
#[derive(Clone, Copy)]
pub struct Bounds {
    pub start: usize,
    pub end: usize,
}

// What the next line of a chunk asks for, and the place after its newline.
#[derive(Clone, Copy)]
pub struct NextCommand {
    pub command: Command,
    pub place: usize,
}

// What goes from chunk to chunk of a line that has not ended: how many of its bytes stand at the buffer's front, or that
// it is too long already, and then none.
#[derive(Clone, Copy)]
pub struct Carry {
    pub kept: usize,
    pub long: bool,
}
