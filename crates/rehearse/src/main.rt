// The rehearsal program: it reads standard input chunk by chunk, answers each line, and writes a chunk's replies before it
// reads on.
#![tactic(auto)]

mod memory;
mod serving;

use desk::Desk;
use streams::Streams;

// What goes from chunk to chunk: the desk, the carry, and whether the program stops here.
#[derive(Clone, Copy)]
pub struct AfterChunk {
    pub desk: Desk,
    pub kept: usize,
    pub long: bool,
    pub stops: bool,
}

fn main(rt: HostRuntime) {
    let mut streams = Streams {
        input: rt.stdin(),
        output: rt.stdout(),
        errors: rt.stderr(),
    };
    serving::run(&mut streams);
}
