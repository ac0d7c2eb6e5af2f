// The packer as a program: it reads a script from standard input chunk by chunk, and writes the day file's full blocks before
// it reads on. What is not stored is told on standard error.
#![tactic(auto)]

mod memory;
mod serving;

use streams::Streams;
use text::Carry;

// What goes from chunk to chunk: how many records are stored, the number of the next line, and the carry.
#[derive(Clone, Copy)]
pub struct AfterChunk {
    pub records: u64,
    pub line: u64,
    pub carry: Carry,
}

fn main(rt: HostRuntime) {
    let mut streams = Streams {
        input: rt.stdin(),
        output: rt.stdout(),
        errors: rt.stderr(),
    };
    serving::run(&mut streams);
}
