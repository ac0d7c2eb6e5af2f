// The unpacker as a program: it reads a day file from standard input chunk by chunk, and writes the lines of the blocks that
// have passed before it reads on. The first refusal is told on standard error, and ends it.
#![tactic(auto)]

mod serving;

use streams::Streams;

// What goes from chunk to chunk: how many blocks have passed, and how many bytes behind them stand at the buffer's front.
#[derive(Clone, Copy)]
pub struct AfterChunk {
    pub passed: usize,
    pub kept: usize,
}

fn main(rt: HostRuntime) {
    let mut streams = Streams {
        input: rt.stdin(),
        output: rt.stdout(),
        errors: rt.stderr(),
    };
    serving::run(&mut streams);
}
