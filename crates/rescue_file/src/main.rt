// The rescue as a program: it reads a day file from standard input chunk by chunk, copies the blocks before the first refused
// one, and lists each block from there on on standard error.
#![tactic(auto)]

mod serving;

use streams::Streams;

// What goes from chunk to chunk: whether a block was refused, how many blocks stand behind, how many records are kept, and how many
// bytes stand at the buffer's front.
#[derive(Clone, Copy)]
pub struct AfterChunk {
    pub listing: bool,
    pub behind: usize,
    pub records: u64,
    pub kept: usize,
}

fn main(rt: HostRuntime) {
    let mut streams = Streams {
        input: rt.stdin(),
        output: rt.stdout(),
        errors: rt.stderr(),
    };
    serving::run(&mut streams);
}
