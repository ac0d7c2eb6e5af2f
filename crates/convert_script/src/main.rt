// The converter of old scripts as a program: it reads standard input chunk by chunk, and writes each chunk converted before
// it reads on.
#![tactic(auto)]

mod serving;

use streams::Streams;

fn main(rt: HostRuntime) {
    let mut streams = Streams {
        input: rt.stdin(),
        output: rt.stdout(),
        errors: rt.stderr(),
    };
    serving::run(&mut streams);
}
