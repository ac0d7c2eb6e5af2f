// A script packed into a day file, chunk by chunk. A block is kept in memory until 25 records stand in it.
#![tactic(auto)]

pub mod events;
pub mod lines;

// How far a script is packed: how many records are stored, the number of the next line; of the chunk the place of that line,
// and whether it began before the chunk and is too long; and the places after the blocks and the lines that were put.
#[derive(Clone, Copy)]
pub struct Packing {
    pub records: u64,
    pub line: u64,
    pub at: usize,
    pub long: bool,
    pub filed: usize,
    pub told: usize,
}
