// A block of a day file, 512 bytes: what it means is defined in specs/.
#![tactic(auto)]

pub mod reading;
pub mod writing;

pub const BLOCK_BYTES: usize = 512;

// What a block is refused with: its check, its number, or any other break of its layout.
pub const WRONG_CHECK: u64 = 24;

pub const WRONG_NUMBER: u64 = 25;

pub const WRONG_LAYOUT: u64 = 26;
