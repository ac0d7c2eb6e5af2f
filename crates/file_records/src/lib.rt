// An event's record of 20 bytes in a day file: what it means is defined in specs/.
#![tactic(auto)]

pub mod reading;
pub mod writing;

// The kinds of a record, its first byte.
pub const OPEN: u8 = 1;

pub const CLOCK: u8 = 2;

pub const ORDER: u8 = 3;

pub const CANCEL: u8 = 4;
