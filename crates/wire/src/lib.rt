// The calls for a test bench in C: day, book, trades, price list and reply are lent as bytes. `wire_c` exports them.
#![tactic(auto)]

pub mod changing;
pub mod files;
pub mod reading;
pub mod trading;
pub mod verdicts;
