// An order and a cancel, on a day that is known to be sound.
#![tactic(auto)]

pub mod cancelling;
pub mod entering;
