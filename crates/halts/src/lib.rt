// First-day halts: what starts one, when it ends, and whether a day's end and used thresholds can be.
#![tactic(auto)]

pub mod ends;
pub mod firing;
pub mod fitting;
