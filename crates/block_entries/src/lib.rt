// A declaration of a block trade: what it is refused for before those held are looked at, and what it comes to.
#![tactic(auto)]

pub mod checks;
pub mod entries;
