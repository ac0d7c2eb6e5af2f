// A move of the clock, on a day that is known to be sound.
#![tactic(auto)]

pub mod holding;
pub mod moving;
pub mod stops;

// What a move of the clock has made of a day so far: its figures, and how many trades were written at the front of the trade list.
#[derive(Clone, Copy)]
pub struct Passage {
    pub day: model::Day,
    pub made: usize,
}
