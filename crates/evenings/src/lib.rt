// A move of the clock over all lists, on a day that is known to be sound: the main book's move, and then what is due after the close.
#![tactic(auto)]

pub mod counting;
pub mod moving;
pub mod stops;

// What a move has made of a day so far: its figures, how many trades stand at the front of the list and how many of them are
// confirmations and fixed-price trades, and the fixed-price shares that dropped out as void and that lapsed.
#[derive(Clone, Copy)]
pub struct Evening {
    pub day: model::Day,
    pub made: usize,
    pub confirmed: usize,
    pub fixed: usize,
    pub void: u64,
    pub lapsed: u64,
}
