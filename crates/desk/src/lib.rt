// The desk of the rehearsal program: the day, once one is open, and what a line is answered with.
#![tactic(auto)]

pub mod answering;

use model::Day;
use printing::{LONGEST_REPLY, LONGEST_TRADE};

// What the program lends: places of the book, and trades.
pub const LENT_PLACES: usize = 1_024;

pub const LENT_TRADES: usize = 2_048;

// All the trades, and a reply.
pub const LONGEST_ANSWER: usize = LENT_TRADES * LONGEST_TRADE + LONGEST_REPLY;

// No day opened yet, or the open day.
#[derive(Clone, Copy)]
pub enum Desk {
    Closed,
    Open(Day),
}

// What an answer leaves: the desk, and the place after the text that was put.
#[derive(Clone, Copy)]
pub struct Answered {
    pub desk: Desk,
    pub next: usize,
}
