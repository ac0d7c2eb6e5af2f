// The auction over the book's rows: the prices that qualify and the one that is left, by one walk along both sides; demand and
// supply at a price, the price list and the report.
#![tactic(auto)]

pub mod depth;
pub mod ends;
pub mod fixings;
pub mod listing;
pub mod price;
pub mod report;
pub mod tiers;
pub mod walk;

use book::Head;

// Demand and supply, each at a price of its own.
#[derive(Clone, Copy)]
pub struct Interest {
    pub demand: u64,
    pub supply: u64,
}

// The prices that qualify are all from lo to hi; both are 0 where none does, as the definition `ends` has it.
#[derive(Clone, Copy)]
pub struct Span {
    pub lo: u64,
    pub hi: u64,
}

// What has traded on a walk along both sides: the shares, and the prices of the last buy and the last sell.
#[derive(Clone, Copy)]
pub struct Crossed {
    pub shares: u64,
    pub buy: u64,
    pub sell: u64,
}

// Where the walk has ended: what has traded, and the heads that do not trade with each other.
#[derive(Clone, Copy)]
pub struct Stop {
    pub crossed: Crossed,
    pub buy: Head,
    pub sell: Head,
}

// The orders of a side that stand at one price, one behind the other: their shares, and the place behind the last of them.
#[derive(Clone, Copy)]
pub struct Tier {
    pub shares: u64,
    pub behind: usize,
}

// What an auction would come to: its price, the volume and the signed surplus there, zeros where no price stands, as the definition
// `fixing_at` has it.
#[derive(Clone, Copy)]
pub struct Fixing {
    pub price: u64,
    pub volume: u64,
    pub surplus: i64,
}

// Prices without a gap: the first, how many are written, and the next one due behind those, or 0, as the definition `run_within` has it.
#[derive(Clone, Copy)]
pub struct Run {
    pub first: u64,
    pub count: usize,
    pub next: u64,
}
