// The book, a lent slice of orders in priority order: buys from best to worst, then sells the same, free places last, so that the next
// order is the next place. Here: what a walk over it keeps, and how a trade is written.
#![tactic(auto)]

pub mod heads;
pub mod joining;
pub mod places;
pub mod seats;
pub mod settling;

ghost use Rattle.std.specs.Prelude.{◌≡◌, min, set};
ghost use Rattle.model.specs.Matching.{no_trade};

use model::{Order, Trade};

// The places of a side: from its first order up to the one behind its last.
#[derive(Clone, Copy)]
pub struct Stretch {
    pub from: usize,
    pub to: usize,
}

// The order of a side that trades next in an auction: its place, its number, its price, and what is left of it, 0 behind the last
// order.
#[derive(Clone, Copy)]
pub struct Head {
    pub at: usize,
    pub number: u64,
    pub price: u64,
    pub left: u64,
}

// A run of trades: how many, and the shares that they are of.
#[derive(Clone, Copy)]
pub struct Dealt {
    pub made: usize,
    pub shares: u64,
}

pub fn smaller(a: u64, b: u64) -> u64
    ensures { result ≡ min a b }
{
    a.min(b)
}

// A place of a trade list at which no trade was written.
pub fn no_trade() -> Trade
    ensures { result ≡ no_trade }
{
    Trade {
        price: 0,
        quantity: 0,
        buyer: 0,
        seller: 0,
        buyerleft: 0,
        sellerleft: 0,
    }
}

// The trade at its place; a list that does not reach so far stays as it is.
pub fn put_trade(trades: &mut [Trade], place: usize, t: Trade)
    ensures { trades.new ≡ set trades.old place t }
{
    if place < trades.len() {
        trades[place] = t;
    }
}
