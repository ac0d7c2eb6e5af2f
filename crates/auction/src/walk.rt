// One walk along both sides of the book, from the best of each on: the heads trade with each other while the buy reaches the sell.
ghost use Rattle.std.specs.Prelude.{◌≡◌, ◌+◌, ◌<◌, ◌^◌, length};
ghost use Rattle.model.specs.Book.{queue};
ghost use Rattle.book.specs.Standing.{Ranked};
ghost use Rattle.auction.specs.Walks as walks;
ghost use Rattle.auction.specs.Walks.{crossed_by, StopOf};

use crate::{Crossed, Stop};
use book::Head;
use book::heads::{head_at, head_past};
use model::Order;

// Do the heads trade with each other?
#[tactic(auto, unfolding(crate::specs::Walks::crossing))]
fn crossing(buy: Head, sell: Head) -> bool
    ensures { result ≡ walks.crossing buy sell }
{
    0 < buy.left && 0 < sell.left && sell.price <= buy.price
}

#[tactic(auto, unfolding(crate::specs::Walks::crossed_by))]
fn crossed_by(c: Crossed, q: u64, buy: u64, sell: u64) -> Crossed
    requires { c.shares + q < 2 ^ 64 }
    ensures { result ≡ crossed_by c q buy sell }
{
    Crossed {
        shares: c.shares + q,
        buy,
        sell,
    }
}

// Above every price.
const ABOVE_ALL: u64 = 1_000_000;

// The sells start at `middle` and end at `end`.
pub fn walk(rows: &[Order], middle: usize, end: usize) -> Stop
    requires ranked { Ranked rows.now }
    requires middle_value { middle ≡ length (queue 0 rows.now) }
    requires end_value { end ≡ length (queue 0 rows.now) + length (queue 1 rows.now) }
    ensures { StopOf rows.now middle end result }
{
    let mut buy = head_at(rows, 0, middle);
    let mut sell = head_at(rows, middle, end);
    // nothing has traded yet: these prices leave every price open
    let mut c = Crossed {
        shares: 0,
        buy: ABOVE_ALL,
        sell: 0,
    };
    // No index is counted: each turn moves both heads on by what they trade.
    while crossing(buy, sell) {
        let q = buy.left.min(sell.left);
        c = crossed_by(c, q, buy.price, sell.price);
        buy = head_past(rows, middle, buy, q);
        sell = head_past(rows, end, sell, q);
    }
    Stop {
        crossed: c,
        buy,
        sell,
    }
}
