// The prices that qualify, by the two ends of their span, where the walk along both sides has ended.
ghost use Rattle.std.specs.Prelude.{◌≡◌};
ghost use Rattle.model.specs.Auction.{qualifying};
ghost use Rattle.book.specs.Standing.{Ranked};
ghost use Rattle.auction.specs.Spans.{ends};
ghost use Rattle.auction.specs.Walks as walks;
ghost use Rattle.auction.specs.Walks.{span_of};

use crate::walk::walk;
use crate::{Crossed, Span};
use book::Head;
use book::seats::{free_from, sells_from};
use model::Order;

// The price or, where it is higher, that of the head.
#[tactic(auto, unfolding(crate::specs::Walks::higher))]
fn higher(p: u64, h: Head) -> u64
    ensures { result ≡ walks.higher p h }
{
    if h.left == 0 { p } else { p.max(h.price) }
}

// The price or, where it is lower, that of the head.
#[tactic(auto, unfolding(crate::specs::Walks::lower))]
fn lower(p: u64, h: Head) -> u64
    ensures { result ≡ walks.lower p h }
{
    if h.left == 0 { p } else { p.min(h.price) }
}

// The qualifying prices, where the heads do not trade with each other: not below the last sell that traded or the next buy, not
// above the last buy that traded or the next sell.
#[tactic(auto, unfolding(crate::specs::Walks::span_of))]
pub fn span_at(c: Crossed, buy: Head, sell: Head) -> Span
    ensures { result ≡ span_of c buy sell }
{
    if c.shares == 0 {
        return Span { lo: 0, hi: 0 };
    }
    Span {
        lo: higher(c.sell, buy),
        hi: lower(c.buy, sell),
    }
}

// The first and the last price that qualifies, 0 and 0 where none does: those between them qualify too.
pub fn span_of(rows: &[Order]) -> Span
    requires { Ranked rows.now }
    ensures { result ≡ ends (qualifying rows.now) }
{
    let middle = sells_from(rows);
    let end = free_from(rows);
    let stop = walk(rows, middle, end);
    span_at(stop.crossed, stop.buy, stop.sell)
}
