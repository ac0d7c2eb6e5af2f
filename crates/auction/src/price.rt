// The auction's price: of the qualifying prices those of smallest difference, of these the nearest to the reference price.
ghost use Rattle.std.specs.Prelude.{◌≡◌, ◌+◌, ◌≤◌, ◌<◌, length, get_or};
ghost use Rattle.model.specs.Auction.{left_by};
ghost use Rattle.model.specs.Book.{queue};
ghost use Rattle.book.specs.Standing.{Ranked};
ghost use Rattle.book.specs.Lines.{line};
ghost use Rattle.auction.specs.Spans.{flatter_by, beside_of, nearest_in};
ghost use Rattle.auction.specs.Walks.{left_at, StopOf};

use crate::ends::span_at;
use crate::tiers::run_from;
use crate::walk::walk;
use crate::{Span, Stop};
use book::Head;
use book::seats::{free_from, sells_from};
use model::Order;

// What is left at price p of a side of which nobody is left at a better price: the head and those right behind it.
pub fn left_at(rows: &[Order], end: usize, h: Head, p: u64) -> u64
    requires end_in_bounds { end ≤ length rows.now }
    requires at_lt_end { 0 < h.left → h.at < end }
    requires rows_bound { left_at p h (line (h.at + 1) end rows.now) ≤ 4_096_000_000 }
    ensures { result ≡ left_at p h (line (h.at + 1) end rows.now) }
{
    if h.left == 0 || h.price != p {
        return 0;
    }
    let others = run_from(rows, h.at + 1, end, p);
    h.left + others.shares
}

// The difference beside an end: 0 where a price lies between the ends, else that of the other end.
#[tactic(auto, unfolding(crate::specs::Spans::beside_of))]
fn beside(lo: u64, hi: u64, gap: u64) -> u64
    requires { lo ≤ 999_999 }
    ensures { result ≡ beside_of lo hi gap }
{
    if lo + 1 < hi { 0 } else { gap }
}

// An end of the qualifying prices, or its neighbour where the difference is smaller there.
fn flatter(end: u64, gap: u64, next: u64, other: u64) -> u64
    ensures { result ≡ flatter_by end gap next other }
{
    if other < gap { next } else { end }
}

// The price from a to b that is nearest to the reference price.
#[tactic(auto, unfolding(crate::specs::Spans::nearest_in))]
fn nearest(reference: u64, a: u64, b: u64) -> u64
    ensures { result ≡ nearest_in reference a b }
{
    if reference < a {
        a
    } else if b < reference {
        b
    } else {
        reference
    }
}

// Where the walk has ended, the price that the two tie rules leave, 0 where none qualifies: a look at who is left at an end.
pub fn price_at(rows: &[Order], middle: usize, end: usize, stop: Stop, reference: u64) -> u64
    requires ranked { Ranked rows.now }
    requires middle_value { middle ≡ length (queue 0 rows.now) }
    requires end_value { end ≡ length (queue 0 rows.now) + length (queue 1 rows.now) }
    requires stop_of { StopOf rows.now middle end stop }
    ensures { result ≡ get_or (left_by rows.now reference) 0 0 }
{
    let Stop { crossed, buy, sell } = stop;
    let Span { lo, hi } = span_at(crossed, buy, sell);
    // none, or one alone
    if lo == hi {
        return lo;
    }
    // what has traded is equal on both sides: the difference is what is left of the buys at lo, of the sells at hi
    let buys = left_at(rows, middle, buy, lo);
    let sells = left_at(rows, end, sell, hi);
    let low = flatter(lo, buys, lo + 1, beside(lo, hi, sells));
    let high = flatter(hi, sells, hi - 1, beside(lo, hi, buys));
    nearest(reference, low, high)
}

// The auction's price, 0 where none qualifies: one walk along both sides.
pub fn auction_price(rows: &[Order], reference: u64) -> u64
    requires { Ranked rows.now }
    ensures { result ≡ get_or (left_by rows.now reference) 0 0 }
{
    let middle = sells_from(rows);
    let end = free_from(rows);
    let stop = walk(rows, middle, end);
    price_at(rows, middle, end, stop, reference)
}
