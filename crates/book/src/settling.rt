// The book after trades and after a cancel: orders go, those behind them move up, and the places at the end become free. Only what
// has to move is moved.
ghost use Rattle.std.specs.Prelude.{◌≡◌, [], ◌∷◌, ◌++◌, ◌+◌, ◌-◌, ◌≤◌, ◌<◌, length, take, drop, replicate};
ghost use Rattle.model.specs.Book.{free, queue};
ghost use Rattle.model.specs.Matching.{less_by};
ghost use Rattle.model.specs.Calls.{cleared};
ghost use Rattle.book.specs.Standing.{Ranked};
ghost use Rattle.book.specs.Lines.{line};
ghost use Rattle.book.specs.Settling.{off_front, placed, FreeFrom, CutAt};

use crate::places::free_place;
use crate::seats::{free_from, sells_from};
use model::Order;

// The places from `place` up to `next` are given up: the orders behind them, up to `end`, move there, and free places follow.
fn close_up(rows: &mut [Order], place: usize, next: usize, end: usize)
    requires place_le_next { place ≤ next }
    requires next_le_end { next ≤ end }
    requires end_in_bounds { end ≤ length rows.old }
    ensures { rows.new ≡ take place rows.old ++ (line next end rows.old ++ (replicate (next - place) free ++ drop end rows.old)) }
{
    if place == next {
        return;
    }
    rows.copy_within(next..end, place);
    rows[place + (end - next)..end].fill(free_place());
}

// An order less so many shares: no order once nothing is left.
#[tactic(auto, unfolding(model::specs::Matching::less_by))]
fn less_by(q: u64, o: Order) -> Order
    ensures { result ≡ less_by q o }
{
    if o.left <= q {
        free_place()
    } else {
        Order {
            left: o.left - q,
            ..o
        }
    }
}

// Shares come off the orders from `from` up to `to`, one after the other: what is left of them stands from the place that is
// handed back up to `to`. The places before it still hold who has nothing left.
fn cut_front(rows: &mut [Order], from: usize, to: usize, shares: u64) -> usize
    requires from_le_to { from ≤ to }
    requires to_in_bounds { to ≤ length rows.old }
    ensures { CutAt shares from to rows.old rows.new result }
{
    let mut left = shares;
    for at in from..to {
        let o = rows[at];
        if left < o.left {
            rows[at] = less_by(left, o);
            return at;
        }
        left -= o.left;
    }
    to
}

// The same, and the places that they leave are closed up by those behind, up to `end`.
fn take_off(rows: &mut [Order], from: usize, to: usize, end: usize, shares: u64)
    requires from_le_to { from ≤ to }
    requires to_le_end { to ≤ end }
    requires end_in_bounds { end ≤ length rows.old }
    requires free_from { FreeFrom end rows.old }
    ensures { rows.new ≡ placed (length rows.old) (take from rows.old ++ (off_front shares (line from to rows.old) ++ line to end rows.old)) }
{
    let at = cut_front(rows, from, to, shares);
    close_up(rows, from, at, end);
}

// So many shares come off the front of the buys.
pub fn off_buys(rows: &mut [Order], shares: u64)
    requires { Ranked rows.old }
    ensures { rows.new ≡ placed (length rows.old) (off_front shares (queue 0 rows.old) ++ queue 1 rows.old) }
{
    let middle = sells_from(rows);
    let end = free_from(rows);
    take_off(rows, 0, middle, end, shares);
}

// Of the sells.
pub fn off_sells(rows: &mut [Order], shares: u64)
    requires { Ranked rows.old }
    ensures { rows.new ≡ placed (length rows.old) (queue 0 rows.old ++ off_front shares (queue 1 rows.old)) }
{
    let middle = sells_from(rows);
    let end = free_from(rows);
    take_off(rows, middle, end, end, shares);
}

// Of both sides: the sells first, so that the buys still stand where they stood.
pub fn off_both(rows: &mut [Order], shares: u64)
    requires { Ranked rows.old }
    ensures { rows.new ≡ placed (length rows.old) (off_front shares (queue 0 rows.old) ++ off_front shares (queue 1 rows.old)) }
{
    let middle = sells_from(rows);
    let end = free_from(rows);
    take_off(rows, middle, end, end, shares);
    take_off(rows, 0, middle, end, shares);
}

// The order at a place is taken out: those behind it move up by one place, and the last place becomes free.
pub fn take_out(rows: &mut [Order], place: usize)
    requires ranked { Ranked rows.old }
    requires place_in_bounds { place < length (queue 0 rows.old) + length (queue 1 rows.old) }
    ensures { rows.new ≡ take place rows.old ++ (drop (place + 1) rows.old ++ (free ∷ [])) }
{
    let end = free_from(rows);
    close_up(rows, place, place + 1, end);
}

// Every place free.
pub fn clear_rows(rows: &mut [Order])
    ensures { rows.new ≡ (cleared rows.old) }
{
    rows.fill(free_place());
}
