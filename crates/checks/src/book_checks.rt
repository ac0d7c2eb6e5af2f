// What an order is refused for by the book: its range, a free place, a number; and whether a trade list has places for its trades.
// The phase and the best prices of its own side and of the other are handed in.
ghost use Rattle.std.specs.Prelude.{◌≡◌, true, ◌≤◌, ltb, length};
ghost use Rattle.model.specs.Halts.{phase_now};
ghost use Rattle.model.specs.Limits.{is_price};
ghost use Rattle.model.specs.Book.{best};
ghost use Rattle.model.specs.Book as sides;
ghost use Rattle.model.specs.Figures.{reference};
ghost use Rattle.model.specs.Entry.{entry_trades};
ghost use Rattle.model.specs.Refusals.{first_of};
ghost use Rattle.book.specs.Standing.{Ranked};
ghost use Rattle.checks.specs.Checks.{base_from, outside_of, book_rules};

use book::seats::free_from;
use figures::reference_of;
use limits::in_range;
use matching::entering::enter_trades;
use model::{Asked, CONTINUOUS, Day, LAST_NUMBER, Order};

// The base of the order range: the other side's best, else the own side's, else the last trade, else the previous close.
fn base_of(d: Day, own: u64, other: u64) -> u64
    ensures { result ≡ base_from d own other }
{
    if other != 0 {
        return other;
    }
    if own != 0 {
        return own;
    }
    reference_of(d)
}

// A limit order in continuous trading that is outside its range.
fn is_outside(a: Asked, phase: u64, base: u64) -> bool
    requires base_value { is_price base ≡ true }
    requires price_value { is_price a.price ≡ true }
    ensures { result ≡ outside_of a phase base }
{
    a.kind == 0 && phase == CONTINUOUS && !in_range(a.side, base, a.price)
}

// 9: outside the range. 10: no free place. 11: no number left.
pub fn book_refusal(d: Day, rows: &[Order], a: Asked, phase: u64, own: u64, other: u64) -> u64
    requires ranked { Ranked rows.now }
    requires phase_value { phase ≡ phase_now d }
    requires own_value { own ≡ best a.side rows.now }
    requires other_value { other ≡ best (sides.other a.side) rows.now }
    requires d_value { is_price (reference d) ≡ true }
    requires price_value { is_price a.price ≡ true }
    ensures { result ≡ first_of (book_rules d a rows.now) }
{
    if is_outside(a, phase, base_of(d, own, other)) {
        return 9;
    }
    if free_from(rows) == rows.len() {
        return 10;
    }
    if d.issued == LAST_NUMBER {
        return 11;
    }
    0
}

// Whether the order's trades outnumber so many places. No order has more than the book has places, so they are counted only where
// the places are fewer: a list of none takes no trade, and all are counted.
pub fn lacks_places(
    d: Day,
    rows: &[Order],
    places: usize,
    a: Asked,
    phase: u64,
    own: u64,
    other: u64,
) -> bool
    requires ranked { Ranked rows.now }
    requires phase_value { phase ≡ phase_now d }
    requires own_value { own ≡ best a.side rows.now }
    requires other_value { other ≡ best (sides.other a.side) rows.now }
    requires issued_bound { d.issued ≤ 999_999 }
    ensures { result ≡ ltb places (length (entry_trades d a rows.now)) }
{
    if rows.len() <= places {
        return false;
    }
    let counted = enter_trades(d, rows, &mut [], a, phase, own, other);
    places < counted.trades
}
