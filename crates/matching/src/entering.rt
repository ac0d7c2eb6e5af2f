// What an order does on entry, by its kind: its price, its trades, and where what is left rests.
ghost use Rattle.std.specs.Prelude.{◌≡◌, ◌≤◌};
ghost use Rattle.model.specs.Halts.{phase_now};
ghost use Rattle.model.specs.Book.{best};
ghost use Rattle.model.specs.Book as sides;
ghost use Rattle.model.specs.Matching as matching;
ghost use Rattle.model.specs.Entry.{entry_trades};
ghost use Rattle.book.specs.Standing.{Ranked};
ghost use Rattle.book.specs.Writing.{fitted};
ghost use Rattle.matching.specs.Sweeping.{comes_to};
ghost use Rattle.matching.specs.Entering.{best_for, entry_at, rest_at, most_prices};

use crate::Swept;
use crate::sweeping::{nothing_yet, sweep};
use model::{Asked, CONTINUOUS, Day, Order, Taker, Trade};

// A book has no more prices than places.
const MOST_PRICES: u64 = 4_096;

// The price itself, or the limit where the price is beyond it.
#[tactic(auto, unfolding(model::specs::Matching::within))]
pub fn within(side: u64, limit: u64, price: u64) -> u64
    ensures { result ≡ matching.within side limit price }
{
    if side == 0 {
        price.min(limit)
    } else {
        price.max(limit)
    }
}

// A best price within the order's limit, 0 where the side is empty: a number, as the definition `best` has it.
#[tactic(auto, unfolding(crate::specs::Entering::best_for))]
pub fn best_for(a: Asked, best: u64) -> u64
    ensures { result ≡ best_for a best }
{
    if best == 0 {
        0
    } else {
        within(a.side, a.price, best)
    }
}

// The price at which an order enters, 0 where it has none: from the best prices of its own side and of the other side.
#[tactic(auto, unfolding(crate::specs::Entering::entry_at))]
fn entry_price(a: Asked, own: u64, other: u64) -> u64
    ensures { result ≡ entry_at a own other }
{
    match a.kind {
        1 => best_for(a, other),
        2 => best_for(a, own),
        _ => a.price,
    }
}

// The price at which what is left of it rests, 0 where it is withdrawn. The best prices are those on entry.
#[tactic(auto, unfolding(crate::specs::Entering::rest_at))]
pub fn price_of_rest(a: Asked, own: u64, other: u64, s: Swept) -> u64
    ensures { result ≡ rest_at a own other s.filled s.last }
{
    match a.kind {
        3 => 0,
        4 if s.filled == 0 => best_for(a, own),
        4 => s.last,
        _ => entry_price(a, own, other),
    }
}

// How many of the best prices a kind may trade at.
#[tactic(auto, unfolding(crate::specs::Entering::most_prices))]
fn most_prices(kind: u64) -> u64
    ensures { result ≡ most_prices kind }
{
    if 3 <= kind { 5 } else { MOST_PRICES }
}

// The trades of an order on entry: none outside continuous trading, none without a price. All are counted; a list that is too short
// gets the first. The best prices of its own side and of the other are handed in.
pub fn enter_trades(
    d: Day,
    rows: &[Order],
    trades: &mut [Trade],
    a: Asked,
    phase: u64,
    own: u64,
    other: u64,
) -> Swept
    requires ranked { Ranked rows.now }
    requires phase_value { phase ≡ phase_now d }
    requires own_value { own ≡ best a.side rows.now }
    requires other_value { other ≡ best (sides.other a.side) rows.now }
    requires issued_bound { d.issued ≤ 999_999 }
    ensures value { result ≡ comes_to (entry_trades d a rows.now) }
    ensures trades_after { trades.new ≡ fitted (entry_trades d a rows.now) trades.old }
{
    if phase != CONTINUOUS {
        return nothing_yet();
    }
    let price = entry_price(a, own, other);
    if price == 0 {
        return nothing_yet();
    }
    let t = Taker {
        side: a.side,
        number: d.issued + 1,
        limit: price,
    };
    sweep(rows, trades, t, a.quantity, most_prices(a.kind))
}
