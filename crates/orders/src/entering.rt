// An order: refused, or its trades are made, the book is settled, and what is left rests or is withdrawn.
ghost use Rattle.std.specs.Prelude.{◌≡◌, false, ◌≤◌, length, take};
ghost use Rattle.model.specs.Book.{best, arranged};
ghost use Rattle.model.specs.Book as sides;
ghost use Rattle.model.specs.Figures.{issue, tally};
ghost use Rattle.model.specs.Halts.{phase_now, fired};
ghost use Rattle.model.specs.Refusals.{first_of, unsound};
ghost use Rattle.model.specs.Calls.{ended, joined, entered, order_call};
ghost use Rattle.book.specs.Standing.{Ranked};
ghost use Rattle.book.specs.Promises.{call_left, order_refused};
ghost use Rattle.checks.specs.Checks.{asked_rules};
ghost use Rattle.orders.specs.Taken.{Taken, Joins, RoomFor};

use book::joining::take_in;
use book::places::other_side;
use book::seats::best_price;
use checks::asked_checks::asked_refusal;
use checks::book_checks::{book_refusal, lacks_places};
use clock::{phase_now, row_at};
use figures::{issued_one, tally_trades};
use halts::firing::fire;
use matching::entering::{enter_trades, price_of_rest};
use matching::settling::settle_entry;
use model::{Asked, Day, Entry, Order, OrderAnswer, OrderReply, Remainder, Trade};
use screens::update_screen;

// How q shares that are left end, where p is the price at which they rest, or 0.
fn remainder_of(q: u64, p: u64) -> Remainder
    ensures { result ≡ ended q p }
{
    if q == 0 {
        return Remainder::Nothing;
    }
    if p == 0 {
        return Remainder::Withdrawn(q);
    }
    Remainder::Rests(q)
}

// And the book then: what rests joins it.
fn join_rest(rows: &mut [Order], a: Asked, number: u64, q: u64, p: u64)
    requires ranked { Ranked rows.old }
    requires joins { Joins a number q p rows.old }
    ensures { rows.new ≡ arranged (length rows.old) (joined a number q p rows.old) }
{
    if q == 0 || p == 0 {
        return;
    }
    let o = Order {
        side: a.side,
        account: a.account,
        left: q,
        price: p,
        number,
    };
    take_in(&mut *rows, o);
}

// The day's figures after an order whose trades are the first n of the list: one number more is issued, they are added, and they may
// start a halt. Its screen is still the one before.
fn day_after(d: Day, trades: &[Trade], n: usize) -> Day
    requires n_in_bounds { n ≤ length trades.now }
    requires room_for { RoomFor d (take n trades.now) }
    ensures { result ≡ fired d.time (take n trades.now) (tally (take n trades.now) (issue d)) }
{
    let tallied = tally_trades(issued_one(d), trades, n);
    fire(tallied, trades, n, d.time)
}

// An order that is not refused.
fn enter(
    d: Day,
    rows: &mut [Order],
    trades: &mut [Trade],
    a: Asked,
    phase: u64,
    own: u64,
    other: u64,
) -> OrderAnswer
    requires taken { Taken d a rows.old (length trades.old) }
    requires phase_value { phase ≡ phase_now d }
    requires own_value { own ≡ best a.side rows.old }
    requires other_value { other ≡ best (sides.other a.side) rows.old }
    ensures { call_left result rows.new trades.new ≡ entered d a rows.old trades.old }
{
    let s = enter_trades(d, rows, &mut *trades, a, phase, own, other);
    let q = a.quantity - s.filled;
    let p = price_of_rest(a, own, other, s);
    settle_entry(&mut *rows, a.side, s.filled);
    join_rest(&mut *rows, a, d.issued + 1, q, p);
    let counted = day_after(d, trades, s.trades);
    let next = update_screen(counted, rows, trades, s.trades);
    let entry = Entry {
        number: d.issued + 1,
        filled: s.filled,
        levels: s.levels,
        remainder: remainder_of(q, p),
    };
    OrderAnswer {
        reply: OrderReply::Accepted(entry),
        made: s.trades,
        day: next,
    }
}

pub fn order_refused(d: Day, n: u64) -> OrderAnswer
    ensures { result ≡ order_refused d n }
{
    OrderAnswer {
        reply: OrderReply::Refused(n),
        made: 0,
        day: d,
    }
}

// An order that no rule on itself refuses, with the phase and the best prices of its own side and of the other.
pub fn order_with(
    d: Day,
    rows: &mut [Order],
    trades: &mut [Trade],
    a: Asked,
    phase: u64,
    own: u64,
    other: u64,
) -> OrderAnswer
    requires rows_value { unsound d rows.old ≡ false }
    requires a_value { first_of (asked_rules d a) ≡ 0 }
    requires phase_value { phase ≡ phase_now d }
    requires own_value { own ≡ best a.side rows.old }
    requires other_value { other ≡ best (sides.other a.side) rows.old }
    ensures { call_left result rows.new trades.new ≡ order_call d a rows.old trades.old }
{
    let refusal = book_refusal(d, rows, a, phase, own, other);
    if refusal != 0 {
        return order_refused(d, refusal);
    }
    // 13: the trades outnumber the lent list
    if lacks_places(d, rows, trades.len(), a, phase, own, other) {
        return order_refused(d, 13);
    }
    enter(d, &mut *rows, &mut *trades, a, phase, own, other)
}

// On a day that its caller has shown to be sound: it is not tested again. The clock's row and the best prices are found once, and
// handed on.
pub fn order_sound(d: Day, rows: &mut [Order], trades: &mut [Trade], a: Asked) -> OrderAnswer
    requires { unsound d rows.old ≡ false }
    ensures { call_left result rows.new trades.new ≡ order_call d a rows.old trades.old }
{
    let row = row_at(d.time);
    let phase = phase_now(d, row);
    let refusal = asked_refusal(d, a, row.orders, phase);
    if refusal != 0 {
        return order_refused(d, refusal);
    }
    let own = best_price(rows, a.side);
    let other = best_price(rows, other_side(a.side));
    order_with(d, &mut *rows, &mut *trades, a, phase, own, other)
}
