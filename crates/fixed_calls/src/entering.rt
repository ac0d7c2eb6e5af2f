// A fixed-price order that no rule but 13 refuses: before 15:05 it only rests, and from then on it matches.
ghost use Rattle.std.specs.Prelude.{◌≡◌, not, List, ℕ, ◌+◌, ◌^◌, ◌≤◌, ◌<◌, length, ltb, eqb, if◌then◌else◌};
ghost use Rattle.model.specs.Lists.{keep};
ghost use Rattle.model.specs.Figures.{issue_fixed};
ghost use Rattle.model.specs.FixedBook.{is_void, matches};
ghost use Rattle.model.specs.Calls.{ended};
ghost use Rattle.book.specs.Promises.{call_left, order_refused};
ghost use Rattle.fixed_book.specs.Ready.{Lined};
ghost use Rattle.fixed_book.specs.Asked.{incoming};
ghost use Rattle.fixed_calls.specs.Rules.{Welcome, welcomed};
ghost use Rattle.fixed_calls.specs.Entries.{entry_of};
ghost use Rattle.model.specs.declared.Trade.{Trade};

use book::places::free_place;
use figures::reference_of;
use fixed_book::{deal_at_close, settle_at_close, tally_fixed};
use model::{
    AskedFixed, Day, Entry, MATCHING_FROM, Order, OrderAnswer, OrderReply, Remainder, Trade,
};

pub fn fixed_refused(d: Day, n: u64) -> OrderAnswer
    ensures { result ≡ order_refused d n }
{
    OrderAnswer {
        reply: OrderReply::Refused(n),
        made: 0,
        day: d,
    }
}

// One number more of this book is issued.
fn issued_fixed(d: Day) -> Day
    requires { d.fixed.issued + 1 < 2 ^ 64 }
    ensures { result ≡ issue_fixed d }
{
    let mut fixed = d.fixed;
    fixed.issued = fixed.issued + 1;
    let mut issued = d;
    issued.fixed = fixed;
    issued
}

// The order as it stands in the book.
fn incoming_order(d: Day, a: AskedFixed) -> Order
    requires { d.fixed.issued + 1 < 2 ^ 64 }
    ensures { result ≡ incoming d a }
{
    let fixed = d.fixed;
    Order {
        side: a.side,
        account: a.account,
        left: a.quantity,
        price: a.price,
        number: fixed.issued + 1,
    }
}

// How many prices so many trades have: all are at the close.
fn levels_of(made: usize) -> u64
    ensures { result ≡ (if eqb made 0 then 0 else 1) }
{
    if made == 0 {
        return 0;
    }
    1
}

// How the shares that are left end: they rest.
fn rest_of(left: u64) -> Remainder
    ensures { (p : ℕ) → (p ≡ 0 → ⊥) → result ≡ ended left p }
{
    if left == 0 {
        return Remainder::Nothing;
    }
    Remainder::Rests(left)
}

// The reply, when so many trades filled so many of its shares.
fn entry_of(d: Day, a: AskedFixed, made: usize, shares: u64) -> Entry
    requires issued_bound { d.fixed.issued + 1 < 2 ^ 64 }
    requires shares_le_quantity { shares ≤ a.quantity }
    requires priced { a.price ≡ 0 → ⊥ }
    ensures { result ≡ entry_of d a made shares }
{
    let fixed = d.fixed;
    Entry {
        number: fixed.issued + 1,
        filled: shares,
        levels: levels_of(made),
        remainder: rest_of(a.quantity - shares),
    }
}

// Whether the trades of the line at the close outnumber so many places. A line has fewer trades than places, so they are counted only
// where the places are fewer: a list of none takes no trade, and all are counted.
fn lacks_places(rows: &[Order], places: usize, close: u64) -> bool
    requires { Lined rows.now }
    ensures { result ≡ ltb places (length (matches close (keep (λ o. not (is_void close o)) rows.now))) }
{
    if rows.len() <= places {
        return false;
    }
    let counted = deal_at_close(rows, &mut [], close);
    places < counted.made
}

// Before 15:05: it goes behind the others, and nothing trades.
fn enter_early(d: Day, rows: &mut [Order], a: AskedFixed, place: usize) -> OrderAnswer
    requires welcome { Welcome d a rows.old place }
    requires time_bound { d.time < 54_300 }
    ensures { (lent : List Trade) → call_left result rows.new lent ≡ welcomed d a rows.old lent }
{
    rows[place] = incoming_order(d, a);
    let entry = entry_of(d, a, 0, 0);
    OrderAnswer {
        reply: OrderReply::Accepted(entry),
        made: 0,
        day: issued_fixed(d),
    }
}

// From 15:05 on: it goes behind the others, and the line matches at the close. Where its trades outnumber the lent list, it leaves again.
fn enter_late(
    d: Day,
    rows: &mut [Order],
    trades: &mut [Trade],
    a: AskedFixed,
    place: usize,
) -> OrderAnswer
    requires welcome { Welcome d a rows.old place }
    requires le_time { 54_300 ≤ d.time }
    ensures { call_left result rows.new trades.new ≡ welcomed d a rows.old trades.old }
{
    let close = reference_of(d);
    rows[place] = incoming_order(d, a);
    if lacks_places(rows, trades.len(), close) {
        rows[place] = free_place();
        return fixed_refused(d, 13);
    }
    let dealt = deal_at_close(rows, &mut *trades, close);
    settle_at_close(&mut *rows, close, dealt.shares);
    let entry = entry_of(d, a, dealt.made, dealt.shares);
    let next = tally_fixed(issued_fixed(d), close, dealt.shares);
    OrderAnswer {
        reply: OrderReply::Accepted(entry),
        made: dealt.made,
        day: next,
    }
}

// Its trades are none, or those of the line at the close.
pub fn enter(
    d: Day,
    rows: &mut [Order],
    trades: &mut [Trade],
    a: AskedFixed,
    place: usize,
) -> OrderAnswer
    requires { Welcome d a rows.old place }
    ensures { call_left result rows.new trades.new ≡ welcomed d a rows.old trades.old }
{
    if d.time < MATCHING_FROM {
        return enter_early(d, &mut *rows, a, place);
    }
    enter_late(d, &mut *rows, &mut *trades, a, place)
}
