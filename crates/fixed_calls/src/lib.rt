// The two calls of the fixed-price book, on rows of memory: an order and a cancel. Each takes any input and any state, and promises the
// definitions' outcome. The main book is lent to be read alone: 15 tests it, since it tests all that a call is lent.
#![tactic(auto)]

pub mod asking;
pub mod entering;

ghost use Rattle.std.specs.Prelude.{◌≡◌, false, List};
ghost use Rattle.model.specs.declared.Order.{Order};
ghost use Rattle.model.specs.Refusals.{unsound};
ghost use Rattle.model.specs.FixedCalls.{fixed_call, fixed_cancel_call};
ghost use Rattle.book.specs.Promises.{call_left, fixed_cancel_left};
ghost use Rattle.fixed_book.specs.Ready.{FixedReady};
ghost use Rattle.fixed_calls.specs.Promises.{FixedPromise, FixedCancelPromise};

use crate::asking::{asked_refusal, long_hours};
use crate::entering::{enter, fixed_refused};
use book::places::{free_place, place_of};
use fixed_book::fixed_sound;
use fixed_book::line::{line_up, orders_in};
use model::{AskedFixed, CancelReply, Day, LAST_NUMBER, Order, OrderAnswer, Trade};
use soundness::is_sound;

// On a day and a book that its caller has shown to be sound: they are not tested again.
pub fn fixed_order_sound(
    d: Day,
    rows: &mut [Order],
    trades: &mut [Trade],
    a: AskedFixed,
) -> OrderAnswer
    requires { FixedReady d rows.old }
    ensures { (main : List Order) → unsound d main ≡ false → call_left result rows.new trades.new ≡ fixed_call d a main rows.old trades.old }
{
    let refusal = asked_refusal(d, a);
    if refusal != 0 {
        return fixed_refused(d, refusal);
    }
    // 10: no free place
    let place = orders_in(rows);
    if rows.len() <= place {
        return fixed_refused(d, 10);
    }
    // 11: no number left
    let fixed = d.fixed;
    if fixed.issued == LAST_NUMBER {
        return fixed_refused(d, 11);
    }
    enter(d, &mut *rows, &mut *trades, a, place)
}

// On a day and a book that its caller has shown to be sound: they are not tested again.
pub fn fixed_cancel_sound(d: Day, rows: &mut [Order], account: u64, number: u64) -> CancelReply
    requires { FixedReady d rows.old }
    ensures { (main : List Order) → unsound d main ≡ false → fixed_cancel_left result rows.new ≡ fixed_cancel_call d account number main rows.old }
{
    // 19: outside the hours
    if !long_hours(d.time) {
        return CancelReply::Refused(19);
    }
    // 12: no live order has this number and account
    let Some(place) = place_of(rows, account, number) else {
        return CancelReply::Refused(12);
    };
    let own = rows[place];
    rows[place] = free_place();
    line_up(rows);
    CancelReply::Withdrawn(own.left)
}

pub fn fixed_order_call(
    d: Day,
    main: &[Order],
    rows: &mut [Order],
    trades: &mut [Trade],
    a: AskedFixed,
) -> OrderAnswer
    ensures { FixedPromise d main.now rows.old trades.old a result rows.new trades.new }
{
    if !is_sound(d, main) {
        return fixed_refused(d, 15);
    }
    if !fixed_sound(d, rows) {
        return fixed_refused(d, 15);
    }
    fixed_order_sound(d, &mut *rows, &mut *trades, a)
}

pub fn fixed_cancel_call(
    d: Day,
    main: &[Order],
    rows: &mut [Order],
    account: u64,
    number: u64,
) -> CancelReply
    ensures { FixedCancelPromise d main.now rows.old account number result rows.new }
{
    if !is_sound(d, main) {
        return CancelReply::Refused(15);
    }
    if !fixed_sound(d, rows) {
        return CancelReply::Refused(15);
    }
    fixed_cancel_sound(d, &mut *rows, account, number)
}
