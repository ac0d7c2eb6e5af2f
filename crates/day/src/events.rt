// A move of the clock, an order and a cancel: 15 where the day is not sound, else what they do on a sound day.
ghost use Rattle.day.specs.Promises.{ClockPromise, OrderPromise, CancelPromise};

use model::{Asked, CancelAnswer, ClockAnswer, Day, Order, OrderAnswer, Trade};
use moves::moving::{clock_refused, clock_sound};
use orders::cancelling::{cancel_refused, cancel_sound};
use orders::entering::{order_refused, order_sound};
use soundness::is_sound;

pub fn clock_call(d: Day, rows: &mut [Order], trades: &mut [Trade], time: u64) -> ClockAnswer
    ensures { ClockPromise d rows.old trades.old time result rows.new trades.new }
{
    if !is_sound(d, rows) {
        return clock_refused(d, 15);
    }
    clock_sound(d, &mut *rows, &mut *trades, time)
}

pub fn order_call(d: Day, rows: &mut [Order], trades: &mut [Trade], a: Asked) -> OrderAnswer
    ensures { OrderPromise d rows.old trades.old a result rows.new trades.new }
{
    if !is_sound(d, rows) {
        return order_refused(d, 15);
    }
    order_sound(d, &mut *rows, &mut *trades, a)
}

pub fn cancel_call(d: Day, rows: &mut [Order], account: u64, number: u64) -> CancelAnswer
    ensures { CancelPromise d rows.old account number result rows.new }
{
    if !is_sound(d, rows) {
        return cancel_refused(d, 15);
    }
    cancel_sound(d, &mut *rows, account, number)
}
