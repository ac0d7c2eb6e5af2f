// The calls that change a day, on a lent slice of order records: an opening, a move of the clock, an order, a cancel.
ghost use Rattle.lent.specs.Calls.{EventPromise};

use crate::{Answer, OnDay};
use day::events::{cancel_call, clock_call, order_call};
use day::opening::open_call;
use model::{Event, Order, Trade};

// The call that an event asks for. A book of more places than a day can have is refused, and no place of it is set.
pub fn take_event(book: &mut [Order], trades: &mut [Trade], asked: OnDay) -> Answer
    ensures { EventPromise book.old trades.old asked result book.new trades.new }
{
    let day = asked.day;
    let event = asked.event;
    match event {
        Event::Open { close, mark } => Answer::Open(open_call(book, close, mark)),
        Event::Clock(time) => Answer::Clock(clock_call(day, book, trades, time)),
        Event::Order(a) => Answer::Order(order_call(day, book, trades, a)),
        Event::Cancel { account, number } => {
            let answer = cancel_call(day, book, account, number);
            Answer::Cancel(answer)
        }
    }
}
