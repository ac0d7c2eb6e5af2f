// A move of the clock, from stop to stop in time order: what each does to day, book and trade list.
ghost use Rattle.std.specs.Prelude.{◌≡◌, true, false, ◌≤◌, ltb, length};
ghost use Rattle.model.specs.Refusals.{unsound};
ghost use Rattle.model.specs.ClockCall.{pass, moved, clock_call};
ghost use Rattle.book.specs.Promises.{call_left, clock_refused};
ghost use Rattle.soundness.specs.Ready.{Ready};
ghost use Rattle.moves.specs.Stops.{is_stop};
ghost use Rattle.moves.specs.Moving.{so_far, Underway, Reached};

use crate::Passage;
use crate::holding::{auction_trades, pass_stop};
use crate::stops::next_stop;
use clock::{phase_now, row_at};
use figures::day_at;
use model::{ClockAnswer, ClockReply, Day, LAST_SECOND, Order, Trade};
use screens::update_screen;

// Whether the trades of what the move passes outnumber so many places. No auction has more than the book has places, so they are
// counted only where the places are fewer: a list of none takes no trade, and all are counted. The first auction on the way has all
// of them: after it no buy reaches a sell.
fn lacks_places(d: Day, rows: &[Order], places: usize, time: u64) -> bool
    requires ready { Ready d rows.now }
    requires time_le_time { d.time ≤ time }
    ensures { result ≡ ltb places (length (moved d time rows.now).trades) }
{
    if rows.len() <= places {
        return false;
    }
    if next_stop(d.halt, d.time, time) == 0 {
        return false;
    }
    let counted = auction_trades(d, rows, &mut []);
    places < counted.made
}

// What is due at a stop, with its trades after those so far.
fn pass_next(p: Passage, rows: &mut [Order], trades: &mut [Trade], second: u64) -> Passage
    requires made_in_bounds { p.made ≤ length trades.old }
    requires underway { Underway (so_far p rows.old trades.old) }
    requires second_bound { second ≤ 86_399 }
    requires second_value { is_stop p.day.halt second ≡ true }
    requires trades_in_bounds { length (pass second (so_far p rows.old trades.old)).trades ≤ length trades.old }
    ensures { Reached (pass second (so_far p rows.old trades.old)) trades.old result rows.new trades.new }
{
    let made = p.made;
    let held = pass_stop(p.day, &mut *rows, &mut trades[made..], second);
    let day = held.day;
    Passage {
        day,
        made: made + held.made,
    }
}

// The stops on the way. A halt that one of them starts has its end among those to come.
pub fn pass_stops(d: Day, rows: &mut [Order], trades: &mut [Trade], time: u64) -> Passage
    requires ready { Ready d rows.old }
    requires time_le_time { d.time ≤ time }
    requires time_bound { time ≤ 86_399 }
    requires rows_in_bounds { length (moved d time rows.old).trades ≤ length trades.old }
    ensures { Reached (moved d time rows.old) trades.old result rows.new trades.new }
{
    let mut p = Passage { day: d, made: 0 };
    let mut from = d.time;
    let mut stop = next_stop(d.halt, from, time);
    // Which stop is next depends on the halt, and a stop may start one.
    while stop != 0 {
        p = pass_next(p, &mut *rows, &mut *trades, stop);
        from = stop;
        let day = p.day;
        stop = next_stop(day.halt, from, time);
    }
    p
}

pub fn clock_refused(d: Day, n: u64) -> ClockAnswer
    ensures { result ≡ clock_refused d n }
{
    ClockAnswer {
        reply: ClockReply::Refused(n),
        made: 0,
        day: d,
    }
}

// On a day that its caller has shown to be sound: it is not tested again.
pub fn clock_sound(d: Day, rows: &mut [Order], trades: &mut [Trade], time: u64) -> ClockAnswer
    requires { unsound d rows.old ≡ false }
    ensures { call_left result rows.new trades.new ≡ clock_call d time rows.old trades.old }
{
    // 1: no time, or before the day's time
    if LAST_SECOND < time || time < d.time {
        return clock_refused(d, 1);
    }
    // 13: the trades outnumber the lent list
    if lacks_places(d, rows, trades.len(), time) {
        return clock_refused(d, 13);
    }
    let passage = pass_stops(d, &mut *rows, &mut *trades, time);
    let made = passage.made;
    let then = day_at(passage.day, time);
    ClockAnswer {
        reply: ClockReply::Moved {
            phase: phase_now(then, row_at(time)),
            trades: made,
        },
        made,
        day: update_screen(then, rows, trades, made),
    }
}
