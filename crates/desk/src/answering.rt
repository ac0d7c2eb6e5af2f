// What a line is answered with: the call that it asks for is made, and its trades and its reply are put into the lent buffer.
// No call tests the day again: it is for the caller to show that 15 is not due.
ghost use Rattle.std.specs.Prelude.{◌≡◌, false, ◌+◌, ◌≤◌, length};
ghost use Rattle.model.specs.declared.Command.TheVariants.{Asks};
ghost use Rattle.model.specs.Lines.{refusal_line};
ghost use Rattle.model.specs.Session.{open_answer, cancel_answer, on_desk};
ghost use Rattle.printing.specs.Printing.{Wrote};
ghost use Rattle.desk.specs.Desks.{desk_of, not_sound, asks_unsound, Leaves, Answering};

use crate::{Answered, Desk};
use day::opening::open_call;
use model::{Asked, Command, Event, OpenReply, Order, Trade};
use moves::moving::clock_sound;
use orders::cancelling::cancel_sound;
use orders::entering::order_sound;
use printing::{put_cancel, put_clock, put_open, put_order, put_refusal, put_trades};

// A refusal that no call gives: the desk stays.
pub fn refuse(desk: Desk, n: u64, out: &mut [u8], at: usize) -> Answered
    requires { at + 110 ≤ length out.old }
    ensures { (result.desk ≡ desk) × Wrote out.old at (refusal_line n) out.new result.next }
{
    let next = put_refusal(n, out, at);
    Answered { desk, next }
}

// A new day starts over; a refused one changes nothing.
fn answer_open(
    desk: Desk,
    rows: &mut [Order],
    close: u64,
    mark: u64,
    out: &mut [u8],
    at: usize,
) -> Answered
    requires { (length rows.old ≡ 1024) × (at + 110 ≤ length out.old) }
    ensures { Leaves (open_answer close mark (desk_of desk rows.old)) rows.old out.old at rows.new out.new result }
{
    let reply = open_call(&mut *rows, close, mark);
    let next = put_open(reply, out, at);
    match reply {
        OpenReply::Refused(_) => Answered { desk, next },
        OpenReply::Opened(day) => Answered {
            desk: Desk::Open(day),
            next,
        },
    }
}

// Trades come first.
fn answer_clock(
    desk: Desk,
    rows: &mut [Order],
    trades: &mut [Trade],
    time: u64,
    out: &mut [u8],
    at: usize,
) -> Answered
    requires { (length trades.old ≡ 2048) × (at + 262254 ≤ length out.old) × (not_sound (desk_of desk rows.old) ≡ false) }
    ensures { Answering (Asks (Event.Clock time)) desk rows.old trades.old out.old at rows.new trades.new out.new result }
{
    let Desk::Open(d) = desk else {
        return refuse(desk, 17, out, at);
    };
    let answer = clock_sound(d, &mut *rows, &mut *trades, time);
    let reply = answer.reply;
    let after = put_trades(trades, answer.made, out, at);
    let next = put_clock(reply, out, after);
    let day = answer.day;
    Answered {
        desk: Desk::Open(day),
        next,
    }
}

fn answer_order(
    desk: Desk,
    rows: &mut [Order],
    trades: &mut [Trade],
    a: Asked,
    out: &mut [u8],
    at: usize,
) -> Answered
    requires { (length trades.old ≡ 2048) × (at + 262254 ≤ length out.old) × (not_sound (desk_of desk rows.old) ≡ false) }
    ensures { Answering (Asks (Event.Order a)) desk rows.old trades.old out.old at rows.new trades.new out.new result }
{
    let Desk::Open(d) = desk else {
        return refuse(desk, 17, out, at);
    };
    let answer = order_sound(d, &mut *rows, &mut *trades, a);
    let reply = answer.reply;
    let after = put_trades(trades, answer.made, out, at);
    let next = put_order(reply, out, after);
    let day = answer.day;
    Answered {
        desk: Desk::Open(day),
        next,
    }
}

fn answer_cancel(
    desk: Desk,
    rows: &mut [Order],
    account: u64,
    number: u64,
    out: &mut [u8],
    at: usize,
) -> Answered
    requires { (at + 110 ≤ length out.old) × (not_sound (desk_of desk rows.old) ≡ false) }
    ensures { Leaves (on_desk (cancel_answer account number) (desk_of desk rows.old)) rows.old out.old at rows.new out.new result }
{
    let Desk::Open(d) = desk else {
        return refuse(desk, 17, out, at);
    };
    let answer = cancel_sound(d, &mut *rows, account, number);
    let reply = answer.reply;
    let next = put_cancel(number, reply, out, at);
    let day = answer.day;
    Answered {
        desk: Desk::Open(day),
        next,
    }
}

fn answer_event(
    desk: Desk,
    rows: &mut [Order],
    trades: &mut [Trade],
    event: Event,
    out: &mut [u8],
    at: usize,
) -> Answered
    requires { (length rows.old ≡ 1024) × (length trades.old ≡ 2048) × (at + 262254 ≤ length out.old) × (asks_unsound (Asks event) (desk_of desk rows.old) ≡ false) }
    ensures { Answering (Asks event) desk rows.old trades.old out.old at rows.new trades.new out.new result }
{
    match event {
        Event::Open { close, mark } => answer_open(desk, rows, close, mark, out, at),
        Event::Clock(time) => answer_clock(desk, rows, trades, time, out, at),
        Event::Order(a) => answer_order(desk, rows, trades, a, out, at),
        Event::Cancel { account, number } => answer_cancel(desk, rows, account, number, out, at),
    }
}

// The answer to any line.
pub fn answer_command(
    desk: Desk,
    rows: &mut [Order],
    trades: &mut [Trade],
    c: Command,
    out: &mut [u8],
    at: usize,
) -> Answered
    requires { (length rows.old ≡ 1024) × (length trades.old ≡ 2048) × (at + 262254 ≤ length out.old) × (asks_unsound c (desk_of desk rows.old) ≡ false) }
    ensures { Answering c desk rows.old trades.old out.old at rows.new trades.new out.new result }
{
    match c {
        Command::Malformed => refuse(desk, 16, out, at),
        Command::Asks(event) => answer_event(desk, rows, trades, event, out, at),
    }
}
