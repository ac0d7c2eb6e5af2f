// What the program prints: an answer's lines, what is told of an auction, and the orders of the book.
ghost use Rattle.std.specs.Prelude.{◌≡◌, ◌≤◌, length};

use crate::Stand;
use lent::{Answer, Told};
use model::{Event, ListReply, ReportReply, Trade};
use printing::{put_cancel, put_clock, put_open, put_order, put_reply, put_trades};
use std::io::Write;
use streams::{buffer, tell};

// The first n bytes go to standard output.
fn write_out<W: Write>(output: &mut W, out: &[u8], n: usize)
    requires { n ≤ length out.now }
{
    tell(output, &out[..n]);
}

// As many trades as were made, and never more than the list has.
fn at_most_sixteen(made: usize) -> usize
    ensures { result ≤ 16 }
{
    made.min(16)
}

// The number that a cancel asks for.
fn number_asked(event: Event) -> u64 {
    match event {
        Event::Cancel { account: _, number } => number,
        _ => 0,
    }
}

// The trades first, then the reply.
fn put_lines(event: Event, answer: Answer, trades: &[Trade], out: &mut [u8]) -> usize
    requires trades_len { length trades.now ≡ 16 }
    requires in_bounds { 4096 ≤ length out.old }
    ensures { result ≤ length out.new }
{
    match answer {
        Answer::Open(reply) => put_open(reply, out, 0),
        Answer::Clock(moved) => {
            let at = put_trades(trades, at_most_sixteen(moved.made), out, 0);
            let reply = moved.reply;
            put_clock(reply, out, at)
        }
        Answer::Order(entered) => {
            let at = put_trades(trades, at_most_sixteen(entered.made), out, 0);
            let reply = entered.reply;
            put_order(reply, out, at)
        }
        Answer::Cancel(withdrawn) => {
            let reply = withdrawn.reply;
            put_cancel(number_asked(event), reply, out, 0)
        }
    }
}

pub fn print_answer<W: Write>(output: &mut W, event: Event, answer: Answer, trades: &[Trade])
    requires { length trades.now ≡ 16 }
{
    let mut out = buffer();
    let n = put_lines(event, answer, trades, &mut out[..]);
    write_out(output, &out[..], n);
}

// A letter and numbers.
fn print_line<W: Write>(output: &mut W, letter: u8, numbers: &[u64])
    requires { length numbers.now ≤ 5 }
{
    let mut out = buffer();
    let end = put_reply(letter, numbers, &mut out[..], 0);
    write_out(output, &out[..], end);
}

// `R`, then price and volume.
fn print_report<W: Write>(output: &mut W, reply: ReportReply) {
    match reply {
        ReportReply::Refused(n) => print_line(output, b'X', &[n]),
        ReportReply::Priced {
            price,
            volume,
            surplus: _,
        } => print_line(output, b'R', &[price, volume]),
    }
}

// `P` and a price, for the first n of the list.
fn print_prices<W: Write>(output: &mut W, prices: &[u64], n: usize) {
    for price in prices.iter().take(n) {
        print_line(output, b'P', &[*price]);
    }
}

// The prices that were listed, then `N` and the next one due.
fn print_list<W: Write>(output: &mut W, reply: ListReply, prices: &[u64]) {
    match reply {
        ListReply::Refused(n) => print_line(output, b'X', &[n]),
        ListReply::Listed { count, next } => {
            print_prices(output, prices, count);
            print_line(output, b'N', &[next]);
        }
    }
}

pub fn print_told<W: Write>(output: &mut W, told: Told, prices: &[u64]) {
    match told {
        Told::Report(reply) => print_report(output, reply),
        Told::List(reply) => print_list(output, reply, prices),
    }
}

// `B`, then side, account, shares left, price and number, for each order of the book.
pub fn print_book<W: Write>(output: &mut W, s: Stand) {
    let book = s.book;
    for o in &book {
        if o.number != 0 {
            print_line(
                output,
                b'B',
                &[o.side, o.account, o.left, o.price, o.number],
            );
        }
    }
}
