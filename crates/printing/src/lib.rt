// Lines of reply and of trades, put into a lent buffer at a place. Each function answers the place after what it put.
#![tactic(auto)]

ghost use Rattle.std.specs.Prelude.{◌≡◌, ◌+◌, ◌*◌, ◌≤◌, [], ◌∷◌, length, take};
ghost use Rattle.model.specs.Lines.{digits, spaced, reply, refusal_line, trade_lines, reply_line, open_line, clock_line, order_line, cancel_line};
ghost use Rattle.printing.specs.Printing.{Wrote};

use model::{CancelReply, ClockReply, OpenReply, OrderReply, Trade};
use replies::{cancel_numbers, clock_numbers, open_numbers, order_numbers};

// The longest line of a reply, with its newline.
pub const LONGEST_REPLY: usize = 110;

// The longest line of a trade, with its newline.
pub const LONGEST_TRADE: usize = 128;

fn digit(x: u64) -> u8
    requires { x ≤ 9 }
    ensures { result ≡ 48 + x }
{
    (48 + x) as u8
}

// The digits in front of the last are those of a tenth.
pub fn put_digits(x: u64, out: &mut [u8], at: usize) -> usize
    requires { at + 20 ≤ length out.old }
    ensures { Wrote out.old at (digits 20 x) out.new result }
{
    if x < 10 {
        out[at] = digit(x);
        return at + 1;
    }
    let last = put_digits(x / 10, out, at);
    out[last] = digit(x % 10);
    last + 1
}

pub fn put_byte(b: u8, out: &mut [u8], at: usize) -> usize
    requires { at + 1 ≤ length out.old }
    ensures { Wrote out.old at (b ∷ []) out.new result }
{
    out[at] = b;
    at + 1
}

// A number with a space in front.
pub fn put_number(x: u64, out: &mut [u8], at: usize) -> usize
    requires { at + 21 ≤ length out.old }
    ensures { Wrote out.old at (32 ∷ digits 20 x) out.new result }
{
    let p = put_byte(b' ', out, at);
    put_digits(x, out, p)
}

// Numbers, each with a space in front.
pub fn put_numbers(numbers: &[u64], out: &mut [u8], at: usize) -> usize
    requires { at + 21 * length numbers.now ≤ length out.old }
    ensures { Wrote out.old at (spaced numbers.now) out.new result }
{
    let mut p = at;
    for x in numbers {
        p = put_number(*x, out, p);
    }
    p
}

// A letter and numbers.
pub fn put_reply(letter: u8, numbers: &[u64], out: &mut [u8], at: usize) -> usize
    requires { at + 21 * length numbers.now + 2 ≤ length out.old }
    ensures { Wrote out.old at (reply letter numbers.now) out.new result }
{
    let p = put_byte(letter, out, at);
    let q = put_numbers(numbers, out, p);
    put_byte(b'\n', out, q)
}

fn put_trade(t: Trade, out: &mut [u8], at: usize) -> usize
    requires { at + 128 ≤ length out.old }
    ensures { Wrote out.old at (trade_lines (t ∷ [])) out.new result }
{
    let numbers = [
        t.price,
        t.quantity,
        t.buyer,
        t.seller,
        t.buyerleft,
        t.sellerleft,
    ];
    put_reply(b'M', &numbers, out, at)
}

// The lines of the first n trades of the list.
pub fn put_trades(trades: &[Trade], n: usize, out: &mut [u8], at: usize) -> usize
    requires { (n ≤ length trades.now) × (at + 128 * n ≤ length out.old) }
    ensures { Wrote out.old at (trade_lines (take n trades.now)) out.new result }
{
    let mut p = at;
    for i in 0..n {
        p = put_trade(trades[i], out, p);
    }
    p
}

pub fn put_refusal(n: u64, out: &mut [u8], at: usize) -> usize
    requires { at + 110 ≤ length out.old }
    ensures { Wrote out.old at (refusal_line n) out.new result }
{
    let numbers = [n];
    put_reply(b'X', &numbers, out, at)
}

// A reply by its numbers, of which the refusal's stands first.
pub fn put_answer(letter: u8, numbers: &[u64], out: &mut [u8], at: usize) -> usize
    requires { (1 ≤ length numbers.now) × (length numbers.now ≤ 6) × (at + 110 ≤ length out.old) }
    ensures { Wrote out.old at (reply_line letter numbers.now) out.new result }
{
    let refusal = numbers[0];
    if refusal == 0 {
        return put_reply(letter, &numbers[1..], out, at);
    }
    put_refusal(refusal, out, at)
}

pub fn put_open(told: OpenReply, out: &mut [u8], at: usize) -> usize
    requires { at + 110 ≤ length out.old }
    ensures { Wrote out.old at (open_line told) out.new result }
{
    let numbers = open_numbers(told);
    put_answer(b'D', &numbers, out, at)
}

pub fn put_clock(told: ClockReply, out: &mut [u8], at: usize) -> usize
    requires { at + 110 ≤ length out.old }
    ensures { Wrote out.old at (clock_line told) out.new result }
{
    let numbers = clock_numbers(told);
    put_answer(b'K', &numbers, out, at)
}

pub fn put_order(told: OrderReply, out: &mut [u8], at: usize) -> usize
    requires { at + 110 ≤ length out.old }
    ensures { Wrote out.old at (order_line told) out.new result }
{
    let numbers = order_numbers(told);
    put_answer(b'A', &numbers, out, at)
}

// The number that was asked for stands in front of the shares withdrawn.
pub fn put_cancel(number: u64, told: CancelReply, out: &mut [u8], at: usize) -> usize
    requires { at + 110 ≤ length out.old }
    ensures { Wrote out.old at (cancel_line number told) out.new result }
{
    let withdrawn = cancel_numbers(told);
    let numbers = [withdrawn[0], number, withdrawn[1]];
    put_answer(b'W', &numbers, out, at)
}
