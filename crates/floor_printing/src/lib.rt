// The lines that ./floor has beside those of ./run, put into a lent buffer at a place: report, price list, claim, verdict and screen. Each
// function answers the place after what it put.
#![tactic(auto)]

pub mod screen_lines;

ghost use Rattle.std.specs.Prelude.{◌≡◌, ◌+◌, ◌*◌, ◌≤◌, [], ◌∷◌, length};
ghost use Rattle.model.specs.declared.ReportReply.TheVariants.{Priced};
ghost use Rattle.model.specs.Lists.{from};
ghost use Rattle.model.specs.Replies.{list_numbers};
ghost use Rattle.model.specs.Lines.{reply, reply_line};
ghost use Rattle.judge.specs.Judging.{verdict_numbers};
ghost use Rattle.printing.specs.Printing.{Wrote};
ghost use Rattle.floors.specs.Floor.{signed, signed_reply, report_line, price_lines};

use judge::{Verdict, verdict_numbers};
use model::{ListReply, ReportReply};
use printing::{put_answer, put_byte, put_digits, put_number, put_numbers, put_refusal, put_reply};
use replies::list_numbers;

// The longest line of a price, with its newline.
pub const LONGEST_PRICE: usize = 23;

// A number with a space in front, and a minus sign where it is negative.
fn put_signed(z: i64, out: &mut [u8], at: usize) -> usize
    requires { at + 22 ≤ length out.old }
    ensures { Wrote out.old at (32 ∷ signed z) out.new result }
{
    let n = z.unsigned_abs();
    if z < 0 {
        let p = put_byte(b' ', out, at);
        let q = put_byte(b'-', out, p);
        return put_digits(n, out, q);
    }
    put_number(n, out, at)
}

// A letter and numbers, the last of them with a sign.
fn put_signed_reply(letter: u8, numbers: &[u64], z: i64, out: &mut [u8], at: usize) -> usize
    requires { at + 21 * length numbers.now + 24 ≤ length out.old }
    ensures { Wrote out.old at (signed_reply letter numbers.now z) out.new result }
{
    let p = put_byte(letter, out, at);
    let q = put_numbers(numbers, out, p);
    let s = put_signed(z, out, q);
    put_byte(b'\n', out, s)
}

// Price, volume and surplus.
fn put_priced(price: u64, volume: u64, surplus: i64, out: &mut [u8], at: usize) -> usize
    requires { at + 110 ≤ length out.old }
    ensures { Wrote out.old at (report_line (Priced price volume surplus)) out.new result }
{
    let numbers = [price, volume];
    put_signed_reply(b'R', &numbers, surplus, out, at)
}

pub fn put_report(told: ReportReply, out: &mut [u8], at: usize) -> usize
    requires { at + 110 ≤ length out.old }
    ensures { Wrote out.old at (report_line told) out.new result }
{
    match told {
        ReportReply::Refused(n) => put_refusal(n, out, at),
        ReportReply::Priced {
            price,
            volume,
            surplus,
        } => put_priced(price, volume, surplus, out, at),
    }
}

// One price of a list.
fn put_price(price: u64, out: &mut [u8], at: usize) -> usize
    requires { at + 23 ≤ length out.old }
    ensures { Wrote out.old at (price_lines (price ∷ [])) out.new result }
{
    let numbers = [price];
    put_reply(b'L', &numbers, out, at)
}

// n prices from the first on, each one fen above the one before.
pub fn put_prices(first: u64, n: usize, out: &mut [u8], at: usize) -> usize
    requires { (first + n ≤ 1000000) × (at + 23 * n ≤ length out.old) }
    ensures { Wrote out.old at (price_lines (from first n)) out.new result }
{
    let mut p = at;
    for price in first..first + n as u64 {
        p = put_price(price, out, p);
    }
    p
}

// How many prices were listed, and the next one due.
pub fn put_listed(told: ListReply, out: &mut [u8], at: usize) -> usize
    requires { at + 110 ≤ length out.old }
    ensures { Wrote out.old at (reply_line 78 (list_numbers told)) out.new result }
{
    let numbers = list_numbers(told);
    put_answer(b'N', &numbers, out, at)
}

// The count of a claim that is noted.
pub fn put_noted(n: u64, out: &mut [u8], at: usize) -> usize
    requires { at + 110 ≤ length out.old }
    ensures { Wrote out.old at (reply 81 (n ∷ [])) out.new result }
{
    let numbers = [n];
    put_reply(b'Q', &numbers, out, at)
}

pub fn put_verdict(told: Verdict, out: &mut [u8], at: usize) -> usize
    requires { at + 110 ≤ length out.old }
    ensures { Wrote out.old at (reply_line 74 (verdict_numbers told)) out.new result }
{
    let numbers = verdict_numbers(told);
    put_answer(b'J', &numbers, out, at)
}
