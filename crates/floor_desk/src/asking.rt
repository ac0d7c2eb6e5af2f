// What a question is answered with where a day is open. One more question is one more arm of `answer_question`.
ghost use Rattle.std.specs.Prelude.{◌≡◌, ◌+◌, ◌≤◌, min, length, take};
ghost use Rattle.model.specs.AuctionCalls.{list_call};
ghost use Rattle.model.specs.Session.{Desk};
ghost use Rattle.printing.specs.Printing.{Wrote};
ghost use Rattle.floors.specs.declared.Question.TheVariants.{Claims};
ghost use Rattle.floors.specs.Floor.{list_lines, lent_prices};
ghost use Rattle.floor_desk.specs.Floors.{Replied, verdict_line};

use crate::Told;
use day::auctions::{Listing, list_reply, list_run, report_call};
use floor_printing::screen_lines::put_screen;
use floor_printing::{put_listed, put_noted, put_prices, put_report, put_verdict};
use floors::{MOST_LISTED, Question};
use judge::Claim;
use judging::calls::judge_call;
use model::{Day, Order};
use printing::put_refusal;

// So many places are lent to a price list.
fn lent_places(count: u64) -> usize
    ensures { result ≡ min count 4096 }
{
    if count < 4_096 {
        return count as usize;
    }
    MOST_LISTED
}

// The prices come first.
fn answer_prices(d: Day, rows: &[Order], asked: u64, count: u64, out: &mut [u8], at: usize) -> usize
    requires { at + 94318 ≤ length out.old }
    ensures { Wrote out.old at (list_lines (list_call d asked rows.now (lent_prices count))) out.new result × (result ≤ length out.new) }
{
    let told = list_run(d, rows, lent_places(count), asked);
    let reply = list_reply(told);
    match told {
        Listing::Refused(_) => put_listed(reply, out, at),
        Listing::Prices(run) => {
            let p = put_prices(run.first, run.count, out, at);
            put_listed(reply, out, p)
        }
    }
}

// A claim is noted while there is room.
fn answer_claim(claims: &mut [Claim], noted: usize, c: Claim, out: &mut [u8], at: usize) -> Told
    requires { (length claims.old ≡ 4096) × (noted ≤ 4096) × (at + 110 ≤ length out.old) }
    ensures { (s : Desk) → Replied (Claims c) s claims.old noted out.old at claims.new out.new result }
{
    if noted < claims.len() {
        claims[noted] = c;
        let n = noted + 1;
        let next = put_noted(n as u64, out, at);
        return Told { noted: n, next };
    }
    let next = put_refusal(13, out, at);
    Told { noted, next }
}

// The verdict on the claims that are noted.
fn answer_verdict(
    d: Day,
    rows: &[Order],
    claims: &[Claim],
    noted: usize,
    price: u64,
    out: &mut [u8],
    at: usize,
) -> usize
    requires { (noted ≤ length claims.now) × (at + 110 ≤ length out.old) }
    ensures { Wrote out.old at (verdict_line d price rows.now (take noted claims.now)) out.new result }
{
    let told = judge_call(d, rows, &claims[..noted], price);
    put_verdict(told, out, at)
}

// The answer to any question.
pub fn answer_question(
    d: Day,
    rows: &[Order],
    claims: &mut [Claim],
    noted: usize,
    q: Question,
    out: &mut [u8],
    at: usize,
) -> Told
    requires { (length claims.old ≡ 4096) × (noted ≤ 4096) × (at + 94318 ≤ length out.old) }
    ensures { Replied q (record { day = d; book = rows.now }) claims.old noted out.old at claims.new out.new result }
{
    match q {
        Question::Report => {
            let next = put_report(report_call(d, rows), out, at);
            Told { noted, next }
        }
        Question::Prices { asked, count } => {
            let next = answer_prices(d, rows, asked, count, out, at);
            Told { noted, next }
        }
        Question::Claims(c) => answer_claim(claims, noted, c, out, at),
        Question::Judge(price) => {
            let next = answer_verdict(d, rows, claims, noted, price, out, at);
            Told { noted: 0, next }
        }
        Question::Screen => {
            let next = put_screen(d.screen, out, at);
            Told { noted, next }
        }
    }
}
