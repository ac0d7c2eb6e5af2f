// The answer to any line of ./floor: to a question from the open day, to any other line as ./run answers it.
ghost use Rattle.std.specs.Prelude.{◌≡◌, ◌+◌, ◌≤◌, length};
ghost use Rattle.desk.specs.Desks.{desk_of};
ghost use Rattle.chunks.specs.SoundDesk.{SoundDesk};
ghost use Rattle.floors.specs.declared.Wish.TheVariants.{Says, Wants};
ghost use Rattle.floor_desk.specs.Floors.{starts_over, noted_past, Leaves};

use crate::FloorAnswered;
use crate::asking::answer_question;
use desk::Desk;
use desk::answering::answer_command;
use floors::{Question, Wish};
use judge::Claim;
use limits::is_price;
use model::{Command, Event, Order, Trade};
use printing::put_refusal;

// Whether a line opens a new day.
fn starts_over(c: Command) -> bool
    ensures { result ≡ starts_over c }
{
    match c {
        Command::Malformed => false,
        Command::Asks(event) => match event {
            Event::Open { close, mark } => is_price(close) && mark <= 1,
            Event::Clock(_) => false,
            Event::Order(_) => false,
            Event::Cancel {
                account: _,
                number: _,
            } => false,
        },
    }
}

// With a new day no claim is noted any more.
fn noted_after(c: Command, noted: usize) -> usize
    ensures { result ≡ noted_past c noted }
{
    if starts_over(c) {
        return 0;
    }
    noted
}

// What ./run reads in a line is answered as ./run answers it.
fn answer_said(
    desk: Desk,
    rows: &mut [Order],
    trades: &mut [Trade],
    claims: &[Claim],
    noted: usize,
    c: Command,
    out: &mut [u8],
    at: usize,
) -> FloorAnswered
    requires { (length rows.old ≡ 1024) × (length trades.old ≡ 2048) × (noted ≤ 4096) × (at + 262254 ≤ length out.old) × SoundDesk (desk_of desk rows.old) }
    ensures { Leaves (Says c) desk rows.old claims.now noted out.old at rows.new claims.now out.new result }
{
    let a = answer_command(desk, rows, trades, c, out, at);
    let kept = noted_after(c, noted);
    let left = a.desk;
    FloorAnswered {
        desk: left,
        noted: kept,
        next: a.next,
    }
}

// A question where no day is open is 17.
fn answer_asked(
    desk: Desk,
    rows: &[Order],
    claims: &mut [Claim],
    noted: usize,
    q: Question,
    out: &mut [u8],
    at: usize,
) -> FloorAnswered
    requires { (length claims.old ≡ 4096) × (noted ≤ 4096) × (at + 262254 ≤ length out.old) }
    ensures { Leaves (Wants q) desk rows.now claims.old noted out.old at rows.now claims.new out.new result }
{
    let Desk::Open(d) = desk else {
        let next = put_refusal(17, out, at);
        return FloorAnswered { desk, noted, next };
    };
    let told = answer_question(d, rows, claims, noted, q, out, at);
    FloorAnswered {
        desk,
        noted: told.noted,
        next: told.next,
    }
}

// The answer to any line.
pub fn answer_wish(
    desk: Desk,
    rows: &mut [Order],
    trades: &mut [Trade],
    claims: &mut [Claim],
    noted: usize,
    w: Wish,
    out: &mut [u8],
    at: usize,
) -> FloorAnswered
    requires { (length rows.old ≡ 1024) × (length trades.old ≡ 2048) × (length claims.old ≡ 4096) × (noted ≤ 4096) × (at + 262254 ≤ length out.old) × SoundDesk (desk_of desk rows.old) }
    ensures { Leaves w desk rows.old claims.old noted out.old at rows.new claims.new out.new result }
{
    match w {
        Wish::Says(c) => answer_said(desk, rows, trades, claims, noted, c, out, at),
        Wish::Wants(q) => answer_asked(desk, rows, claims, noted, q, out, at),
    }
}
