// One line, answered in any memory: for a caller that holds the day itself and has shown nothing about it.
#![tactic(auto)]

ghost use Rattle.std.specs.Prelude.{◌≡◌, true};
ghost use Rattle.desk.specs.Desks.{desk_of, asks_day, asks_unsound};
ghost use Rattle.lines.specs.OneLine.{fits, OneLine};

use desk::answering::{answer_command, refuse};
use desk::{Answered, Desk, LENT_PLACES, LENT_TRADES, LONGEST_ANSWER};
use model::{Command, Event, Order, Trade};
use parsing::command_of;
use soundness::is_sound;

// Whether the memory is what the program lends, and the output holds the longest answer.
fn serves(places: usize, trades: usize, output: usize) -> bool
    ensures { result ≡ fits places trades output }
{
    places == LENT_PLACES && (trades == LENT_TRADES && LONGEST_ANSWER <= output)
}

// Whether a line asks something of the open day.
fn asks_day(c: Command) -> bool
    ensures { result ≡ asks_day c }
{
    match c {
        Command::Malformed => false,
        Command::Asks(event) => match event {
            Event::Open { close: _, mark: _ } => false,
            Event::Clock(_) => true,
            Event::Order(_) => true,
            Event::Cancel {
                account: _,
                number: _,
            } => true,
        },
    }
}

// Whether 15 is due.
fn asks_unsound(desk: Desk, rows: &[Order], c: Command) -> bool
    ensures { result ≡ asks_unsound c (desk_of desk rows.now) }
{
    if !asks_day(c) {
        return false;
    }
    let Desk::Open(d) = desk else {
        return false;
    };
    !is_sound(d, rows)
}

// A line without its newline. The answer is put at the output's front; memory that is not as long as the program's has none.
pub fn answer_line(
    desk: Desk,
    rows: &mut [Order],
    trades: &mut [Trade],
    line: &[u8],
    out: &mut [u8],
) -> Option<Answered>
    ensures { OneLine (record { text = line.now; ended = true }) desk rows.old trades.old out.old rows.new trades.new out.new result }
{
    if !serves(rows.len(), trades.len(), out.len()) {
        return None;
    }
    let c = command_of(line, true);
    if asks_unsound(desk, rows, c) {
        let a = refuse(desk, 15, out, 0);
        return Some(a);
    }
    let a = answer_command(desk, rows, trades, c, out, 0);
    Some(a)
}
