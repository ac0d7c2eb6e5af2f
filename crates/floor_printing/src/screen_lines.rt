// The lines of the public screen: its figures, then the levels of the buys and those of the sells.
ghost use Rattle.std.specs.Prelude.{◌+◌, ◌≤◌, length};
ghost use Rattle.printing.specs.Printing.{Wrote};
ghost use Rattle.floors.specs.Floor.{level_line, level_lines, figures_line, screen_lines};

use crate::put_signed_reply;
use model::{Level, Levels, Screen};
use printing::put_reply;

// A price and the shares there; nothing for a level that is not in use.
fn put_level(letter: u8, l: Level, out: &mut [u8], at: usize) -> usize
    requires { at + 44 ≤ length out.old }
    ensures { Wrote out.old at (level_line letter l) out.new result }
{
    if l.price == 0 {
        return at;
    }
    let numbers = [l.price, l.shares];
    put_reply(letter, &numbers, out, at)
}

// The levels of a side, the best first.
fn put_levels(letter: u8, ls: Levels, out: &mut [u8], at: usize) -> usize
    requires { at + 220 ≤ length out.old }
    ensures { Wrote out.old at (level_lines letter ls) out.new result }
{
    let p = put_level(letter, ls.first, out, at);
    let q = put_level(letter, ls.second, out, p);
    let r = put_level(letter, ls.third, out, q);
    let s = put_level(letter, ls.fourth, out, r);
    put_level(letter, ls.fifth, out, s)
}

// The day's figures and the auction's.
fn put_figures(s: Screen, out: &mut [u8], at: usize) -> usize
    requires { at + 171 ≤ length out.old }
    ensures { Wrote out.old at (figures_line s) out.new result }
{
    let numbers = [
        s.last, s.high, s.low, s.shares, s.turnover, s.price, s.volume,
    ];
    put_signed_reply(b'S', &numbers, s.surplus, out, at)
}

// The longest screen has 171 bytes in its first line, and 44 in each of ten levels.
pub fn put_screen(s: Screen, out: &mut [u8], at: usize) -> usize
    requires { at + 611 ≤ length out.old }
    ensures { Wrote out.old at (screen_lines s) out.new result }
{
    let p = put_figures(s, out, at);
    let q = put_levels(b'+', s.buys, out, p);
    put_levels(b'-', s.sells, out, q)
}
