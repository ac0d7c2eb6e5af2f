// A day as bytes.
ghost use Rattle.std.specs.Prelude.{◌≡◌, ◌+◌, ◌≤◌, length};
ghost use Rattle.std.proofs.lemmas.List.Edits.{sets};
ghost use Rattle.records.specs.Layout.{held_level, held_levels, held_screen, held_fixed, held_blocks, day_of, day_in, bytes, levels_row, screen_row, day_bytes, over};

use crate::numbers::{put_numbers, read_numbers};
use model::{Blocks, Day, Fixed, Level, Levels, Screen};
use replies::{signed_of, word_of};

// What a row of numbers holds from a place on: a level, five of them, the screen.
fn held_level(row: &[u64], at: usize) -> Level
    requires { at + 2 ≤ length row.now }
    ensures { result ≡ held_level row.now at }
{
    Level {
        price: row[at],
        shares: row[at + 1],
    }
}

fn held_levels(row: &[u64], at: usize) -> Levels
    requires { at + 10 ≤ length row.now }
    ensures { result ≡ held_levels row.now at }
{
    Levels {
        first: held_level(row, at),
        second: held_level(row, at + 2),
        third: held_level(row, at + 4),
        fourth: held_level(row, at + 6),
        fifth: held_level(row, at + 8),
    }
}

fn held_screen(row: &[u64], at: usize) -> Screen
    requires { at + 28 ≤ length row.now }
    ensures { result ≡ held_screen row.now at }
{
    Screen {
        last: row[at],
        high: row[at + 1],
        low: row[at + 2],
        shares: row[at + 3],
        turnover: row[at + 4],
        buys: held_levels(row, at + 5),
        sells: held_levels(row, at + 15),
        price: row[at + 25],
        volume: row[at + 26],
        surplus: signed_of(row[at + 27]),
    }
}

// The figures of the fixed-price book, and of block trades.
fn held_fixed(row: &[u64], at: usize) -> Fixed
    requires { at + 3 ≤ length row.now }
    ensures { result ≡ held_fixed row.now at }
{
    Fixed {
        issued: row[at],
        shares: row[at + 1],
        money: row[at + 2],
    }
}

fn held_blocks(row: &[u64], at: usize) -> Blocks
    requires { at + 2 ≤ length row.now }
    ensures { result ≡ held_blocks row.now at }
{
    Blocks {
        issued: row[at],
        shares: row[at + 1],
    }
}

// The day that a row of 44 numbers holds.
fn held_day(row: &[u64]) -> Day
    requires { 44 ≤ length row.now }
    ensures { result ≡ day_of row.now }
{
    Day {
        close: row[0],
        limited: row[1],
        time: row[2],
        issued: row[3],
        shares: row[4],
        turnover: row[5],
        first: row[6],
        last: row[7],
        screen: held_screen(row, 8),
        halt: row[36],
        used30: row[37],
        used60: row[38],
        fixed: held_fixed(row, 39),
        blocks: held_blocks(row, 42),
    }
}

// The day that 352 bytes hold.
pub fn day_in(b: &[u8]) -> Day
    requires { 352 ≤ length b.now }
    ensures { result ≡ day_in b.now }
{
    let mut row = [0u64; 44];
    read_numbers(b, 0, &mut row[..]);
    held_day(&row[..])
}

fn put_levels(b: &mut [u8], at: usize, levels: Levels)
    requires { at + 80 ≤ length b.old }
    ensures { b.new ≡ sets b.old at (bytes (levels_row levels)) }
{
    let first = levels.first;
    let second = levels.second;
    let third = levels.third;
    let fourth = levels.fourth;
    let fifth = levels.fifth;
    let row = [
        first.price,
        first.shares,
        second.price,
        second.shares,
        third.price,
        third.shares,
        fourth.price,
        fourth.shares,
        fifth.price,
        fifth.shares,
    ];
    put_numbers(b, at, &row[..]);
}

fn put_screen(b: &mut [u8], at: usize, s: Screen)
    requires { at + 224 ≤ length b.old }
    ensures { b.new ≡ sets b.old at (bytes (screen_row s)) }
{
    let traded = [s.last, s.high, s.low, s.shares, s.turnover];
    put_numbers(&mut *b, at, &traded[..]);
    put_levels(&mut *b, at + 40, s.buys);
    put_levels(&mut *b, at + 120, s.sells);
    let called = [s.price, s.volume, word_of(s.surplus)];
    put_numbers(&mut *b, at + 200, &called[..]);
}

pub fn put_day(b: &mut [u8], d: Day)
    requires { 352 ≤ length b.old }
    ensures { b.new ≡ over (day_bytes d) b.old }
{
    let figures = [
        d.close, d.limited, d.time, d.issued, d.shares, d.turnover, d.first, d.last,
    ];
    put_numbers(&mut *b, 0, &figures[..]);
    put_screen(&mut *b, 64, d.screen);
    let fixed = d.fixed;
    let blocks = d.blocks;
    let rest = [
        d.halt,
        d.used30,
        d.used60,
        fixed.issued,
        fixed.shares,
        fixed.money,
        blocks.issued,
        blocks.shares,
    ];
    put_numbers(&mut *b, 288, &rest[..]);
}
