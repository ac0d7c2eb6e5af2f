// The five best prices of a side with the total shares at each: in a book in order they are the first runs of the side's places, and
// nothing behind them is looked at.
#![tactic(auto)]

ghost use Rattle.std.specs.Prelude.{◌≡◌, ◌≤◌, length};
ghost use Rattle.model.specs.Screen as screen;
ghost use Rattle.book.specs.Standing.{Ranked};
ghost use Rattle.book.specs.Lines.{line};
ghost use Rattle.levels.specs.Fronts.{next_from, moved_up};

use auction::tiers::run_from;
use book::seats::places_of;
use figures::no_levels;
use model::{Level, Levels, Order};

// A price with its shares, and the place where the next price stands.
#[derive(Clone, Copy)]
pub struct Next {
    pub level: Level,
    pub behind: usize,
}

// The price at a place, up to the end of its side, with all shares that stand at it; zeros behind the last order.
fn next_from(rows: &[Order], at: usize, end: usize) -> Next
    requires ranked { Ranked rows.now }
    requires end_in_bounds { end ≤ length rows.now }
    ensures { result ≡ next_from at (line at end rows.now) }
{
    if end <= at {
        return Next {
            level: Level {
                price: 0,
                shares: 0,
            },
            behind: at,
        };
    }
    let first = rows[at];
    let others = run_from(rows, at + 1, end, first.price);
    let shares = first.left + others.shares;
    Next {
        level: Level {
            price: first.price,
            shares,
        },
        behind: others.behind,
    }
}

// Each price one line further up, and this one on the last line.
#[tactic(auto, unfolding(crate::specs::Fronts::moved_up))]
fn moved_up(levels: Levels, last: Level) -> Levels
    ensures { result ≡ moved_up levels last }
{
    Levels {
        first: levels.second,
        second: levels.third,
        third: levels.fourth,
        fourth: levels.fifth,
        fifth: last,
    }
}

// How many prices a screen shows of a side.
const PRICES: usize = 5;

pub fn levels_of(rows: &[Order], side: u64) -> Levels
    requires ranked { Ranked rows.now }
    requires side_bound { side ≤ 1 }
    ensures { result ≡ screen.levels_of side rows.now }
{
    let line = places_of(rows, side);
    let end = line.to;
    let mut at = line.from;
    let mut levels = no_levels();
    for _ in 0..PRICES {
        let next = next_from(rows, at, end);
        levels = moved_up(levels, next.level);
        at = next.behind;
    }
    levels
}
