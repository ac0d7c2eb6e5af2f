// The day's own figures: what trades add to them, and what is read off them.
#![tactic(auto)]

ghost use Rattle.std.specs.Prelude.{◌≡◌, ◌+◌, ◌^◌, ◌≤◌, ◌<◌, length, take};
ghost use Rattle.model.specs.Matching.{filled};
ghost use Rattle.model.specs.Figures.{no_levels, no_screen, fresh_day, at, issue, money, tally, reference};
ghost use Rattle.figures.specs.Figures.{totals, Publishable, published};

use model::{Blocks, DAY_END, Day, Fixed, Level, Levels, Screen, Trade};

// Shares and money: what a run of trades adds to the day's figures, and what is published of a day.
#[derive(Clone, Copy)]
pub struct Totals {
    pub shares: u64,
    pub money: u64,
}

// No price stands.
#[tactic(auto, unfolding(model::specs::Figures::no_level, model::specs::Figures::no_levels))]
pub fn no_levels() -> Levels
    ensures { result ≡ no_levels }
{
    let none = Level {
        price: 0,
        shares: 0,
    };
    Levels {
        first: none,
        second: none,
        third: none,
        fourth: none,
        fifth: none,
    }
}

// A screen on which nothing stands.
#[tactic(auto, unfolding(model::specs::Figures::no_screen))]
fn no_screen() -> Screen
    ensures { result ≡ no_screen }
{
    let none = no_levels();
    Screen {
        last: 0,
        high: 0,
        low: 0,
        shares: 0,
        turnover: 0,
        buys: none,
        sells: none,
        price: 0,
        volume: 0,
        surplus: 0,
    }
}

#[tactic(auto, unfolding(model::specs::Figures::fresh_day))]
pub fn fresh_day(close: u64, mark: u64) -> Day
    ensures { result ≡ fresh_day close mark }
{
    Day {
        close,
        limited: mark,
        time: 0,
        issued: 0,
        shares: 0,
        turnover: 0,
        first: 0,
        last: 0,
        screen: no_screen(),
        halt: 0,
        used30: 0,
        used60: 0,
        fixed: Fixed {
            issued: 0,
            shares: 0,
            money: 0,
        },
        blocks: Blocks {
            issued: 0,
            shares: 0,
        },
    }
}

#[tactic(auto, unfolding(model::specs::Figures::at))]
pub fn day_at(day: Day, time: u64) -> Day
    ensures { result ≡ at time day }
{
    Day { time, ..day }
}

// One number more is issued.
#[tactic(auto, unfolding(model::specs::Figures::issue, model::specs::Figures::next_number))]
pub fn issued_one(day: Day) -> Day
    requires { day.issued + 1 < 2 ^ 64 }
    ensures { result ≡ issue day }
{
    Day {
        issued: day.issued + 1,
        ..day
    }
}

// The last trade's price, or the previous close where nothing has traded yet.
#[tactic(auto, unfolding(model::specs::Figures::reference))]
pub fn reference_of(day: Day) -> u64
    ensures { result ≡ reference day }
{
    if day.last == 0 { day.close } else { day.last }
}

// From 15:30 on the figures of the fixed-price book and the confirmed blocks are published too; the money of blocks never is.
#[tactic(auto, unfolding(crate::specs::Figures::published, model::specs::Figures::published_shares, model::specs::Figures::published_turnover, model::specs::Clock::day_end))]
pub fn published(day: Day) -> Totals
    requires { Publishable day }
    ensures { result ≡ published day }
{
    if day.time < DAY_END {
        return Totals {
            shares: day.shares,
            money: day.turnover,
        };
    }
    let fixed = day.fixed;
    let blocks = day.blocks;
    Totals {
        shares: day.shares + fixed.shares + blocks.shares,
        money: day.turnover + fixed.money,
    }
}

// Shares and money of these trades.
fn totals_of(trades: &[Trade]) -> Totals
    requires shares_fit { filled trades.now < 2 ^ 64 }
    requires money_fits { money trades.now < 2 ^ 64 }
    ensures { result ≡ totals trades.now }
{
    let mut shares: u64 = 0;
    let mut money: u64 = 0;
    for t in trades {
        shares += t.quantity;
        money += t.price * t.quantity;
    }
    Totals { shares, money }
}

// The figures with the first n trades of the list added.
pub fn tally_trades(day: Day, trades: &[Trade], n: usize) -> Day
    requires n_in_bounds { n ≤ length trades.now }
    requires trades_bound { day.shares + filled (take n trades.now) < 2 ^ 64 }
    requires trades_bound_2 { day.turnover + money (take n trades.now) < 2 ^ 64 }
    ensures { result ≡ tally (take n trades.now) day }
{
    if n == 0 {
        return day;
    }
    let sum = totals_of(&trades[..n]);
    let first = if day.first == 0 {
        trades[0].price
    } else {
        day.first
    };
    Day {
        shares: day.shares + sum.shares,
        turnover: day.turnover + sum.money,
        first,
        last: trades[n - 1].price,
        ..day
    }
}
