// The public screen of a day: counted from its book and figures, held against the one that the day has, and kept with each event.
#![tactic(auto)]

pub mod comparing;
pub mod counting;
pub mod ranges;

ghost use Rattle.std.specs.Prelude.{◌≡◌, ◌≤◌, length, take};
ghost use Rattle.model.specs.Screen.{update};
ghost use Rattle.model.specs.Sound.{screen_fits};
ghost use Rattle.book.specs.Standing.{Ranked};
ghost use Rattle.figures.specs.Figures.{Publishable};

use crate::comparing::{encloses, figures_fit, lines_fit, same_fixing};
use crate::counting::{screen_of, shown_of};
use crate::ranges::range_with;
use model::{Day, Order, Trade};

// The highest and the lowest price that has traded; zeros while nothing has.
#[derive(Clone, Copy)]
pub struct Range {
    pub high: u64,
    pub low: u64,
}

// The day with its screen as it is after an event that made the first n trades of the list and left this book.
pub fn update_screen(day: Day, rows: &[Order], trades: &[Trade], n: usize) -> Day
    requires ranked { Ranked rows.now }
    requires n_in_bounds { n ≤ length trades.now }
    requires publishable { Publishable day }
    ensures { result ≡ update (take n trades.now) rows.now day }
{
    let range = range_with(day.screen, trades, n);
    let screen = screen_of(day, rows, range.high, range.low);
    Day { screen, ..day }
}

// Whether a day's screen does not differ from its book and its figures: what is cheap is tested first, the auction's figures last.
#[tactic(auto, using(crate::proofs::Whole::fits_groups))]
pub fn screen_fits(day: Day, rows: &[Order]) -> bool
    requires ranked { Ranked rows.now }
    requires publishable { Publishable day }
    ensures { result ≡ screen_fits day rows.now }
{
    let screen = day.screen;
    figures_fit(day)
        && encloses(day)
        && lines_fit(screen, rows)
        && same_fixing(screen, shown_of(day, rows))
}
