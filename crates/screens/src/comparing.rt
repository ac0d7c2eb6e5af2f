// A screen held against what is counted, part by part.
ghost use Rattle.std.specs.Prelude.{◌≡◌, ◌&&◌};
ghost use Rattle.model.specs.Screen as screen;
ghost use Rattle.model.specs.Sound as sound;
ghost use Rattle.book.specs.Standing.{Ranked};
ghost use Rattle.figures.specs.Figures.{Publishable};
ghost use Rattle.screens.specs.Parts.{figures_fit, same_fixing};

use auction::Fixing;
use figures::published;
use levels::levels_of;
use model::{Day, Order, Screen};

// The lines of both sides.
#[tactic(auto, unfolding(model::specs::Screen::same_levels, model::specs::Screen::same_level))]
pub fn lines_fit(s: Screen, rows: &[Order]) -> bool
    requires { Ranked rows.now }
    ensures { result ≡ (screen.same_levels s.buys (screen.levels_of 0 rows.now) && screen.same_levels s.sells (screen.levels_of 1 rows.now)) }
{
    s.buys == levels_of(rows, 0) && s.sells == levels_of(rows, 1)
}

// The auction's figures of a screen.
#[tactic(auto, using(crate::proofs::Same::surplus_is), unfolding(crate::specs::Parts::same_fixing))]
pub fn same_fixing(s: Screen, f: Fixing) -> bool
    ensures { result ≡ same_fixing s f }
{
    s.price == f.price && s.volume == f.volume && s.surplus == f.surplus
}

// The day's figures that its screen shows.
#[tactic(auto, unfolding(crate::specs::Parts::figures_fit, figures::specs::Figures::published))]
pub fn figures_fit(day: Day) -> bool
    requires { Publishable day }
    ensures { result ≡ figures_fit day }
{
    let s = day.screen;
    let totals = published(day);
    s.last == day.last && s.shares == totals.shares && s.turnover == totals.money
}

// Low and high enclose first and last trade; all are 0 if none.
#[tactic(auto, unfolding(model::specs::Sound::encloses))]
pub fn encloses(day: Day) -> bool
    ensures { result ≡ sound.encloses day }
{
    let s = day.screen;
    if day.shares == 0 {
        s.low == 0 && s.high == 0
    } else {
        s.low <= day.first && day.first <= s.high && s.low <= day.last && day.last <= s.high
    }
}
