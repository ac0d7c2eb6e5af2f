// The screen of a day and its book, counted.
ghost use Rattle.std.specs.Prelude.{◌≡◌, [], ◌∷◌};
ghost use Rattle.model.specs.Lists.{among};
ghost use Rattle.model.specs.Screen.{shown_price, screen_of};
ghost use Rattle.book.specs.Standing.{Ranked};
ghost use Rattle.auction.specs.Fixings.{fixing_at};
ghost use Rattle.figures.specs.Figures.{Publishable};

use auction::Fixing;
use auction::fixings::fixing_of;
use clock::{phase_now, row_at};
use figures::{published, reference_of};
use levels::levels_of;
use model::{Day, Order, Screen};

// The phases in which the auction's figures are shown.
#[tactic(auto, unfolding(model::specs::Lists::among, model::specs::Lists::any))]
fn shows(phase: u64) -> bool
    ensures { result ≡ among (1 ∷ 2 ∷ 6 ∷ []) phase }
{
    phase == 1 || phase == 2 || phase == 6
}

// The auction's figures as they are shown: zeros outside these phases, where no price is looked for, and where none stands.
pub fn shown_of(day: Day, rows: &[Order]) -> Fixing
    requires { Ranked rows.now }
    ensures { result ≡ fixing_at (shown_price day rows.now) rows.now }
{
    let phase = phase_now(day, row_at(day.time));
    if !shows(phase) {
        return Fixing {
            price: 0,
            volume: 0,
            surplus: 0,
        };
    }
    fixing_of(rows, reference_of(day))
}

pub fn screen_of(day: Day, rows: &[Order], high: u64, low: u64) -> Screen
    requires ranked { Ranked rows.now }
    requires publishable { Publishable day }
    ensures { result ≡ screen_of day rows.now high low }
{
    let buys = levels_of(rows, 0);
    let sells = levels_of(rows, 1);
    let shown = shown_of(day, rows);
    let totals = published(day);
    Screen {
        last: day.last,
        high,
        low,
        shares: totals.shares,
        turnover: totals.money,
        buys,
        sells,
        price: shown.price,
        volume: shown.volume,
        surplus: shown.surplus,
    }
}
