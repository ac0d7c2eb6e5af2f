// The day's figures of the fixed-price book and of block trades, which every call tests.
ghost use Rattle.std.specs.Prelude.{◌≡◌, ◌&&◌, ◌≤◌};
ghost use Rattle.model.specs.Figures.{close_price};
ghost use Rattle.model.specs.Sound.{fixed_fits, blocks_fit};

use figures::reference_of;
use model::{Day, LAST_NUMBER, MATCHING_FROM};

// Numbers and shares within their bounds, all money at the close, and nothing before 15:05. Half the bound is tested, so that nothing
// overflows.
#[tactic(auto, unfolding(model::specs::Sound::fixed_fits, model::specs::Clock::matching_from, model::specs::Figures::close_price))]
fn fixed_fits(day: Day) -> bool
    requires { close_price day ≤ 999_999 }
    ensures { result ≡ fixed_fits day }
{
    let fixed = day.fixed;
    fixed.issued <= LAST_NUMBER
        && fixed.shares <= 500_000 * fixed.issued
        && fixed.money == reference_of(day) * fixed.shares
        && (MATCHING_FROM <= day.time || fixed.shares == 0)
}

// At most 50,000,000 confirmed shares for each number issued.
#[tactic(auto, unfolding(model::specs::Sound::blocks_fit))]
fn blocks_fit(day: Day) -> bool
    ensures { result ≡ blocks_fit day }
{
    let held = day.blocks;
    held.issued <= LAST_NUMBER && held.shares <= 50_000_000 * held.issued
}

pub fn evening_fits(day: Day) -> bool
    requires { close_price day ≤ 999_999 }
    ensures { result ≡ (fixed_fits day && blocks_fit day) }
{
    fixed_fits(day) && blocks_fit(day)
}
