// The day's own figures, and how they fit the shares that rest in the book.
ghost use Rattle.std.specs.Prelude.{◌≡◌, ◌+◌, ◌*◌, ◌≤◌, ◌||◌, leb, eqb};
ghost use Rattle.model.specs.Sound.{sound_figures, between, prices_fit, turnover_fits};

use limits::is_price;
use limits::places::is_between;
use model::{Day, HIGHEST_PRICE, LAST_NUMBER, LAST_SECOND, MOST_SHARES};

#[tactic(auto, unfolding(model::specs::Sound::sound_figures, model::specs::Sound::is_mark, model::specs::Clock::is_time))]
pub fn sound_figures(day: Day) -> bool
    ensures { result ≡ sound_figures day }
{
    is_price(day.close) && day.limited <= 1 && day.time <= LAST_SECOND && day.issued <= LAST_NUMBER
}

// A book in which shares rest stands from 33,300 up to 54,000 only.
pub fn fits_hours(time: u64, resting: u64) -> bool
    ensures { result ≡ (between 33_300 53_999 time || eqb resting 0) }
{
    is_between(33_300, 53_999, time) || resting == 0
}

// Twice the shares traded plus all resting shares is at most 1,000,000 times the numbers issued. More than half of that
// traded is too much by itself, and less than that cannot overflow.
pub fn shares_fit(day: Day, resting: u64) -> bool
    requires issued_bound { day.issued ≤ 999_999 }
    requires resting_bound { resting ≤ 4_096_000_000 }
    ensures { result ≡ leb (2 * day.shares + resting) (1_000_000 * day.issued) }
{
    day.shares <= 500_000 * day.issued && 2 * day.shares + resting <= MOST_SHARES * day.issued
}

// Last and first trade are both 0 when no share traded, else both prices.
#[tactic(auto, unfolding(model::specs::Sound::prices_fit))]
pub fn prices_fit(day: Day) -> bool
    ensures { result ≡ prices_fit day }
{
    if day.shares == 0 {
        day.first == 0 && day.last == 0
    } else {
        is_price(day.first) && is_price(day.last)
    }
}

// Turnover is between the shares traded and 999,999 times that.
#[tactic(auto, unfolding(model::specs::Sound::turnover_fits))]
pub fn turnover_fits(day: Day) -> bool
    requires { day.shares ≤ 500_000_000_000 }
    ensures { result ≡ turnover_fits day }
{
    day.shares <= day.turnover && day.turnover <= HIGHEST_PRICE * day.shares
}
