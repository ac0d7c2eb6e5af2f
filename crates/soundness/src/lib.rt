// When a day is sound: what every call tests first, on any memory that it is lent. Nothing is assumed of the numbers, and
// each test keeps the products of the later ones small. The order of the places is tested before the best prices are looked for,
// and the screen last, since it is counted from a book in order and from all figures.
#![tactic(auto)]

pub mod day_figures;
pub mod evening;
pub mod order;
pub mod places;

ghost use Rattle.std.specs.Prelude.{◌≡◌, ◌&&◌, ◌||◌, ◌≤◌, ◌+◌, ◌*◌, not, leb, eqb};
ghost use Rattle.model.specs.Lists.{all};
ghost use Rattle.model.specs.Book.{in_order};
ghost use Rattle.model.specs.Halts.{runs};
ghost use Rattle.book.specs.Standing.{Ranked};
ghost use Rattle.model.specs.Sound.{has_places, sound_figures, is_free, is_order, own_numbers, halt_fits, between, crosses, prices_fit, turnover_fits, sound};
ghost use Rattle.soundness.specs.SoundDay.{stands_sound};

use crate::day_figures::{fits_hours, prices_fit, shares_fit, sound_figures, turnover_fits};
use crate::evening::evening_fits;
use crate::order::is_in_order;
use crate::places::{crosses_in_hours, shares_left, sound_places};
use halts::fitting::halt_fits;
use limits::places::has_places;
use model::{Day, Order};
use screens::screen_fits;

// Whether the book has 1 to 4,096 places, all of them sound and in order, on a day whose own figures and halt are sound.
fn seats_fit(day: Day, rows: &[Order]) -> bool
    ensures { result ≡ (has_places rows.now && sound_figures day && (all (λ o. is_free o || is_order day o) rows.now && own_numbers rows.now) && in_order rows.now && halt_fits day) }
{
    has_places(rows)
        && sound_figures(day)
        && sound_places(day, rows)
        && is_in_order(rows)
        && halt_fits(day)
}

// The rest of the test on such a day, with the shares that rest in its book.
fn rest_fits(day: Day, rows: &[Order], resting: u64) -> bool
    requires ranked { Ranked rows.now }
    requires issued_bound { day.issued ≤ 999_999 }
    requires resting_bound { resting ≤ 4_096_000_000 }
    ensures { result ≡ ((between 33_300 53_999 day.time || eqb resting 0) && not (between 33_900 53_819 day.time && not (runs day) && crosses rows.now) && leb (2 * day.shares + resting) (1_000_000 * day.issued) && prices_fit day && turnover_fits day) }
{
    fits_hours(day.time, resting)
        && !crosses_in_hours(day, rows)
        && shares_fit(day, resting)
        && prices_fit(day)
        && turnover_fits(day)
}

// Whether the book has 1 to 4,096 places, and all is sound but the screen and the figures of the other lists.
fn stands_sound(day: Day, rows: &[Order]) -> bool
    ensures { result ≡ (has_places rows.now && stands_sound day rows.now) }
{
    if !seats_fit(day, rows) {
        return false;
    }
    rest_fits(day, rows, shares_left(rows))
}

// Whether the day is sound, and its book has 1 to 4,096 places.
pub fn is_sound(day: Day, rows: &[Order]) -> bool
    ensures { result ≡ (has_places rows.now && sound day rows.now) }
{
    stands_sound(day, rows) && evening_fits(day) && screen_fits(day, rows)
}
