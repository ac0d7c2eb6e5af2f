// What starts a halt: trades so far away from the day's open that they fire a threshold which is not used yet.
ghost use Rattle.std.specs.Prelude.{◌≡◌, ◌≤◌, length, take};
ghost use Rattle.model.specs.Halts as halts;
ghost use Rattle.model.specs.Halts.{away, reach, fired};
ghost use Rattle.halts.specs.Priced.{Priced};

use crate::ends::halt_end;
use model::{Day, Trade};

// So many percent away from the open, up or down. Two products are compared, so nothing is rounded.
fn is_away(percent: u64, opened: u64, price: u64) -> bool
    requires percent_bound { percent ≤ 100 }
    requires opened_bound { opened ≤ 999_999 }
    requires price_bound { price ≤ 999_999 }
    ensures { result ≡ away percent opened price }
{
    (100 + percent) * opened <= 100 * price || 100 * price <= (100 - percent) * opened
}

// Whether one of these trades is.
fn reaches(percent: u64, day: Day, trades: &[Trade]) -> bool
    requires percent_bound { percent ≤ 100 }
    requires priced { Priced day trades.now }
    ensures { result ≡ reach percent trades.now day }
{
    for t in trades {
        if is_away(percent, day.first, t.price) {
            return true;
        }
    }
    false
}

// Each threshold fires once a day, on unlimited days.
#[tactic(auto, unfolding(model::specs::Halts::fires))]
fn fires(day: Day, trades: &[Trade]) -> bool
    requires { Priced day trades.now }
    ensures { result ≡ halts.fires trades.now day }
{
    day.limited == 0
        && (day.used30 == 0 && reaches(30, day, trades)
            || day.used60 == 0 && reaches(60, day, trades))
}

// The day, with the first n trades of the list among its figures: where they fire, a halt begins at this second.
#[tactic(auto, unfolding(model::specs::Halts::fired, model::specs::Halts::halting))]
pub fn fire(day: Day, trades: &[Trade], n: usize, second: u64) -> Day
    requires second_bound { second ≤ 86_399 }
    requires n_in_bounds { n ≤ length trades.now }
    requires priced { Priced day (take n trades.now) }
    ensures { result ≡ fired second (take n trades.now) day }
{
    let made = &trades[..n];
    if !fires(day, made) {
        return day;
    }
    let used60 = if reaches(60, day, made) {
        1
    } else {
        day.used60
    };
    Day {
        halt: halt_end(second),
        used30: 1,
        used60,
        ..day
    }
}

// The halt is over.
#[tactic(auto, unfolding(model::specs::Halts::resumed, model::specs::Halts::halting))]
pub fn resume_day(day: Day) -> Day
    ensures { result ≡ halts.resumed day }
{
    Day { halt: 0, ..day }
}
