// How the declarations stand: in order of arrival, free places last, and held only in a day's hours.
ghost use Rattle.std.specs.Prelude.{◌≡◌, true, not, ◌||◌, ◌≤◌, length};
ghost use Rattle.model.specs.Lists.{any};
ghost use Rattle.model.specs.Arrival.{may_arrive, in_arrival};
ghost use Rattle.model.specs.Sound.{between};
ghost use Rattle.model.specs.Blocks.{is_held};

use limits::places::is_between;
use model::Declaration;

#[tactic(auto, unfolding(model::specs::Blocks::is_held, model::specs::Arrival::is_taken))]
pub fn is_held(x: Declaration) -> bool
    ensures { result ≡ is_held x }
{
    x.number != 0
}

// Whether the place y may stand right behind the place x.
#[tactic(auto, unfolding(model::specs::Arrival::may_arrive, model::specs::Blocks::is_held))]
fn may_arrive(x: Declaration, y: Declaration) -> bool
    ensures { result ≡ may_arrive (λ z. z.number) x y }
{
    !is_held(y) || (is_held(x) && x.number < y.number)
}

// Each place may be followed by the next one.
pub fn is_in_arrival(rows: &[Declaration]) -> bool
    ensures { result ≡ in_arrival (λ x. x.number) rows.now }
{
    for i in 1..rows.len() {
        if !may_arrive(rows[i - 1], rows[i]) {
            return false;
        }
    }
    true
}

// None is held before 9:15 or from 15:30 on. In order of arrival one is held where the first place is taken.
pub fn fits_hours(time: u64, rows: &[Declaration]) -> bool
    requires in_bounds { 1 ≤ length rows.now }
    requires rows_value { in_arrival (λ x. x.number) rows.now ≡ true }
    ensures { result ≡ (between 33_300 55_799 time || not (any is_held rows.now)) }
{
    is_between(33_300, 55_799, time) || !is_held(rows[0])
}
