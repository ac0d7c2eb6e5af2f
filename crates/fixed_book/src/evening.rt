// The fixed-price book by the clock: its hours, what may rest from 15:05 on, and its sums.
ghost use Rattle.std.specs.Prelude.{◌≡◌, true, not, ◌&&◌, ◌||◌, ◌+◌, ◌*◌, ◌≤◌, leb, ltb, eqb};
ghost use Rattle.model.specs.Lists.{any};
ghost use Rattle.model.specs.Clock.{matching_from};
ghost use Rattle.model.specs.Book.{stands_on};
ghost use Rattle.model.specs.Figures.{close_price};
ghost use Rattle.model.specs.Sound.{between, fixed_fits};
ghost use Rattle.model.specs.SoundFixed.{one_sided};
ghost use Rattle.model.specs.FixedBook.{is_void};

use crate::walking::{is_void, stands_on};
use figures::reference_of;
use limits::places::is_between;
use model::{Day, MATCHING_FROM, MOST_SHARES, Order};

// Shares rest from 9:15 up to 15:30 only.
pub fn fits_hours(time: u64, resting: u64) -> bool
    ensures { result ≡ (between 33_300 55_799 time || eqb resting 0) }
{
    is_between(33_300, 55_799, time) || resting == 0
}

// Whether an order of the side rests.
pub fn has_side(rows: &[Order], side: u64) -> bool
    ensures { result ≡ any (stands_on side) rows.now }
{
    rows.iter().any(|o| stands_on(side, *o))
}

// Whether a void order rests.
fn has_void(rows: &[Order], close: u64) -> bool
    ensures { result ≡ any (is_void close) rows.now }
{
    rows.iter().any(|o| is_void(close, *o))
}

#[tactic(auto, unfolding(model::specs::SoundFixed::one_sided))]
fn is_one_sided(rows: &[Order]) -> bool
    ensures { result ≡ one_sided rows.now }
{
    !has_side(rows, 0) || !has_side(rows, 1)
}

// From 15:05 on one side rests at most, and no void order.
pub fn rests_after_matching(d: Day, rows: &[Order]) -> bool
    ensures { result ≡ (ltb d.time matching_from || (one_sided rows.now && not (any (is_void (close_price d)) rows.now))) }
{
    d.time < MATCHING_FROM || (is_one_sided(rows) && !has_void(rows, reference_of(d)))
}

// Twice the shares traded plus all resting shares is at most 1,000,000 times the numbers issued.
pub fn sums_fit(d: Day, resting: u64) -> bool
    requires d_value { fixed_fits d ≡ true }
    requires resting_bound { resting ≤ 4_096_000_000 }
    ensures { result ≡ leb (2 * d.fixed.shares + resting) (1_000_000 * d.fixed.issued) }
{
    2 * d.fixed.shares + resting <= MOST_SHARES * d.fixed.issued
}
