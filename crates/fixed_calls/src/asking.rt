// What a fixed-price order is refused for before the book is looked at: the number of the first rule that holds, or 0.
ghost use Rattle.std.specs.Prelude.{◌≡◌, true, not, ◌&&◌, leb, eqb};
ghost use Rattle.model.specs.Clock.{long_hours, matching_from};
ghost use Rattle.model.specs.Limits.{is_price, in_band};
ghost use Rattle.model.specs.Figures.{close_price};
ghost use Rattle.model.specs.FixedBook.{wrong_side};
ghost use Rattle.model.specs.Refusals.{first_of};
ghost use Rattle.fixed_calls.specs.Rules.{asked_rules};

use figures::reference_of;
use fixed_book::walking::wrong_side;
use limits::{in_band, is_price, is_quantity};
use model::{AskedFixed, DAY_END, Day, MATCHING_FROM};

// From 9:15 to 11:30 and from 13:00 to 15:30.
pub fn long_hours(time: u64) -> bool
    ensures { result ≡ long_hours time }
{
    if time < 33_300 {
        return false;
    }
    if time < 41_400 {
        return true;
    }
    if time < 46_800 {
        return false;
    }
    time < DAY_END
}

// Outside the band, on limited days.
fn out_of_band(d: Day, price: u64) -> bool
    requires close_value { is_price d.close ≡ true }
    requires price_value { is_price price ≡ true }
    ensures { result ≡ (eqb d.limited 1 && not (in_band d.close price)) }
{
    if d.limited != 1 {
        return false;
    }
    !in_band(d.close, price)
}

// From 15:05 on, a limit on the wrong side of the close.
fn misses_close(d: Day, side: u64, price: u64) -> bool
    ensures { result ≡ (leb matching_from d.time && wrong_side side price (close_price d)) }
{
    if d.time < MATCHING_FROM {
        return false;
    }
    wrong_side(side, price, reference_of(d))
}

// 2: no such side. 3: account 0. 19: outside the hours. 6, 7, 8: quantity, price and band, as of the main book. 20: from 15:05 on, a limit
// that does not meet the close.
pub fn asked_refusal(d: Day, a: AskedFixed) -> u64
    requires { is_price d.close ≡ true }
    ensures { result ≡ first_of (asked_rules d a) }
{
    if 1 < a.side {
        return 2;
    }
    if a.account == 0 {
        return 3;
    }
    if !long_hours(d.time) {
        return 19;
    }
    if !is_quantity(a.side, a.quantity, a.balance) {
        return 6;
    }
    if !is_price(a.price) {
        return 7;
    }
    if out_of_band(d, a.price) {
        return 8;
    }
    if misses_close(d, a.side, a.price) {
        return 20;
    }
    0
}
