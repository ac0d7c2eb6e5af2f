// What a declaration is refused for before those held are looked at: the number of the first rule that holds, or 0.
ghost use Rattle.std.specs.Prelude.{◌≡◌, true, ◌||◌, eqb};
ghost use Rattle.model.specs.Clock.{long_hours};
ghost use Rattle.model.specs.Limits.{is_price};
ghost use Rattle.model.specs.Refusals.{first_of};
ghost use Rattle.block_entries.specs.Rules.{asked_rules};

use held::forms::is_block;
use limits::{in_band, is_price};
use model::{AskedBlock, DAY_END, Day};

// 9:15 to 11:30 and 13:00 to 15:30.
#[tactic(auto, unfolding(model::specs::Clock::long_hours))]
fn is_long_hours(time: u64) -> bool
    ensures { result ≡ long_hours time }
{
    (33_300 <= time && time < 41_400) || (46_800 <= time && time < DAY_END)
}

fn lacks_account(a: AskedBlock) -> bool
    ensures { result ≡ (eqb a.account 0 || eqb a.counter 0) }
{
    a.account == 0 || a.counter == 0
}

// 2: no such side. 3: an account 0. 21: outside the hours. 23: an unlimited day. 7: the price. 22: the size. 8: the band.
pub fn asked_refusal(d: Day, a: AskedBlock) -> u64
    requires { is_price d.close ≡ true }
    ensures { result ≡ first_of (asked_rules d a) }
{
    if a.side > 1 {
        return 2;
    }
    if lacks_account(a) {
        return 3;
    }
    if !is_long_hours(d.time) {
        return 21;
    }
    if d.limited == 0 {
        return 23;
    }
    if !is_price(a.price) {
        return 7;
    }
    if !is_block(a.price, a.quantity) {
        return 22;
    }
    if !in_band(d.close, a.price) {
        return 8;
    }
    0
}
