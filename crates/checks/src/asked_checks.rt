// What an order is refused for before the book is looked at: the number of the first rule that holds, or 0.
ghost use Rattle.std.specs.Prelude.{◌≡◌, true};
ghost use Rattle.model.specs.Clock.{takes_orders};
ghost use Rattle.model.specs.Halts.{phase_now};
ghost use Rattle.model.specs.Limits.{is_price};
ghost use Rattle.model.specs.Refusals.{first_of};
ghost use Rattle.checks.specs.Checks.{form_rules, hour_rules, number_rules, asked_rules};

use limits::{in_band, is_price, is_quantity};
use model::{Asked, CONTINUOUS, Day};

// 2: no such side or kind. 3: account 0.
#[tactic(auto, using(crate::proofs::AskedRules::form_side, crate::proofs::AskedRules::form_kind, crate::proofs::AskedRules::form_account, crate::proofs::AskedRules::form_none))]
fn form_refusal(a: Asked) -> u64
    ensures { result ≡ first_of (form_rules a) }
{
    if 1 < a.side || 4 < a.kind {
        return 2;
    }
    if a.account == 0 {
        return 3;
    }
    0
}

// 4: the phase takes no order. 5: a market order outside continuous trading or on an unlimited day.
fn hour_refusal(d: Day, a: Asked, takes: bool, phase: u64) -> u64
    requires takes_value { takes ≡ takes_orders d.time }
    requires phase_value { phase ≡ phase_now d }
    ensures { result ≡ first_of (hour_rules d a) }
{
    if !takes {
        return 4;
    }
    if a.kind != 0 && (phase != CONTINUOUS || d.limited == 0) {
        return 5;
    }
    0
}

// 6: the quantity, with the balance. 7: the price. 8: the band, on limited days.
fn number_refusal(d: Day, a: Asked) -> u64
    requires { is_price d.close ≡ true }
    ensures { result ≡ first_of (number_rules d a) }
{
    if !is_quantity(a.side, a.quantity, a.balance) {
        return 6;
    }
    if !is_price(a.price) {
        return 7;
    }
    if d.limited == 1 && !in_band(d.close, a.price) {
        return 8;
    }
    0
}

// The first of these. Whether the clock takes orders, and the day's phase, are handed in.
pub fn asked_refusal(d: Day, a: Asked, takes: bool, phase: u64) -> u64
    requires close_value { is_price d.close ≡ true }
    requires takes_value { takes ≡ takes_orders d.time }
    requires phase_value { phase ≡ phase_now d }
    ensures { result ≡ first_of (asked_rules d a) }
{
    let form = form_refusal(a);
    if form != 0 {
        return form;
    }
    let hour = hour_refusal(d, a, takes, phase);
    if hour != 0 {
        return hour;
    }
    number_refusal(d, a)
}
