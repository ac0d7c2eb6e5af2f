// The places of the fixed-price book: what stands at each, and that they are in order of arrival.
ghost use Rattle.std.specs.Prelude.{◌≡◌, true, ◌||◌};
ghost use Rattle.model.specs.Lists.{all};
ghost use Rattle.model.specs.Limits.{is_price};
ghost use Rattle.model.specs.Sound.{is_free, is_order_of};
ghost use Rattle.model.specs.Arrival.{may_arrive, in_arrival};

use book::places::is_live;
use model::{Day, Order};
use soundness::places::place_is_sound;

// Each place is free or has an order.
pub fn sound_places(d: Day, rows: &[Order]) -> bool
    requires { is_price d.close ≡ true }
    ensures { result ≡ all (λ o. is_free o || is_order_of d d.fixed.issued o) rows.now }
{
    rows.iter().all(|o| place_is_sound(d, d.fixed.issued, *o))
}

// Whether the place b may stand right behind the place a: it is free, or its order came later.
#[tactic(auto, unfolding(model::specs::Arrival::may_arrive, model::specs::Arrival::is_taken, model::specs::Book::is_live))]
fn may_arrive(a: Order, b: Order) -> bool
    ensures { result ≡ may_arrive (λ o. o.number) a b }
{
    !is_live(b) || (is_live(a) && a.number < b.number)
}

// Each place may be followed by the next one.
pub fn is_in_arrival(rows: &[Order]) -> bool
    ensures { result ≡ in_arrival (λ o. o.number) rows.now }
{
    for i in 1..rows.len() {
        if !may_arrive(rows[i - 1], rows[i]) {
            return false;
        }
    }
    true
}
