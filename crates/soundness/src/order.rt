// The order of the places: buys from best to worst, then sells the same, free places last.
ghost use Rattle.std.specs.Prelude.{◌≡◌};
ghost use Rattle.model.specs.Book.{ahead, may_follow, in_order};

use book::places::is_live;
use model::Order;

// The better price is ahead, then the lower number.
#[tactic(auto, unfolding(model::specs::Book::ahead, model::specs::Book::better))]
fn is_ahead(side: u64, a: Order, b: Order) -> bool
    ensures { result ≡ ahead side a b }
{
    if a.price == b.price {
        a.number < b.number
    } else if side == 0 {
        b.price < a.price
    } else {
        a.price < b.price
    }
}

// Whether the place b may stand right behind the place a.
#[tactic(auto, unfolding(model::specs::Book::may_follow))]
fn may_follow(a: Order, b: Order) -> bool
    ensures { result ≡ may_follow a b }
{
    if !is_live(b) {
        true
    } else if !is_live(a) {
        false
    } else if a.side == b.side {
        is_ahead(a.side, a, b)
    } else {
        a.side == 0
    }
}

// Each place may be followed by the next one.
pub fn is_in_order(rows: &[Order]) -> bool
    ensures { result ≡ in_order rows.now }
{
    for i in 1..rows.len() {
        if !may_follow(rows[i - 1], rows[i]) {
            return false;
        }
    }
    true
}
