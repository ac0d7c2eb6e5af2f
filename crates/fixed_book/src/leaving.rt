// What the close leaves of the line: void orders are gone, and shares come off the first orders of either side. Each order is looked at
// once, and who is gone leaves its place free.
ghost use Rattle.std.specs.Prelude.{◌≡◌, ◌+◌, ◌-◌, ◌^◌, ◌<◌};
ghost use Rattle.model.specs.Auction.{shares_of};
ghost use Rattle.model.specs.FixedBook.{is_void};
ghost use Rattle.fixed_book.specs.Ready.{Lined};
ghost use Rattle.fixed_book.specs.Leaving.{owed_by, left_of, owed_behind, left_over};

use crate::Owed;
use crate::walking::is_void;
use book::places::free_place;
use model::Order;

// What is still to come off a side.
#[tactic(auto, unfolding(crate::specs::Leaving::owed_by))]
fn owed_by(w: Owed, side: u64) -> u64
    ensures { result ≡ owed_by w side }
{
    if side == 0 { w.buys } else { w.sells }
}

// What is left of an order when so much is still to come off either side.
#[tactic(auto, unfolding(crate::specs::Leaving::left_of, model::specs::Matching::less_by))]
fn left_of(close: u64, w: Owed, o: Order) -> Order
    ensures { result ≡ left_of close w o }
{
    if is_void(close, o) {
        return free_place();
    }
    let owed = owed_by(w, o.side);
    if o.left <= owed {
        free_place()
    } else {
        Order {
            left: o.left - owed,
            ..o
        }
    }
}

// What is still to come off those behind the order, and the void shares with it.
#[tactic(auto, unfolding(crate::specs::Leaving::owed_behind))]
fn owed_behind(close: u64, w: Owed, o: Order) -> Owed
    requires { w.void + o.left < 2 ^ 64 }
    ensures { result ≡ owed_behind close w o }
{
    if is_void(close, o) {
        Owed {
            void: w.void + o.left,
            ..w
        }
    } else if o.side == 0 {
        Owed {
            buys: w.buys.saturating_sub(o.left),
            ..w
        }
    } else {
        Owed {
            sells: w.sells.saturating_sub(o.left),
            ..w
        }
    }
}

// The whole line; the void shares.
pub fn take_off(rows: &mut [Order], close: u64, shares: u64) -> u64
    requires { Lined rows.old }
    ensures value { result ≡ shares_of (is_void close) rows.old }
    ensures rows_after { rows.new ≡ left_over close shares shares rows.old }
{
    let mut owed = Owed {
        buys: shares,
        sells: shares,
        void: 0,
    };
    for o in rows.iter_mut() {
        let was = *o;
        *o = left_of(close, owed, was);
        owed = owed_behind(close, owed, was);
    }
    owed.void
}
