// What priority grants each order: along a book in order, the orders of a side get what they have until the volume is used up.
ghost use Rattle.std.specs.Prelude.{◌≡◌, length};
ghost use Rattle.judging.specs.Slates.{grant_of, volumes_past, grants_by};

use crate::Volumes;
use model::Order;

// A free place gets nothing.
#[tactic(auto, unfolding(crate::specs::Slates::grant_of, crate::specs::Slates::volume_of, model::specs::Book::is_live))]
fn grant_of(v: Volumes, o: Order) -> u64
    ensures { result ≡ grant_of v o }
{
    if o.number == 0 {
        0
    } else if o.side == 0 {
        v.buys.min(o.left)
    } else {
        v.sells.min(o.left)
    }
}

// What is left of the volume behind an order.
#[tactic(auto, unfolding(crate::specs::Slates::volumes_past, model::specs::Book::is_live))]
fn volumes_past(v: Volumes, o: Order) -> Volumes
    ensures { result ≡ volumes_past v o }
{
    if o.number == 0 {
        v
    } else if o.side == 0 {
        Volumes {
            buys: v.buys.saturating_sub(o.left),
            ..v
        }
    } else {
        Volumes {
            sells: v.sells.saturating_sub(o.left),
            ..v
        }
    }
}

// The slate at the start: the grant of each place.
pub fn grant_rows(rows: &[Order], slate: &mut [u64], shares: u64)
    requires { length slate.old ≡ length rows.now }
    ensures { slate.new ≡ grants_by (record { buys = shares; sells = shares }) rows.now }
{
    let mut v = Volumes {
        buys: shares,
        sells: shares,
    };
    for (i, o) in rows.iter().enumerate() {
        slate[i] = grant_of(v, *o);
        v = volumes_past(v, *o);
    }
}
