// Demand and supply at a price: one pass over the book.
ghost use Rattle.std.specs.Prelude.{◌≡◌};
ghost use Rattle.model.specs.Auction.{volume};
ghost use Rattle.book.specs.Standing.{Ranked};
ghost use Rattle.auction.specs.Interest.{brings, interest_at};

use crate::Interest;
use model::Order;

// The shares that an order brings to a side at price p.
#[tactic(auto, unfolding(crate::specs::Interest::brings, crate::specs::Interest::trades_for, model::specs::Book::stands_on, model::specs::Book::is_live, model::specs::Matching::meets))]
fn shares_at(o: Order, side: u64, p: u64) -> u64
    ensures { result ≡ brings side p o }
{
    let reaches = if side == 0 {
        p <= o.price
    } else {
        o.price <= p
    };
    if o.number != 0 && o.side == side && reaches {
        o.left
    } else {
        0
    }
}

// All buys at `least` or above, and all sells at `most` or below.
pub fn interest_at(rows: &[Order], least: u64, most: u64) -> Interest
    requires { Ranked rows.now }
    ensures { result ≡ interest_at rows.now least most }
{
    let mut demand: u64 = 0;
    let mut supply: u64 = 0;
    for o in rows {
        demand += shares_at(*o, 0, least);
        supply += shares_at(*o, 1, most);
    }
    Interest { demand, supply }
}

// What can trade at p: the smaller of the two.
pub fn volume_at(rows: &[Order], p: u64) -> u64
    requires { Ranked rows.now }
    ensures { result ≡ volume rows.now p }
{
    let both = interest_at(rows, p, p);
    both.demand.min(both.supply)
}
