// What the auction would come to: price, volume and signed surplus, from one walk along both sides.
ghost use Rattle.std.specs.Prelude.{◌≡◌, get_or};
ghost use Rattle.model.specs.Auction.{left_by};
ghost use Rattle.book.specs.Standing.{Ranked};
ghost use Rattle.auction.specs.Fixings.{fixing_at};

use crate::Fixing;
use crate::price::{left_at, price_at};
use crate::report::surplus_of;
use crate::walk::walk;
use book::seats::{free_from, sells_from};
use model::Order;

// Zeros where no price qualifies.
pub fn fixing_of(rows: &[Order], reference: u64) -> Fixing
    requires { Ranked rows.now }
    ensures { result ≡ fixing_at (get_or (left_by rows.now reference) 0 0) rows.now }
{
    let middle = sells_from(rows);
    let end = free_from(rows);
    let stop = walk(rows, middle, end);
    let price = price_at(rows, middle, end, stop, reference);
    if price == 0 {
        return Fixing {
            price: 0,
            volume: 0,
            surplus: 0,
        };
    }
    // what has traded is the volume; the surplus is what is left of the buys, less what is left of the sells
    let buys = left_at(rows, middle, stop.buy, price);
    let sells = left_at(rows, end, stop.sell, price);
    Fixing {
        price,
        volume: stop.crossed.shares,
        surplus: surplus_of(buys, sells),
    }
}
