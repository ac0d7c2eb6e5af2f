// The book after the trades of an order that came in: what was filled comes off the front of the other side.
ghost use Rattle.std.specs.Prelude.{◌≡◌, List, length};
ghost use Rattle.model.specs.declared.Trade.{Trade};
ghost use Rattle.model.specs.Book.{arranged};
ghost use Rattle.model.specs.Matching.{settle, filled};
ghost use Rattle.book.specs.Standing.{Ranked};
ghost use Rattle.book.specs.Settling.{placed};
ghost use Rattle.matching.specs.Settling.{SweptBy, off_other};

use book::settling::{off_buys, off_sells};
use model::Order;

// So many shares off the front of the other side: settled by the trades of an order of this side that filled so many.
pub fn settle_entry(rows: &mut [Order], side: u64, shares: u64)
    requires { Ranked rows.old }
    ensures rows_after { rows.new ≡ placed (length rows.old) (off_other side shares rows.old) }
    ensures rows_after_2 { (ts : List Trade) → SweptBy side ts rows.old → filled ts ≡ shares → rows.new ≡ arranged (length rows.old) (settle ts rows.old) }
{
    if side == 0 {
        off_sells(rows, shares);
    } else {
        off_buys(rows, shares);
    }
}
