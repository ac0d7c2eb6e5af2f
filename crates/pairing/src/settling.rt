// The book after an auction: the shares that traded come off the front of either side.
ghost use Rattle.std.specs.Prelude.{◌≡◌, ℕ, length, ◌++◌};
ghost use Rattle.model.specs.Book.{queue, arranged};
ghost use Rattle.model.specs.Matching.{settle};
ghost use Rattle.model.specs.Auction.{volume};
ghost use Rattle.model.specs.Pairing.{trades_at};
ghost use Rattle.book.specs.Standing.{Ranked};
ghost use Rattle.book.specs.Settling.{off_front, placed};

use book::settling::off_both;
use model::Order;

// So many shares off the front of either side: settled by the trades at any price at which so many trade.
pub fn settle_auction(rows: &mut [Order], shares: u64)
    requires { Ranked rows.old }
    ensures rows_after { rows.new ≡ placed (length rows.old) (off_front shares (queue 0 rows.old) ++ off_front shares (queue 1 rows.old)) }
    ensures by_index { (p : ℕ) → volume rows.old p ≡ shares → rows.new ≡ arranged (length rows.old) (settle (trades_at p rows.old) rows.old) }
{
    off_both(rows, shares);
}
