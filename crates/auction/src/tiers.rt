// The orders of a side that stand at one price, one behind the other.
ghost use Rattle.std.specs.Prelude.{◌≡◌, ◌≤◌, length};
ghost use Rattle.book.specs.Lines.{line};
ghost use Rattle.auction.specs.Tiers.{run_of, tier_from};

use crate::Tier;
use model::Order;

// The orders from a place on, up to the end of their side, for as long as they stand at price p.
pub fn run_from(rows: &[Order], from: usize, end: usize, p: u64) -> Tier
    requires end_in_bounds { end ≤ length rows.now }
    requires rows_bound { run_of p (line from end rows.now) ≤ 4_096_000_000 }
    ensures { result ≡ tier_from from p (line from end rows.now) }
{
    let mut sum: u64 = 0;
    for at in from..end {
        let o = rows[at];
        if o.price != p {
            return Tier {
                shares: sum,
                behind: at,
            };
        }
        sum += o.left;
    }
    Tier {
        shares: sum,
        behind: from.max(end),
    }
}
