// The auction report: price, volume and signed surplus.
ghost use Rattle.std.specs.Prelude.{◌≡◌, ◌≤◌};
ghost use Rattle.std.proofs.Math.IntN.{sub_ℕ};
ghost use Rattle.model.specs.AuctionCalls.{report_at};
ghost use Rattle.book.specs.Standing.{Ranked};

use crate::depth::interest_at;
use model::{Order, ReportReply};

// Demand minus supply.
pub fn surplus_of(demand: u64, supply: u64) -> i64
    requires { (demand ≤ 4_096_000_000) × (supply ≤ 4_096_000_000) }
    ensures { result ≡ sub_ℕ demand supply }
{
    (demand as i64) - (supply as i64)
}

// The report at the price that the auction would have; all zero at 0, where nothing qualifies.
pub fn report_at(rows: &[Order], price: u64) -> ReportReply
    requires { Ranked rows.now }
    ensures { result ≡ report_at price rows.now }
{
    if price == 0 {
        return ReportReply::Priced {
            price: 0,
            volume: 0,
            surplus: 0,
        };
    }
    let both = interest_at(rows, price, price);
    let volume = both.demand.min(both.supply);
    let surplus = surplus_of(both.demand, both.supply);
    ReportReply::Priced {
        price,
        volume,
        surplus,
    }
}
