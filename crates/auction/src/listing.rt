// The price list: the qualifying prices from an asked price upward. There is no gap in them, so that a run says which are written.
ghost use Rattle.std.specs.Prelude.{◌≡◌, ◌++◌, ◌+◌, ◌-◌, ◌≤◌, length, drop};
ghost use Rattle.model.specs.Lists.{from};
ghost use Rattle.model.specs.AuctionCalls.{due};
ghost use Rattle.book.specs.Standing.{Ranked};
ghost use Rattle.auction.specs.Fitting.{run_within};

use crate::ends::span_of;
use crate::{Run, Span};
use model::Order;

// The prices from the first to hi, as many as there are places for.
fn run_between(first: u64, hi: u64, places: usize) -> Run
    requires { (first ≤ hi) × (hi ≤ 999_999) }
    ensures { result ≡ run_within places (from first (hi + 1 - first)) }
{
    let due = (hi + 1 - first) as usize;
    if due <= places {
        return Run {
            first,
            count: due,
            next: 0,
        };
    }
    Run {
        first,
        count: places,
        next: first + (places as u64),
    }
}

// Which prices a list of so many places is given.
pub fn run_of(rows: &[Order], places: usize, asked: u64) -> Run
    requires { Ranked rows.now }
    ensures { result ≡ run_within places (due asked rows.now) }
{
    let Span { lo, hi } = span_of(rows);
    if lo == 0 || hi < asked {
        return Run {
            first: 0,
            count: 0,
            next: 0,
        };
    }
    run_between(lo.max(asked), hi, places)
}

// Writes the prices of a run to the list's front; the rest of it stays.
pub fn write_run(prices: &mut [u64], run: Run)
    requires { (run.count ≤ length prices.old) × (run.first + run.count ≤ 1_000_000) }
    ensures { prices.new ≡ from run.first run.count ++ drop run.count prices.old }
{
    for i in 0..run.count {
        prices[i] = run.first + (i as u64);
    }
}
