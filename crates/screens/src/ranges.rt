// High and low with the trades of an event.
ghost use Rattle.std.specs.Prelude.{◌≡◌, ◌≤◌, length, take};
ghost use Rattle.screens.specs.Ranges.{widened, range_of, range_with};

use crate::Range;
use model::{Screen, Trade};

// The range with a price more.
#[tactic(auto, unfolding(crate::specs::Ranges::widened))]
fn widen(range: Range, price: u64) -> Range
    ensures { result ≡ widened range price }
{
    Range {
        high: range.high.max(price),
        low: range.low.min(price),
    }
}

// The range with these trades.
fn range_of(trades: &[Trade], start: Range) -> Range
    ensures { result ≡ range_of trades.now start }
{
    let mut range = start;
    for t in trades {
        range = widen(range, t.price);
    }
    range
}

// A screen's high and low with the first n trades of the list: where nothing had traded the first of them begins both.
pub fn range_with(screen: Screen, trades: &[Trade], n: usize) -> Range
    requires { n ≤ length trades.now }
    ensures { result ≡ range_with (take n trades.now) screen }
{
    let made = &trades[..n];
    if screen.last != 0 {
        let old = Range {
            high: screen.high,
            low: screen.low,
        };
        return range_of(made, old);
    }
    if n == 0 {
        return Range { high: 0, low: 0 };
    }
    let price = made[0].price;
    let begun = Range {
        high: price,
        low: price,
    };
    range_of(made, begun)
}
