// What a move of the clock will come to in the main book, before anything is written: how many trades, and the close after it. The
// places for all trades of a move are counted with it.
#![tactic(auto)]

ghost use Rattle.std.specs.Prelude.{◌≡◌, ◌≤◌};
ghost use Rattle.soundness.specs.Ready.{Ready};
ghost use Rattle.foreseen.specs.Foreseen.{foreseen};

use auction::price::auction_price;
use figures::reference_of;
use model::{Day, Order};
use moves::holding::auction_trades;
use moves::stops::next_stop;

#[derive(Clone, Copy)]
pub struct Foreseen {
    pub trades: usize,
    pub close: u64,
}

// The first auction on the way has all trades: after it no buy reaches a sell.
pub fn foresee(d: Day, rows: &[Order], time: u64) -> Foreseen
    requires ready { Ready d rows.now }
    requires time_le_time { d.time ≤ time }
    ensures { result ≡ foreseen d time rows.now }
{
    let close = reference_of(d);
    if next_stop(d.halt, d.time, time) == 0 {
        return Foreseen { trades: 0, close };
    }
    let counted = auction_trades(d, rows, &mut []);
    if counted.shares == 0 {
        return Foreseen { trades: 0, close };
    }
    Foreseen {
        trades: counted.made,
        close: auction_price(rows, close),
    }
}
