// An order on its way through the other side: price after price, and at each price order after order. The book stays as it is.
ghost use Rattle.std.specs.Prelude.{◌≡◌, ◌+◌, ◌<◌, ◌^◌, []};
ghost use Rattle.model.specs.Matching as matching;
ghost use Rattle.book.specs.Standing.{Ranked};
ghost use Rattle.book.specs.Writing.{fitted};
ghost use Rattle.matching.specs.Sweeping as sweeping;
ghost use Rattle.matching.specs.Sweeping.{swept, comes_to, one_price, one_trade};

use crate::Swept;
use book::places::other_side;
use book::put_trade;
use book::seats::places_of;
use model::{Order, Taker, Trade};

// A price that a buy with this limit may pay, or a sell take.
#[tactic(auto, unfolding(model::specs::Matching::meets))]
pub fn meets(side: u64, limit: u64, price: u64) -> bool
    ensures { result ≡ matching.meets side limit price }
{
    if side == 0 {
        price <= limit
    } else {
        limit <= price
    }
}

// A taker that wants `left` more trades at this price.
#[tactic(auto, unfolding(crate::specs::Sweeping::wants))]
fn wants(t: Taker, left: u64, price: u64) -> bool
    ensures { result ≡ sweeping.wants t left price }
{
    0 < left && meets(t.side, t.limit, price)
}

// The trade with a partner, at the partner's price, and what it leaves of both.
#[tactic(auto, unfolding(model::specs::Matching::trade_with))]
fn trade_with(t: Taker, left: u64, o: Order) -> Trade
    ensures { result ≡ matching.trade_with t left o }
{
    let quantity = left.min(o.left);
    let wanted = left - quantity;
    let rest = o.left - quantity;
    if t.side == 0 {
        Trade {
            price: o.price,
            quantity,
            buyer: t.number,
            seller: o.number,
            buyerleft: wanted,
            sellerleft: rest,
        }
    } else {
        Trade {
            price: o.price,
            quantity,
            buyer: o.number,
            seller: t.number,
            buyerleft: rest,
            sellerleft: wanted,
        }
    }
}

// Before the first trade.
#[tactic(auto, using(crate::proofs::Tallies::nothing_yet))]
pub fn nothing_yet() -> Swept
    ensures { result ≡ comes_to [] }
{
    Swept {
        trades: 0,
        filled: 0,
        levels: 0,
        last: 0,
    }
}

// One price more.
#[tactic(auto, unfolding(crate::specs::Sweeping::one_price))]
fn with_price(s: Swept, price: u64) -> Swept
    requires { s.levels + 1 < 2 ^ 64 }
    ensures { result ≡ one_price s price }
{
    Swept {
        levels: s.levels + 1,
        last: price,
        ..s
    }
}

// One trade more, at the last price.
#[tactic(auto, unfolding(crate::specs::Sweeping::one_trade))]
fn with_trade(s: Swept, t: Trade) -> Swept
    requires trades_bound { s.trades + 1 < 2 ^ 64 }
    requires quantity_bound { s.filled + t.quantity < 2 ^ 64 }
    ensures { result ≡ one_trade s t }
{
    Swept {
        trades: s.trades + 1,
        filled: s.filled + t.quantity,
        ..s
    }
}

// The trades of a taker with the `most` best prices of the other side. All are counted; a list that is too short gets the first.
// Two labelled loops, left from inside: the project's paper names this form.
pub fn sweep(rows: &[Order], trades: &mut [Trade], t: Taker, quantity: u64, most: u64) -> Swept
    requires { Ranked rows.now }
    ensures value { result ≡ comes_to (swept t most quantity rows.now) }
    ensures trades_after { trades.new ≡ fitted (swept t most quantity rows.now) trades.old }
{
    let line = places_of(rows, other_side(t.side));
    let end = line.to;
    let mut at = line.from;
    let mut left = quantity;
    let mut s = nothing_yet();
    'prices: while at < end {
        let price = rows[at].price;
        if most <= s.levels || !wants(t, left, price) {
            break 'prices;
        }
        s = with_price(s, price);
        'orders: while at < end {
            let order = rows[at];
            if order.price != price {
                break 'orders;
            }
            if !wants(t, left, price) {
                break 'prices;
            }
            let trade = trade_with(t, left, order);
            put_trade(trades, s.trades, trade);
            s = with_trade(s, trade);
            left -= trade.quantity;
            at += 1;
        }
    }
    s
}
