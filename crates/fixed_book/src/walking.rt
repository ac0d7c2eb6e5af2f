// The order of a side that trades next at the close, as the matching goes along the line; void orders are passed over.
ghost use Rattle.std.specs.Prelude.{◌≡◌, ◌+◌, ◌≤◌, ◌<◌, min, length};
ghost use Rattle.model.specs.Book.{stands_on};
ghost use Rattle.model.specs.FixedBook.{wrong_side, is_void};
ghost use Rattle.model.specs.Pairing.{head_less};
ghost use Rattle.pairing.specs.Dealing.{dealt};
ghost use Rattle.fixed_book.specs.Ready.{Lined};
ghost use Rattle.fixed_book.specs.Heads.{may_trade, head_share, shares_from, HeadOf};

use book::Head;
use book::places::is_live;
use model::{Order, Trade};

// A buy limit below the close, or a sell limit above it.
#[tactic(auto, unfolding(model::specs::FixedBook::wrong_side))]
pub fn wrong_side(side: u64, limit: u64, close: u64) -> bool
    ensures { result ≡ wrong_side side limit close }
{
    if side == 0 {
        limit < close
    } else {
        close < limit
    }
}

#[tactic(auto, unfolding(model::specs::FixedBook::is_void))]
pub fn is_void(close: u64, o: Order) -> bool
    ensures { result ≡ is_void close o }
{
    is_live(o) && wrong_side(o.side, o.price, close)
}

#[tactic(auto, unfolding(model::specs::Book::stands_on))]
pub fn stands_on(side: u64, o: Order) -> bool
    ensures { result ≡ stands_on side o }
{
    is_live(o) && o.side == side
}

// An order of the side that is not void.
#[tactic(auto, unfolding(crate::specs::Heads::may_trade))]
fn may_trade(close: u64, side: u64, o: Order) -> bool
    ensures { result ≡ may_trade close side o }
{
    !is_void(close, o) && stands_on(side, o)
}

// The first such order from a place on.
pub fn head_from(rows: &[Order], from: usize, side: u64, close: u64) -> Head
    requires lined { Lined rows.now }
    requires from_in_bounds { from ≤ length rows.now }
    ensures { HeadOf close side rows.now (shares_from close side from rows.now) result }
{
    for at in from..rows.len() {
        let o = rows[at];
        if may_trade(close, side, o) {
            return Head {
                at,
                number: o.number,
                price: o.price,
                left: o.left,
            };
        }
    }
    Head {
        at: rows.len(),
        number: 0,
        price: 0,
        left: 0,
    }
}

// The head when q of it have traded: itself while something is left, else the next.
pub fn head_past(rows: &[Order], side: u64, close: u64, h: Head, q: u64) -> Head
    requires lined { Lined rows.now }
    requires at_in_bounds { h.at < length rows.now }
    ensures { HeadOf close side rows.now (head_less q (head_share h) (shares_from close side (h.at + 1) rows.now)) result }
{
    if q < h.left {
        return Head {
            left: h.left - q,
            ..h
        };
    }
    head_from(rows, h.at + 1, side, close)
}

// The trade of the two heads, of the smaller remainder, at the close.
#[tactic(auto, unfolding(pairing::specs::Dealing::dealt))]
pub fn trade_at_close(buy: Head, sell: Head, quantity: u64, close: u64) -> Trade
    requires { quantity ≡ min buy.left sell.left }
    ensures { result ≡ dealt close (head_share buy) (head_share sell) }
{
    Trade {
        price: close,
        quantity,
        buyer: buy.number,
        seller: sell.number,
        buyerleft: buy.left - quantity,
        sellerleft: sell.left - quantity,
    }
}
