// Who trades with whom in an auction: both sides stand in priority, and the two heads trade the smaller remainder, over and over.
// The book stays as it is until it is settled.
#![tactic(auto)]

pub mod settling;

ghost use Rattle.std.specs.Prelude.{◌≡◌, length};
ghost use Rattle.model.specs.Auction.{volume};
ghost use Rattle.model.specs.Pairing.{trades_at};
ghost use Rattle.book.specs.Standing.{Ranked};
ghost use Rattle.book.specs.Writing.{fitted};
ghost use Rattle.pairing.specs.Dealing.{share_of, dealt, LeavesBoth};

use book::heads::{head_at, head_past};
use book::seats::{free_from, sells_from};
use book::{Head, put_trade};
use model::{Order, Trade};

// The trade of the two heads while so many shares of the volume are left. What it leaves is of the whole orders, not of the parts that
// the volume grants them.
fn trade_of_heads(buy: Head, sell: Head, left: u64, price: u64) -> Trade
    ensures value { result ≡ dealt price (share_of left buy) (share_of left sell) }
    ensures leaves_both { LeavesBoth buy sell result }
{
    let granted = left.min(buy.left);
    let quantity = granted.min(sell.left);
    Trade {
        price,
        quantity,
        buyer: buy.number,
        seller: sell.number,
        buyerleft: buy.left - quantity,
        sellerleft: sell.left - quantity,
    }
}

// The trades of an auction at a price at which so many shares trade: all are counted, and as many are written as the list holds.
pub fn pair_at(rows: &[Order], trades: &mut [Trade], price: u64, shares: u64) -> usize
    requires ranked { Ranked rows.now }
    requires shares_value { shares ≡ volume rows.now price }
    ensures value { result ≡ length (trades_at price rows.now) }
    ensures trades_after { trades.new ≡ fitted (trades_at price rows.now) trades.old }
{
    let middle = sells_from(rows);
    let end = free_from(rows);
    let mut left = shares;
    let mut buy = head_at(rows, 0, middle);
    let mut sell = head_at(rows, middle, end);
    let mut made = 0;
    // No index is counted: each turn moves both heads on by what they trade.
    while 0 < left {
        let trade = trade_of_heads(buy, sell, left, price);
        put_trade(trades, made, trade);
        made += 1;
        buy = head_past(rows, middle, buy, trade.quantity);
        sell = head_past(rows, end, sell, trade.quantity);
        left -= trade.quantity;
    }
    made
}
