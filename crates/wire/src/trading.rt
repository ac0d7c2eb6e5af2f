// An order and a move of the clock: each writes day, book, trades and reply.
ghost use Rattle.std.specs.Prelude.{◌≡◌};
ghost use Rattle.records.specs.Layout.{returned, replied};
ghost use Rattle.wire.specs.Exports.{trade_left};
ghost use Rattle.wire.specs.Pairs.{trade_numbers, either_leaves};
ghost use Rattle.wire.specs.Promises.{ClockPromise, OrderPromise};

use byte_trades::trading::{trade_bytes, trade_refusal};
use byte_trades::{TradeAsked, TradeReply};
use model::{Asked, MOST_PLACES};
use records::buffers::put_reply;
use records::days::put_day;
use records::{DAY_BYTES, ORDER_BYTES};
use replies::{clock_numbers, order_numbers};

fn put_trade_reply(reply: &mut [u8], told: TradeReply) -> u64
    ensures { (result ≡ returned (trade_numbers told)) × (reply.new ≡ replied (trade_numbers told) reply.old) }
{
    match told {
        TradeReply::Order(r) => {
            let row = order_numbers(r);
            return put_reply(reply, &row[..]);
        }
        TradeReply::Clock(r) => {
            let row = clock_numbers(r);
            return put_reply(reply, &row[..]);
        }
    }
}

// A day of another length, and a book of more places than any may have, are never read.
fn trade(
    day: &mut [u8],
    book: &mut [u8],
    trades: &mut [u8],
    reply: &mut [u8],
    asked: TradeAsked,
) -> u64
    ensures { trade_left result day.new book.new trades.new reply.new ≡ either_leaves asked day.old book.old trades.old reply.old }
{
    if day.len() != DAY_BYTES || MOST_PLACES < book.len() / ORDER_BYTES {
        return put_trade_reply(reply, trade_refusal(asked, 15));
    }
    let answer = trade_bytes(day, book, trades, asked);
    let next = answer.day;
    let told = answer.reply;
    put_day(day, next);
    put_trade_reply(reply, told)
}

pub fn flemorix_order(
    day: &mut [u8],
    book: &mut [u8],
    trades: &mut [u8],
    reply: &mut [u8],
    side: u64,
    kind: u64,
    account: u64,
    quantity: u64,
    price: u64,
    balance: u64,
) -> u64
    ensures { OrderPromise day.old book.old trades.old reply.old (record { side = side; kind = kind; account = account; quantity = quantity; price = price; balance = balance }) result day.new book.new trades.new reply.new }
{
    let a = Asked {
        side,
        kind,
        account,
        quantity,
        price,
        balance,
    };
    trade(day, book, trades, reply, TradeAsked::Order(a))
}

pub fn flemorix_clock(
    day: &mut [u8],
    book: &mut [u8],
    trades: &mut [u8],
    reply: &mut [u8],
    time: u64,
) -> u64
    ensures { ClockPromise day.old book.old trades.old reply.old time result day.new book.new trades.new reply.new }
{
    trade(day, book, trades, reply, TradeAsked::Clock(time))
}
