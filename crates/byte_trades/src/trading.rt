// An order and a move of the clock: the two calls that trade.
ghost use Rattle.std.specs.Prelude.{◌≡◌, ◌/◌, ◌≤◌, length};
ghost use Rattle.book.specs.Promises.{call_left};
ghost use Rattle.byte_trades.specs.Trading.{trade_refusal, trade_call, Traded, trade_on};

use crate::{TradeAnswer, TradeAsked, TradeReply};
use day::events::{clock_call, order_call};
use model::{ClockReply, Day, MOST_PLACES, Order, OrderReply, Trade};
use records::days::day_in;
use records::lists::{load_book, store_book, store_trades};
use records::rooms::{FEW_PLACES, FEWEST_PLACES, order_room, trade_room};
use records::{ORDER_BYTES, TRADE_BYTES};

pub fn trade_refusal(asked: TradeAsked, n: u64) -> TradeReply
    ensures { result ≡ trade_refusal asked n }
{
    match asked {
        TradeAsked::Order(_) => TradeReply::Order(OrderReply::Refused(n)),
        TradeAsked::Clock(_) => TradeReply::Clock(ClockReply::Refused(n)),
    }
}

// The call on rows.
fn trade_rows(d: Day, rows: &mut [Order], list: &mut [Trade], asked: TradeAsked) -> TradeAnswer
    ensures { call_left result rows.new list.new ≡ trade_call d asked rows.old list.old }
{
    match asked {
        TradeAsked::Order(a) => {
            let answer = order_call(d, rows, list, a);
            TradeAnswer {
                reply: TradeReply::Order(answer.reply),
                made: answer.made,
                day: answer.day,
            }
        }
        TradeAsked::Clock(time) => {
            let answer = clock_call(d, rows, list, time);
            TradeAnswer {
                reply: TradeReply::Clock(answer.reply),
                made: answer.made,
                day: answer.day,
            }
        }
    }
}

// The bytes as rows, the call on the rows, and the rows and the trades that were made as bytes again. No event has more trades than
// the book has places, so the local list has room for all; 13, more than the lent one has room for, is the last rule, and told then.
fn trade_in(
    day: &[u8],
    book: &mut [u8],
    trades: &mut [u8],
    rows: &mut [Order],
    list: &mut [Trade],
    asked: TradeAsked,
) -> TradeAnswer
    requires day_len { length day.now ≡ 352 }
    requires rows_len { length rows.old ≡ length book.old / 40 }
    requires list_len { length list.old ≡ length book.old / 40 }
    ensures { Traded (trade_on day.now book.old trades.old asked) book.old trades.old result book.new trades.new }
{
    load_book(book, rows);
    let d = day_in(day);
    let answer = trade_rows(d, rows, list, asked);
    let made = answer.made;
    if trades.len() / TRADE_BYTES < made {
        return TradeAnswer {
            reply: trade_refusal(asked, 13),
            made: 0,
            day: d,
        };
    }
    store_book(book, rows);
    store_trades(trades, &list[..made]);
    answer
}

// In rooms of so many places. Never inlined, so that a call sets up the room that it takes, and no larger one.
#[inline(never)]
fn trade_in_room<const PLACES: usize>(
    day: &[u8],
    book: &mut [u8],
    trades: &mut [u8],
    asked: TradeAsked,
) -> TradeAnswer
    requires places_bound { PLACES ≤ 4_096 }
    requires day_len { length day.now ≡ 352 }
    requires book_len_bound { length book.old / 40 ≤ PLACES }
    ensures { Traded (trade_on day.now book.old trades.old asked) book.old trades.old result book.new trades.new }
{
    let n = book.len() / ORDER_BYTES;
    let mut rows = order_room::<PLACES>();
    let mut list = trade_room::<PLACES>();
    trade_in(day, book, trades, &mut rows[..n], &mut list[..n], asked)
}

// In rooms as small as the book allows.
pub fn trade_bytes(day: &[u8], book: &mut [u8], trades: &mut [u8], asked: TradeAsked) -> TradeAnswer
    requires day_len { length day.now ≡ 352 }
    requires book_len_bound { length book.old / 40 ≤ 4_096 }
    ensures { Traded (trade_on day.now book.old trades.old asked) book.old trades.old result book.new trades.new }
{
    let n = book.len() / ORDER_BYTES;
    if n <= FEWEST_PLACES {
        trade_in_room::<FEWEST_PLACES>(day, book, trades, asked)
    } else if n <= FEW_PLACES {
        trade_in_room::<FEW_PLACES>(day, book, trades, asked)
    } else {
        trade_in_room::<MOST_PLACES>(day, book, trades, asked)
    }
}
