// What is due at each stop of the clock: the opening auction, the end of a halt, the closing auction with the lapse.
ghost use Rattle.std.specs.Prelude.{◌≡◌, true, ◌≤◌, length};
ghost use Rattle.model.specs.ClockCall.{auction_trades, auction, resume, lapse, pass, start};
ghost use Rattle.book.specs.Standing.{Ranked};
ghost use Rattle.book.specs.Deals.{dealt};
ghost use Rattle.book.specs.Writing.{fitted};
ghost use Rattle.moves.specs.Stops.{is_stop};
ghost use Rattle.moves.specs.Moving.{Underway, Reached};

use crate::Passage;
use crate::stops::OPENING_AUCTION;
use auction::depth::volume_at;
use auction::price::auction_price;
use book::Dealt;
use book::settling::clear_rows;
use figures::{reference_of, tally_trades};
use halts::firing::{fire, resume_day};
use model::{Day, Order, Trade};
use pairing::pair_at;
use pairing::settling::settle_auction;
use soundness::places::buys_reach_sells;

// At 14:57 no halt starts and no threshold is used up.
const CLOSING_CALL: u64 = 53_820;

// The trades of an auction held now: all are counted, and as many are written as the list holds. No price is looked for where no
// buy reaches a sell.
pub fn auction_trades(d: Day, rows: &[Order], trades: &mut [Trade]) -> Dealt
    requires { Ranked rows.now }
    ensures value { result ≡ dealt (auction_trades d rows.now) }
    ensures trades_after { trades.new ≡ fitted (auction_trades d rows.now) trades.old }
{
    if !buys_reach_sells(rows) {
        return Dealt { made: 0, shares: 0 };
    }
    let price = auction_price(rows, reference_of(d));
    let shares = volume_at(rows, price);
    let made = pair_at(rows, trades, price, shares);
    Dealt { made, shares }
}

// An auction on the book as it is now: its trades at the front of the list, off the book, and onto the day's figures.
fn hold_auction(d: Day, rows: &mut [Order], trades: &mut [Trade]) -> Passage
    requires underway { Underway (start d rows.old) }
    requires rows_in_bounds { length (auction_trades d rows.old) ≤ length trades.old }
    ensures { Reached (auction (start d rows.old)) trades.old result rows.new trades.new }
{
    let dealt = auction_trades(d, rows, trades);
    settle_auction(rows, dealt.shares);
    Passage {
        day: tally_trades(d, trades, dealt.made),
        made: dealt.made,
    }
}

// The closing auction, after which all that rests lapses.
fn close_book(d: Day, rows: &mut [Order], trades: &mut [Trade]) -> Passage
    requires underway { Underway (start d rows.old) }
    requires rows_in_bounds { length (auction_trades d rows.old) ≤ length trades.old }
    ensures { Reached (lapse (auction (start d rows.old))) trades.old result rows.new trades.new }
{
    let dealt = auction_trades(d, rows, trades);
    clear_rows(rows);
    Passage {
        day: tally_trades(d, trades, dealt.made),
        made: dealt.made,
    }
}

// The end of a halt: an auction, whose price may fire the other threshold, except at 14:57.
fn end_halt(d: Day, rows: &mut [Order], trades: &mut [Trade], second: u64) -> Passage
    requires underway { Underway (start d rows.old) }
    requires rows_in_bounds { length (auction_trades d rows.old) ≤ length trades.old }
    requires second_bound { second ≤ 86_399 }
    ensures { Reached (resume second (start d rows.old)) trades.old result rows.new trades.new }
{
    let held = hold_auction(d, rows, trades);
    let made = held.made;
    let over = resume_day(held.day);
    if second == CLOSING_CALL {
        return Passage { day: over, made };
    }
    Passage {
        day: fire(over, trades, made, second),
        made,
    }
}

// What is due at a stop.
pub fn pass_stop(d: Day, rows: &mut [Order], trades: &mut [Trade], second: u64) -> Passage
    requires underway { Underway (start d rows.old) }
    requires rows_in_bounds { length (auction_trades d rows.old) ≤ length trades.old }
    requires second_bound { second ≤ 86_399 }
    requires second_value { is_stop d.halt second ≡ true }
    ensures { Reached (pass second (start d rows.old)) trades.old result rows.new trades.new }
{
    if second == OPENING_AUCTION {
        hold_auction(d, rows, trades)
    } else if second == d.halt {
        end_halt(d, rows, trades, second)
    } else {
        close_book(d, rows, trades)
    }
}
