// The fixed-price book as rows of memory, in order of arrival: whether it is sound, who trades with whom at the close, and what that
// leaves.
#![tactic(auto)]

pub mod evening;
pub mod leaving;
pub mod line;
pub mod places;
pub mod walking;

// What is still to come off the first orders of either side, and the void shares so far.
#[derive(Clone, Copy)]
pub struct Owed {
    pub buys: u64,
    pub sells: u64,
    pub void: u64,
}

ghost use Rattle.std.specs.Prelude.{◌≡◌, true, not, ◌&&◌, List, ◌+◌, ◌*◌, ◌^◌, ◌<◌, length};
ghost use Rattle.model.specs.declared.Order.{Order};
ghost use Rattle.model.specs.Lists.{keep, total};
ghost use Rattle.model.specs.Limits.{is_price};
ghost use Rattle.model.specs.Figures.{tally_fixed};
ghost use Rattle.model.specs.Sound.{has_places, fixed_fits};
ghost use Rattle.model.specs.SoundFixed.{sound_fixed};
ghost use Rattle.model.specs.Matching.{filled, settle};
ghost use Rattle.model.specs.Auction.{shares_of};
ghost use Rattle.model.specs.FixedBook.{is_void, matches, lined};
ghost use Rattle.book.specs.Deals.{dealt};
ghost use Rattle.book.specs.Writing.{fitted};
ghost use Rattle.fixed_book.specs.Ready.{Lined};

use crate::evening::{fits_hours, rests_after_matching, sums_fit};
use crate::leaving::take_off;
use crate::line::line_up;
use crate::places::{is_in_arrival, sound_places};
use crate::walking::{head_from, head_past, trade_at_close};
use book::{Dealt, put_trade, smaller};
use limits::places::has_places;
use model::{Day, Fixed, Order, Trade};

// The trades of the orders that are not void, at the close, in order of arrival: all are counted, and as many are written as the list
// holds.
pub fn deal_at_close(rows: &[Order], trades: &mut [Trade], close: u64) -> Dealt
    requires { Lined rows.now }
    ensures value { result ≡ dealt (matches close (keep (λ o. not (is_void close o)) rows.now)) }
    ensures trades_after { trades.new ≡ fitted (matches close (keep (λ o. not (is_void close o)) rows.now)) trades.old }
{
    let mut buy = head_from(rows, 0, 0, close);
    let mut sell = head_from(rows, 0, 1, close);
    let mut quantity = smaller(buy.left, sell.left);
    let mut made: usize = 0;
    let mut shares: u64 = 0;
    // No index is counted: each turn moves both heads on by what they trade.
    while 0 < quantity {
        let trade = trade_at_close(buy, sell, quantity, close);
        put_trade(trades, made, trade);
        made += 1;
        shares += quantity;
        buy = head_past(rows, 0, close, buy, quantity);
        sell = head_past(rows, 1, close, sell, quantity);
        quantity = smaller(buy.left, sell.left);
    }
    Dealt { made, shares }
}

// Void orders leave, so many shares come off the first of either side, and what is left closes up; the void shares.
pub fn settle_at_close(rows: &mut [Order], close: u64, shares: u64) -> u64
    requires lined { Lined rows.old }
    requires shares_value { shares ≡ filled (matches close (keep (λ o. not (is_void close o)) rows.old)) }
    ensures value { result ≡ shares_of (is_void close) rows.old }
    ensures rows_after { rows.new ≡ lined (length rows.old) (settle (matches close (keep (λ o. not (is_void close o)) rows.old)) (keep (λ o. not (is_void close o)) rows.old)) }
{
    let void = take_off(rows, close, shares);
    line_up(rows);
    void
}

// The shares left of all orders.
pub fn resting_of(rows: &[Order]) -> u64
    requires { Lined rows.now }
    ensures { result ≡ total (λ o. o.left) rows.now }
{
    rows.iter().map(|o| o.left).sum()
}

// Whether the book has 1 to 4,096 places and is sound. Each test keeps the sums of the later ones small.
pub fn fixed_sound(d: Day, rows: &[Order]) -> bool
    requires close_value { is_price d.close ≡ true }
    requires d_value { fixed_fits d ≡ true }
    ensures { result ≡ (has_places rows.now && sound_fixed d rows.now) }
{
    if !has_places(rows) {
        return false;
    }
    if !sound_places(d, rows) {
        return false;
    }
    if !is_in_arrival(rows) {
        return false;
    }
    let resting = resting_of(rows);
    if !fits_hours(d.time, resting) {
        return false;
    }
    if !rests_after_matching(d, rows) {
        return false;
    }
    sums_fit(d, resting)
}

// The day with so many more fixed-price shares at the close.
pub fn tally_fixed(d: Day, close: u64, shares: u64) -> Day
    requires shares_bound { d.fixed.shares + shares < 2 ^ 64 }
    requires shares_bound_2 { d.fixed.money + close * shares < 2 ^ 64 }
    ensures { (os : List Order) → filled (matches close os) ≡ shares → result ≡ tally_fixed (matches close os) d }
{
    let fixed = Fixed {
        shares: d.fixed.shares + shares,
        money: d.fixed.money + close * shares,
        ..d.fixed
    };
    Day { fixed, ..d }
}
