// The rules on numbers: what a price and a quantity may be, the band, and the order range. Every function takes any
// numbers and has no other answer than its definition's; the band and the range say no to what is no price at all, which
// also keeps every product small.
#![tactic(auto)]

pub mod places;

ghost use Rattle.std.specs.Prelude.{◌≡◌, ◌&&◌};
ghost use Rattle.model.specs.Limits.{is_price, in_size, is_odd_lot, is_quantity, in_band, buy_in_range, sell_in_range, in_range};

use model::{HIGHEST_PRICE, MOST_SHARES};

// Whole fen, 1 to 999,999.
#[tactic(auto, unfolding(model::specs::Limits::is_price))]
pub fn is_price(price: u64) -> bool
    ensures { result ≡ is_price price }
{
    1 <= price && price <= HIGHEST_PRICE
}

fn are_prices(one: u64, another: u64) -> bool
    ensures { result ≡ (is_price one && is_price another) }
{
    is_price(one) && is_price(another)
}

// 100 to 1,000,000 shares (3.3.8, 3.3.9).
fn in_size(quantity: u64) -> bool
    ensures { result ≡ in_size quantity }
{
    100 <= quantity && quantity <= MOST_SHARES
}

// 1 to 99 shares, all that the account has (3.3.8).
fn is_odd_lot(quantity: u64, balance: u64) -> bool
    ensures { result ≡ is_odd_lot quantity balance }
{
    1 <= quantity && quantity <= 99 && quantity == balance
}

// Side 0 buys, and names no balance; any other sells, an odd lot in one go.
#[tactic(auto, unfolding(model::specs::Limits::is_quantity))]
pub fn is_quantity(side: u64, quantity: u64, balance: u64) -> bool
    ensures { result ≡ is_quantity side quantity balance }
{
    if side == 0 {
        in_size(quantity) && balance == 0
    } else {
        in_size(quantity) || is_odd_lot(quantity, balance)
    }
}

// At least 70% and at most 130% of the previous close, exactly (3.3.11).
#[tactic(auto, unfolding(model::specs::Limits::is_price, model::specs::Limits::in_band))]
pub fn in_band(close: u64, price: u64) -> bool
    ensures { result ≡ (is_price close && is_price price && in_band close price) }
{
    are_prices(close, price) && 70 * close <= 100 * price && 100 * price <= 130 * close
}

// A buy is at most the higher of 105% of its base and base + 10 (3.3.13).
#[tactic(auto, unfolding(model::specs::Limits::is_price, model::specs::Limits::buy_in_range))]
pub fn buy_in_range(base: u64, price: u64) -> bool
    ensures { result ≡ (is_price base && is_price price && buy_in_range base price) }
{
    are_prices(base, price) && (100 * price <= 105 * base || price <= base + 10)
}

// A sell is at least the lower of 95% of its base and base - 10. Below 10 fen that is no bound.
#[tactic(auto, unfolding(model::specs::Limits::is_price, model::specs::Limits::sell_in_range))]
pub fn sell_in_range(base: u64, price: u64) -> bool
    ensures { result ≡ (is_price base && is_price price && sell_in_range base price) }
{
    are_prices(base, price) && (95 * base <= 100 * price || base <= 10 || base - 10 <= price)
}

// The order range with its base given: side 0 buys, any other sells.
#[tactic(auto, unfolding(model::specs::Limits::in_range))]
pub fn in_range(side: u64, base: u64, price: u64) -> bool
    ensures { result ≡ (is_price base && is_price price && in_range side base price) }
{
    if side == 0 {
        buy_in_range(base, price)
    } else {
        sell_in_range(base, price)
    }
}
