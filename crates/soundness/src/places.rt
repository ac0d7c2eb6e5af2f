// The places of the book: how many, what stands at each, numbers used twice, the shares left, and whether buys reach sells.
ghost use Rattle.std.specs.Prelude.{◌≡◌, true, not, ◌&&◌, ◌||◌};
ghost use Rattle.model.specs.Lists.{all, total};
ghost use Rattle.model.specs.Limits.{is_price};
ghost use Rattle.model.specs.Book.{is_live};
ghost use Rattle.model.specs.Halts.{runs};
ghost use Rattle.model.specs.Sound.{may_stand, sound_figures, is_free, is_order, is_order_of, own_numbers, crosses, between};
ghost use Rattle.bits.specs.Maps.{has_bit};
ghost use Rattle.book.specs.Standing.{Ranked};
ghost use Rattle.soundness.specs.Numbers.{no_numbers, FreshMap};

use bits::{has, set_bit};
use book::places::{free_place, is_live};
use book::seats::best_price;
use limits::places::is_between;
use limits::{in_band, is_price};
use model::{Day, MOST_SHARES, Order};

// A price, and in the band on limited days.
#[tactic(auto, unfolding(model::specs::Sound::may_stand))]
fn may_stand(day: Day, price: u64) -> bool
    requires { is_price day.close ≡ true }
    ensures { result ≡ may_stand day price }
{
    is_price(price) && (day.limited == 0 || in_band(day.close, price))
}

// All zeros.
#[tactic(auto, unfolding(model::specs::Sound::is_free, model::specs::Book::free))]
fn is_free(o: Order) -> bool
    ensures { result ≡ is_free o }
{
    o == free_place()
}

// A side, an account, 1 to 1,000,000 shares, a price that may stand, and a number among those issued.
#[tactic(auto, unfolding(model::specs::Sound::is_order_of, model::specs::Sound::between))]
fn is_order(day: Day, issued: u64, o: Order) -> bool
    requires { is_price day.close ≡ true }
    ensures { result ≡ is_order_of day issued o }
{
    o.side <= 1
        && o.account != 0
        && is_between(1, MOST_SHARES, o.left)
        && may_stand(day, o.price)
        && is_between(1, issued, o.number)
}

// Free, or with an order whose number is among those issued in its book.
pub fn place_is_sound(day: Day, issued: u64, o: Order) -> bool
    requires { is_price day.close ≡ true }
    ensures { result ≡ (is_free o || is_order_of day issued o) }
{
    is_free(o) || is_order(day, issued, o)
}

// Maps of numbers, 64 to a word: of 0 to 65,535, and of all.
const FEW_WORDS: usize = 1_024;

const ALL_WORDS: usize = 15_625;

const LAST_OF_FEW: u64 = 65_535;

// They start with no number in them.
#[tactic(auto, unfolding(crate::specs::Numbers::no_numbers))]
fn no_numbers<const WORDS: usize>() -> [u64; WORDS]
    ensures { result ≡ no_numbers WORDS }
{
    [0; WORDS]
}

// Whether an order's number was used at a place before.
fn is_used(used: &[u64], o: Order) -> bool
    ensures { result ≡ (is_live o && has_bit used.now o.number) }
{
    is_live(o) && has(used, o.number)
}

// Each place is free or has an order, and each order its own number: found with a map of the numbers used so far.
fn places_with(used: &mut [u64], day: Day, rows: &[Order]) -> bool
    requires day_value { sound_figures day ≡ true }
    requires fresh_map { FreshMap day.issued used.old }
    ensures { result ≡ (all (λ o. is_free o || is_order day o) rows.now && own_numbers rows.now) }
{
    for o in rows {
        if !place_is_sound(day, day.issued, *o) || is_used(used, *o) {
            return false;
        }
        set_bit(used, o.number);
    }
    true
}

// A map is set to zero at each call, so a short one serves while few numbers are issued.
// Never inlined: in a caller that returns early, clang sets up so large a frame over a register that is still needed.
#[inline(never)]
pub fn sound_places(day: Day, rows: &[Order]) -> bool
    requires { sound_figures day ≡ true }
    ensures { result ≡ (all (λ o. is_free o || is_order day o) rows.now && own_numbers rows.now) }
{
    if day.issued <= LAST_OF_FEW {
        places_with(&mut no_numbers::<FEW_WORDS>(), day, rows)
    } else {
        places_with(&mut no_numbers::<ALL_WORDS>(), day, rows)
    }
}

// The shares left of all orders.
pub fn shares_left(rows: &[Order]) -> u64
    requires { Ranked rows.now }
    ensures { result ≡ total (λ o. o.left) rows.now }
{
    let mut sum: u64 = 0;
    for o in rows {
        sum += o.left;
    }
    sum
}

// Buys reach sells: both sides have an order, and the best buy is not below the best sell.
#[tactic(auto, unfolding(model::specs::Sound::crosses))]
pub fn buys_reach_sells(rows: &[Order]) -> bool
    requires { Ranked rows.now }
    ensures { result ≡ crosses rows.now }
{
    let buy = best_price(rows, 0);
    let sell = best_price(rows, 1);
    buy != 0 && sell != 0 && sell <= buy
}

// From 33,900 to 53,819 they may not, unless a halt runs.
#[tactic(auto, unfolding(model::specs::Sound::between, model::specs::Halts::runs))]
pub fn crosses_in_hours(day: Day, rows: &[Order]) -> bool
    requires { Ranked rows.now }
    ensures { result ≡ (between 33_900 53_819 day.time && not (runs day) && crosses rows.now) }
{
    is_between(33_900, 53_819, day.time) && day.halt == 0 && buys_reach_sells(rows)
}
