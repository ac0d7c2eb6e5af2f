// The judge's call: 15 where the day is not sound, no where the price is not the one that is left, and else what the claims are.
ghost use Rattle.std.specs.Prelude.{◌≡◌, ◌≤◌, length, replicate};
ghost use Rattle.book.specs.Standing.{Ranked};
ghost use Rattle.lookup.specs.Piles.{none_yet, Piled};
ghost use Rattle.judge.specs.Judging.{claims_right};
ghost use Rattle.judge.specs.Promises.{JudgePromise};
ghost use Rattle.judging.specs.Prices.{price_verdict};
ghost use Rattle.judging.specs.Slates.{grants_at};

use crate::claims::take_claims;
use crate::grants::grant_rows;
use auction::depth::volume_at;
use auction::price::auction_price;
use figures::reference_of;
use judge::{Claim, Verdict};
use lookup::{PILES, none_yet, pile_orders};
use model::{Day, MOST_PLACES, Order};
use soundness::is_sound;

// What can be said before the claims are looked at: yes where they decide.
pub fn price_verdict(d: Day, rows: &[Order], price: u64) -> Verdict
    ensures { result ≡ price_verdict d price rows.now }
{
    if !is_sound(d, rows) {
        Verdict::Refused(15)
    } else if price != auction_price(rows, reference_of(d)) {
        Verdict::No
    } else {
        Verdict::Yes
    }
}

// A slate for the largest book, in a function of its own, so that no proof looks into its numbers.
pub fn slate_room() -> [u64; MOST_PLACES]
    ensures { result ≡ replicate 4_096 0 }
{
    [0; MOST_PLACES]
}

// Before the first claim: every order on its pile, and on the slate what is granted at the price.
pub fn set_up(rows: &[Order], tops: &mut [u16], under: &mut [u16], slate: &mut [u64], price: u64)
    requires ranked { Ranked rows.now }
    requires tops_value { tops.old ≡ none_yet 65_536 }
    requires rows_in_bounds { length rows.now ≤ length under.old }
    requires slate_len { length slate.old ≡ length rows.now }
    ensures piled { Piled rows.now (length rows.now) tops.new under.new }
    ensures slate_after { slate.new ≡ grants_at price rows.now }
{
    pile_orders(rows, tops, under);
    grant_rows(rows, slate, volume_at(rows, price));
}

// Whether every claim joins, and each order's claims add up to what is granted at the price.
fn claims_decide(
    rows: &[Order],
    tops: &mut [u16],
    under: &mut [u16],
    slate: &mut [u64],
    claims: &[Claim],
    price: u64,
) -> bool
    requires ranked { Ranked rows.now }
    requires tops_value { tops.old ≡ none_yet 65_536 }
    requires rows_in_bounds { length rows.now ≤ length under.old }
    requires slate_len { length slate.old ≡ length rows.now }
    ensures { result ≡ claims_right price rows.now claims.now }
{
    set_up(rows, tops, under, slate, price);
    take_claims(rows, tops, under, slate, claims)
}

// The same, with room for piles and slate.
fn claims_right(rows: &[Order], claims: &[Claim], price: u64) -> bool
    requires { Ranked rows.now }
    ensures { result ≡ claims_right price rows.now claims.now }
{
    let n = rows.len();
    let mut tops = none_yet::<PILES>();
    let mut under = none_yet::<MOST_PLACES>();
    let mut slate = slate_room();
    claims_decide(
        rows,
        &mut tops[..],
        &mut under[..],
        &mut slate[..n],
        claims,
        price,
    )
}

pub fn judge_call(d: Day, rows: &[Order], claims: &[Claim], price: u64) -> Verdict
    ensures { JudgePromise d rows.now claims.now price result }
{
    match price_verdict(d, rows, price) {
        Verdict::Yes if claims_right(rows, claims, price) => Verdict::Yes,
        Verdict::Yes => Verdict::No,
        told => told,
    }
}
