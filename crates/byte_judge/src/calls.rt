// The judge's call on a book and claims as bytes, in a room as small as the book allows.
ghost use Rattle.std.specs.Prelude.{◌≡◌, ◌/◌, ◌≤◌, length};
ghost use Rattle.book.specs.Standing.{Ranked};
ghost use Rattle.lookup.specs.Piles.{none_yet};
ghost use Rattle.records.specs.Layout.{book_in};
ghost use Rattle.judge.specs.Judging.{claims_right, judge_call};
ghost use Rattle.byte_judge.specs.Claims.{claims_in};

use crate::claims::take_byte_claims;
use judge::Verdict;
use judging::calls::{price_verdict, set_up, slate_room};
use lookup::{PILES, none_yet};
use model::{Day, MOST_PLACES, Order};
use records::ORDER_BYTES;
use records::lists::load_book;
use records::rooms::{FEW_PLACES, FEWEST_PLACES, order_room};

// Whether every claim joins, and each order's claims add up to what is granted at the price.
fn byte_claims_decide(
    rows: &[Order],
    tops: &mut [u16],
    under: &mut [u16],
    slate: &mut [u64],
    claims: &[u8],
    price: u64,
) -> bool
    requires ranked { Ranked rows.now }
    requires tops_value { tops.old ≡ none_yet 65_536 }
    requires rows_in_bounds { length rows.now ≤ length under.old }
    requires slate_len { length slate.old ≡ length rows.now }
    ensures { result ≡ claims_right price rows.now (claims_in claims.now) }
{
    set_up(rows, tops, under, slate, price);
    take_byte_claims(rows, tops, under, slate, claims)
}

// The same, with room for piles and slate.
fn byte_claims_right(rows: &[Order], claims: &[u8], price: u64) -> bool
    requires { Ranked rows.now }
    ensures { result ≡ claims_right price rows.now (claims_in claims.now) }
{
    let n = rows.len();
    let mut tops = none_yet::<PILES>();
    let mut under = none_yet::<MOST_PLACES>();
    let mut slate = slate_room();
    byte_claims_decide(
        rows,
        &mut tops[..],
        &mut under[..],
        &mut slate[..n],
        claims,
        price,
    )
}

// The call on rows of a book.
fn judge_rows(d: Day, rows: &[Order], claims: &[u8], price: u64) -> Verdict
    ensures { result ≡ judge_call d price rows.now (claims_in claims.now) }
{
    match price_verdict(d, rows, price) {
        Verdict::Yes if byte_claims_right(rows, claims, price) => Verdict::Yes,
        Verdict::Yes => Verdict::No,
        told => told,
    }
}

fn judge_in(d: Day, book: &[u8], rows: &mut [Order], claims: &[u8], price: u64) -> Verdict
    requires { length rows.old ≡ length book.now / 40 }
    ensures { result ≡ judge_call d price (book_in book.now) (claims_in claims.now) }
{
    load_book(book, rows);
    judge_rows(d, rows, claims, price)
}

// In a room of so many places. Never inlined, so that a call sets up the room that it takes, and no larger one.
#[inline(never)]
fn judge_in_room<const PLACES: usize>(d: Day, book: &[u8], claims: &[u8], price: u64) -> Verdict
    requires places_bound { PLACES ≤ 4_096 }
    requires book_len_bound { length book.now / 40 ≤ PLACES }
    ensures { result ≡ judge_call d price (book_in book.now) (claims_in claims.now) }
{
    let n = book.len() / ORDER_BYTES;
    let mut rows = order_room::<PLACES>();
    judge_in(d, book, &mut rows[..n], claims, price)
}

// A book of more places than any may have is not read here.
pub fn judge_bytes(d: Day, book: &[u8], claims: &[u8], price: u64) -> Verdict
    requires { length book.now / 40 ≤ 4_096 }
    ensures { result ≡ judge_call d price (book_in book.now) (claims_in claims.now) }
{
    let n = book.len() / ORDER_BYTES;
    if n <= FEWEST_PLACES {
        judge_in_room::<FEWEST_PLACES>(d, book, claims, price)
    } else if n <= FEW_PLACES {
        judge_in_room::<FEW_PLACES>(d, book, claims, price)
    } else {
        judge_in_room::<MOST_PLACES>(d, book, claims, price)
    }
}
