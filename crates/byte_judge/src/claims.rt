// Claims read from bytes, and taken off a slate one after the other.
ghost use Rattle.std.specs.Prelude.{◌≡◌, ◌↔◌, true, ◌+◌, ◌≤◌, length, drop};
ghost use Rattle.book.specs.Standing.{Standing};
ghost use Rattle.lookup.specs.Piles.{Piled};
ghost use Rattle.judging.specs.Slates.{Settles};
ghost use Rattle.byte_judge.specs.Claims.{claim_in, claims_in};

use crate::CLAIM_BYTES;
use judge::Claim;
use judging::claims::{all_filled, take_claim};
use model::Order;
use records::numbers::read_numbers;

fn read_claim(b: &[u8], at: usize) -> Claim
    requires { at + 24 ≤ length b.now }
    ensures { result ≡ claim_in (drop at b.now) }
{
    let mut v = [0u64; 3];
    read_numbers(b, at, &mut v);
    Claim {
        shares: v[0],
        buyer: v[1],
        seller: v[2],
    }
}

// Whether the claims are those that the slate asks for. Bytes behind the last whole claim are not read.
pub fn take_byte_claims(
    rows: &[Order],
    tops: &[u16],
    under: &[u16],
    slate: &mut [u64],
    claims: &[u8],
) -> bool
    requires standing { Standing rows.now }
    requires piled { Piled rows.now (length rows.now) tops.now under.now }
    requires slate_len { length slate.old ≡ length rows.now }
    ensures { (result ≡ true) ↔ Settles rows.now slate.old (claims_in claims.now) }
{
    for i in 0..claims.len() / CLAIM_BYTES {
        let c = read_claim(claims, CLAIM_BYTES * i);
        if !take_claim(rows, tops, under, slate, c) {
            return false;
        }
    }
    all_filled(slate)
}
