// Claims taken off a slate, one after the other. Shares are only ever taken off, never added up, so that no sum can come round.
ghost use Rattle.std.specs.Prelude.{◌≡◌, ◌↔◌, true, [], ◌-◌, ◌≤◌, ◌<◌, length, get_or, set, eqb};
ghost use Rattle.model.specs.Lists.{all};
ghost use Rattle.book.specs.Standing.{Standing};
ghost use Rattle.lookup.specs.Piles.{Piled};
ghost use Rattle.judging.specs.Slates.{Settles, may_fill, Taken};

use judge::Claim;
use lookup::place_by;
use model::Order;

// Whether a place, counted from 1, has an order of this side of which so many shares are still to be filled.
#[tactic(auto, unfolding(crate::specs::Slates::may_fill))]
fn may_fill(rows: &[Order], slate: &[u64], at: usize, side: u64, shares: u64) -> bool
    requires at_in_bounds { at ≤ length rows.now }
    requires slate_len { length slate.now ≡ length rows.now }
    ensures { result ≡ may_fill side shares rows.now slate.now at }
{
    at != 0 && rows[at - 1].side == side && shares <= slate[at - 1]
}

// So many shares less are to be filled at a place, counted from 1.
fn take_off(slate: &mut [u64], at: usize, shares: u64)
    requires at_nonzero { 0 < at }
    requires at_in_bounds { at ≤ length slate.old }
    requires shares_bound { shares ≤ get_or slate.old (at - 1) 0 }
    ensures { slate.new ≡ set slate.old (at - 1) (get_or slate.old (at - 1) 0 - shares) }
{
    slate[at - 1] -= shares;
}

// Takes a claim's shares off its buyer and off its seller: false, and nothing is taken, where it joins no two live orders or one of
// them has not so many left.
pub fn take_claim(rows: &[Order], tops: &[u16], under: &[u16], slate: &mut [u64], c: Claim) -> bool
    requires standing { Standing rows.now }
    requires piled { Piled rows.now (length rows.now) tops.now under.now }
    requires slate_len { length slate.old ≡ length rows.now }
    ensures { Taken rows.now slate.old c result slate.new }
{
    if c.shares == 0 {
        return false;
    }
    let buyer = place_by(rows, tops, under, c.buyer);
    if !may_fill(rows, slate, buyer, 0, c.shares) {
        return false;
    }
    let seller = place_by(rows, tops, under, c.seller);
    if !may_fill(rows, slate, seller, 1, c.shares) {
        return false;
    }
    take_off(slate, buyer, c.shares);
    take_off(slate, seller, c.shares);
    true
}

// Nothing is left to be filled.
pub fn all_filled(slate: &[u64]) -> bool
    ensures { result ≡ all (eqb 0) slate.now }
{
    slate.iter().all(|left| 0 == *left)
}

// Whether the claims are those that the slate asks for.
pub fn take_claims(
    rows: &[Order],
    tops: &[u16],
    under: &[u16],
    slate: &mut [u64],
    claims: &[Claim],
) -> bool
    requires standing { Standing rows.now }
    requires piled { Piled rows.now (length rows.now) tops.now under.now }
    requires slate_len { length slate.old ≡ length rows.now }
    ensures { (result ≡ true) ↔ Settles rows.now slate.old claims.now }
{
    for c in claims {
        if !take_claim(rows, tops, under, slate, *c) {
            return false;
        }
    }
    all_filled(slate)
}
