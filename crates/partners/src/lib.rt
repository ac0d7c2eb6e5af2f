// Who is confirmed with whom among the declarations that are held. Two that fit are of one class, and within a class everybody fits
// everybody of the other side: the k-th buyer is confirmed with the k-th seller. So both sides are sorted by class, and one walk over
// the two meets each pair; no others are compared.
#![tactic(auto)]

ghost use Rattle.std.specs.Prelude.{◌≡◌, ◌≤◌, ◌<◌, length, set, take, replicate};
ghost use Rattle.classes.specs.Sorting.{class_at, Sorted};
ghost use Rattle.declarations.specs.Declared.{Declared};
ghost use Rattle.partners.specs.Partners.{partners};
ghost use Rattle.partners.specs.Places.{at, is_on, places_on, BothSorted};

use classes::{before, sort_places};
use model::{Declaration, MOST_PLACES};

#[tactic(auto, unfolding(crate::specs::Places::is_on, model::specs::Blocks::is_held, model::specs::Arrival::is_taken))]
fn is_on(x: Declaration, side: u64) -> bool
    ensures { result ≡ is_on side x }
{
    x.number != 0 && x.side == side
}

// The places of one side, and how many they are.
fn gather(rows: &[Declaration], side: u64, places: &mut [usize]) -> usize
    requires { length rows.now ≤ length places.old }
    ensures upper_bound { result ≤ length places.old }
    ensures places_after { take result places.new ≡ places_on side 0 rows.now }
{
    let mut count = 0;
    for (i, x) in rows.iter().enumerate() {
        if is_on(*x, side) {
            places[count] = i;
            count += 1;
        }
    }
    count
}

// The places of one side, sorted by class, and how many they are.
fn gather_sorted(rows: &[Declaration], side: u64, places: &mut [usize], room: &mut [usize]) -> usize
    requires rows_in_bounds { length rows.now ≤ length places.old }
    requires places_in_bounds { length places.old ≤ length room.old }
    ensures upper_bound { result ≤ length places.old }
    ensures sorted { Sorted (class_at rows.now) (places_on side 0 rows.now) (take result places.new) }
{
    let count = gather(rows, side, places);
    sort_places(rows, &mut places[..count], room);
    count
}

// The declarations at places p and q are each other's partner.
fn join(rows: &[Declaration], partner: &mut [u64], p: usize, q: usize)
    requires p_in_bounds { p < length rows.now }
    requires q_in_bounds { q < length rows.now }
    requires partner_len { length partner.old ≡ length rows.now }
    ensures { partner.new ≡ set (set partner.old p (at rows.now q).number) q (at rows.now p).number }
{
    partner[p] = rows[q].number;
    partner[q] = rows[p].number;
}

// One walk over both sides: of two classes the earlier one is passed by, and two of the same class are each other's partner.
fn pair_up(rows: &[Declaration], buyers: &[usize], sellers: &[usize], partner: &mut [u64])
    requires declared { Declared rows.now }
    requires both_sorted { BothSorted rows.now buyers.now sellers.now }
    requires partner_value { partner.old ≡ replicate (length rows.now) 0 }
    ensures { partner.new ≡ partners rows.now }
{
    let mut i = 0;
    let mut j = 0;
    // Two cursors, each of which moves on by itself.
    while i < buyers.len() && j < sellers.len() {
        let p = buyers[i];
        let q = sellers[j];
        if before(rows, p, q) {
            i += 1;
        } else if before(rows, q, p) {
            j += 1;
        } else {
            join(rows, partner, p, q);
            i += 1;
            j += 1;
        }
    }
}

// Both sides gathered, sorted and paired.
fn find_with(
    rows: &[Declaration],
    partner: &mut [u64],
    buyers: &mut [usize],
    sellers: &mut [usize],
    room: &mut [usize],
)
    requires declared { Declared rows.now }
    requires partner_len { length partner.old ≡ length rows.now }
    requires rows_in_buyers { length rows.now ≤ length buyers.old }
    requires rows_in_sellers { length rows.now ≤ length sellers.old }
    requires buyers_in_bounds { length buyers.old ≤ length room.old }
    requires sellers_in_bounds { length sellers.old ≤ length room.old }
    ensures { partner.new ≡ partners rows.now }
{
    let buying = gather_sorted(rows, 0, buyers, room);
    let selling = gather_sorted(rows, 1, sellers, room);
    partner.fill(0);
    pair_up(rows, &buyers[..buying], &sellers[..selling], partner);
}

// Places for the largest list, in a function of its own, so that no proof looks into its numbers.
fn places_room() -> [usize; MOST_PLACES] {
    [0; MOST_PLACES]
}

// The number of each place's partner, 0 where it has none, as the definition `partners` has it.
pub fn find_partners(rows: &[Declaration], partner: &mut [u64])
    requires declared { Declared rows.now }
    requires partner_len { length partner.old ≡ length rows.now }
    ensures { partner.new ≡ partners rows.now }
{
    let mut buyers = places_room();
    let mut sellers = places_room();
    let mut room = places_room();
    find_with(rows, partner, &mut buyers, &mut sellers, &mut room);
}
