// An order of the book found by its number, without a look at the others. Numbers with the same remainder lie on one pile: a list has
// the top of each pile, and another one, for each place, what lies under it. Places are counted from 1 here, and 0 is none, as
// the definition `place_by` has it.
#![tactic(auto)]

ghost use Rattle.std.specs.Prelude.{◌≡◌, ◌≤◌, ◌<◌, length};
ghost use Rattle.lookup.specs.Piles.{none_yet, tops_with, under_with, Piled, place_by};

use model::Order;

// Numbers go up to 999,999, so that no pile has more than sixteen.
pub const PILES: usize = 65_536;

// No order lies on a pile yet: `PILES` tops, or as many places with nothing under them.
#[tactic(auto, unfolding(crate::specs::Piles::none_yet))]
pub fn none_yet<const N: usize>() -> [u16; N]
    ensures { result ≡ none_yet N }
{
    [0; N]
}

// The order at place i goes on top of its pile. A free place lies on none.
#[tactic(auto, unfolding(crate::specs::Piles::tops_with, crate::specs::Piles::under_with, model::specs::Book::is_live))]
fn pile_order(tops: &mut [u16], under: &mut [u16], o: Order, i: usize)
    requires tops_len { length tops.old ≡ 65_536 }
    requires i_in_bounds { i < length under.old }
    requires i_bound { i < 4_096 }
    ensures tops_after { tops.new ≡ tops_with o i tops.old }
    ensures under_after { under.new ≡ under_with o i tops.old under.old }
{
    if o.number != 0 {
        let pile = (o.number % 65_536) as usize;
        under[i] = tops[pile];
        tops[pile] = (i + 1) as u16;
    }
}

// Every order on its pile.
pub fn pile_orders(rows: &[Order], tops: &mut [u16], under: &mut [u16])
    requires rows_len_bound { length rows.now ≤ 4_096 }
    requires tops_value { tops.old ≡ none_yet 65_536 }
    requires rows_in_bounds { length rows.now ≤ length under.old }
    ensures { Piled rows.now (length rows.now) tops.new under.new }
{
    for (i, o) in rows.iter().enumerate() {
        pile_order(tops, under, *o, i);
    }
}

// The place of the live order with this number, counted from 1, or 0, as the definition `place_by` has it: from the top of its pile
// downwards.
pub fn place_by(rows: &[Order], tops: &[u16], under: &[u16], number: u64) -> usize
    requires { Piled rows.now (length rows.now) tops.now under.now }
    ensures { result ≡ place_by number rows.now }
{
    let pile = (number % 65_536) as usize;
    let mut at = usize::from(tops[pile]);
    // Down the pile: each place names the next one below, as a list in fixed memory has it.
    while 0 < at {
        if rows[at - 1].number == number {
            return at;
        }
        at = usize::from(under[at - 1]);
    }
    0
}
