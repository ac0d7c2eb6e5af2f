// A new declaration among those that are held: how many there are, the earliest that it fits, and the place that one leaves.
ghost use Rattle.std.specs.Prelude.{◌≡◌, [], ◌∷◌, ◌++◌, ◌+◌, ◌<◌, length, take, drop, MatchOption};
ghost use Rattle.model.specs.Lists.{keep};
ghost use Rattle.model.specs.Blocks.{undeclared, is_held};
ghost use Rattle.declarations.specs.Declared.{Declared};
ghost use Rattle.held.specs.Meeting.{earliest};

use crate::standing::is_held;
use declarations::{fit, no_declaration};
use model::Declaration;

// How many are held. They stand first, so that is also the first free place.
pub fn count_held(rows: &[Declaration]) -> usize
    requires { Declared rows.now }
    ensures { result ≡ length (keep is_held rows.now) }
{
    rows.iter().take_while(|x| is_held(**x)).count()
}

// The place of the earliest declaration that this one fits.
pub fn earliest_fit(rows: &[Declaration], x: Declaration) -> Option<usize>
    ensures { MatchOption result (earliest x rows.now ≡ length rows.now) (λ place. (place < length rows.now) × (place ≡ earliest x rows.now)) }
{
    rows.iter().position(|y| fit(x, *y))
}

// The declaration at a place is taken out: those behind it move up by one place, and the last place becomes free.
pub fn take_out(rows: &mut [Declaration], place: usize)
    requires { place < length rows.old }
    ensures { rows.new ≡ take place rows.old ++ (drop (place + 1) rows.old ++ (undeclared ∷ [])) }
{
    let last = rows.len() - 1;
    rows.copy_within(place + 1.., place);
    rows[last] = no_declaration();
}
