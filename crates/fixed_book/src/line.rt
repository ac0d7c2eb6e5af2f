// The line in its places: how many orders it has, and closed up, so that free places stand last.
ghost use Rattle.std.specs.Prelude.{◌≡◌, ◌≤◌, ◌<◌, length};
ghost use Rattle.model.specs.Lists.{keep};
ghost use Rattle.model.specs.Book.{is_live};
ghost use Rattle.model.specs.FixedBook.{lined};
ghost use Rattle.fixed_book.specs.Ready.{Lined};
ghost use Rattle.fixed_book.specs.Line.{Tidy, BroughtUp};

use book::places::{free_place, is_live};
use model::Order;

// The order at a place goes to one before it, or stays; where the next one goes.
fn bring_up(rows: &mut [Order], from: usize, to: usize) -> usize
    requires from_in_bounds { from < length rows.old }
    requires to_le_from { to ≤ from }
    ensures { BroughtUp from to rows.old rows.new result }
{
    if !is_live(rows[from]) {
        return to;
    }
    // An order that stays is not written: a line that is nearly full moves few.
    if from != to {
        rows[to] = rows[from];
        rows[from] = free_place();
    }
    to + 1
}

// The orders stand one behind the other, and free places last.
pub fn line_up(rows: &mut [Order])
    requires { Tidy rows.old }
    ensures { rows.new ≡ lined (length rows.old) rows.old }
{
    let mut to: usize = 0;
    for i in 0..rows.len() {
        to = bring_up(rows, i, to);
    }
}

// How many orders there are: the first free place.
pub fn orders_in(rows: &[Order]) -> usize
    requires { Lined rows.now }
    ensures { result ≡ length (keep is_live rows.now) }
{
    for (i, o) in rows.iter().enumerate() {
        if !is_live(*o) {
            return i;
        }
    }
    rows.len()
}
