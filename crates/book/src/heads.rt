// The order of a side that trades next in an auction, as the auction goes along the side.
ghost use Rattle.std.specs.Prelude.{◌≡◌, ◌+◌, ◌≤◌, ◌<◌, length};
ghost use Rattle.book.specs.Lines.{line};
ghost use Rattle.book.specs.Heads.{head_of, head_past};

use crate::Head;
use model::Order;

// The first order from a place on, before the end of its side.
pub fn head_at(rows: &[Order], at: usize, end: usize) -> Head
    requires { end ≤ length rows.now }
    ensures { result ≡ head_of at (line at end rows.now) }
{
    if at < end {
        let o = rows[at];
        return Head {
            at,
            number: o.number,
            price: o.price,
            left: o.left,
        };
    }
    Head {
        at,
        number: 0,
        price: 0,
        left: 0,
    }
}

// The head when q of it have traded: itself while something is left, else the next.
pub fn head_past(rows: &[Order], end: usize, h: Head, q: u64) -> Head
    requires end_in_bounds { end ≤ length rows.now }
    requires at_lt_end { h.at < end }
    ensures { result ≡ head_past q h (line (h.at + 1) end rows.now) }
{
    if q < h.left {
        return Head {
            left: h.left - q,
            ..h
        };
    }
    head_at(rows, h.at + 1, end)
}
