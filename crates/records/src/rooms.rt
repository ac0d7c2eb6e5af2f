// Room for the rows and the trades of a call, by the size of its book, or of the longest of its lists. A call sets its rooms to zero, and with the large ones that
// can be half its time. Each is made by a call, so that no proof looks into its rows.
ghost use Rattle.std.specs.Prelude.{◌≡◌, replicate};
ghost use Rattle.model.specs.Book.{free};
ghost use Rattle.model.specs.Matching.{no_trade};
ghost use Rattle.model.specs.Blocks.{undeclared};

use book::no_trade;
use book::places::free_place;
use declarations::no_declaration;
use model::{Declaration, Order, Trade};

// Books of up to so many places have smaller rooms.
pub const FEW_PLACES: usize = 1_024;

pub const FEWEST_PLACES: usize = 64;

// A move of the clock over all three lists has no more trades than these have places: the places of its `trade_room`.
pub const MOST_MOVE_TRADES: usize = 12_288;

pub const FEW_MOVE_TRADES: usize = 3_072;

pub const FEWEST_MOVE_TRADES: usize = 192;

pub fn order_room<const PLACES: usize>() -> [Order; PLACES]
    ensures { result ≡ replicate PLACES free }
{
    [free_place(); PLACES]
}

// No event has more trades than the book has places.
pub fn trade_room<const PLACES: usize>() -> [Trade; PLACES]
    ensures { result ≡ replicate PLACES no_trade }
{
    [no_trade(); PLACES]
}

pub fn held_room<const PLACES: usize>() -> [Declaration; PLACES]
    ensures { result ≡ replicate PLACES undeclared }
{
    [no_declaration(); PLACES]
}
