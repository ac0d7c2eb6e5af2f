// The memory that the program lends. Only the lengths matter: lending an array as a slice needs its own.
ghost use Rattle.std.specs.Prelude.{◌≡◌, length};

use book::no_trade;
use book::places::free_place;
use desk::{LENT_PLACES, LENT_TRADES};
use model::{Order, Trade};

// Room for the replies to many lines, and always for the longest answer.
const OUTPUT: usize = 393_216;

pub fn places() -> [Order; LENT_PLACES]
    ensures { 1024 ≡ length result }
{
    [free_place(); LENT_PLACES]
}

pub fn trade_list() -> [Trade; LENT_TRADES]
    ensures { 2048 ≡ length result }
{
    [no_trade(); LENT_TRADES]
}

pub fn output() -> [u8; OUTPUT]
    ensures { 393216 ≡ length result }
{
    [0; OUTPUT]
}
