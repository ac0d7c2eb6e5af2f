// Block trades by agreement on rows of memory: when the declarations are sound, and who is confirmed at 15:00.
#![tactic(auto)]

pub mod confirming;

ghost use Rattle.std.specs.Prelude.{◌≡◌, true, ◌&&◌, List, ◌+◌, ◌^◌, ◌<◌, length, replicate};
ghost use Rattle.model.specs.declared.Trade.{Trade};
ghost use Rattle.model.specs.Limits.{is_price};
ghost use Rattle.model.specs.Matching.{filled};
ghost use Rattle.model.specs.Figures.{tally_blocks};
ghost use Rattle.model.specs.Sound.{has_places, blocks_fit};
ghost use Rattle.model.specs.SoundBlocks.{sound_blocks};
ghost use Rattle.model.specs.Blocks.{confirmations, unnamed, held_in};
ghost use Rattle.book.specs.Writing.{fitted};
ghost use Rattle.book.specs.Deals.{dealt};
ghost use Rattle.declarations.specs.Declared.{Declared};

use crate::confirming::{close_up, write_confirmed};
use book::Dealt;
use held::forms::all_formed;
use held::standing::{fits_hours, is_in_arrival};
use limits::places::has_places;
use model::{Blocks, CONFIRMING_FROM, Day, Declaration, MOST_PLACES, Trade};
use partners::find_partners;

// Room for the partner of each place, in a function of its own, so that no proof looks into its numbers.
fn partner_room() -> [u64; MOST_PLACES]
    ensures { result ≡ replicate 4_096 0 }
{
    [0; MOST_PLACES]
}

// The confirmations are found, and written nowhere.
fn count_with(rows: &[Declaration], partner: &mut [u64]) -> usize
    requires declared { Declared rows.now }
    requires partner_len { length partner.old ≡ length rows.now }
    ensures { result ≡ length (confirmations rows.now) }
{
    find_partners(rows, partner);
    let found = write_confirmed(rows, &mut [], partner);
    found.made
}

// How many confirmations 15:00 would bring.
pub fn count_confirmed(rows: &[Declaration]) -> usize
    requires { Declared rows.now }
    ensures { result ≡ length (confirmations rows.now) }
{
    let n = rows.len();
    let mut partner = partner_room();
    count_with(rows, &mut partner[..n])
}

// Whether there are 1 to 4,096 places, and the declarations at them are sound.
#[tactic(auto, using(held::proofs::Formed::declared, held::proofs::Formed::some_places, crate::proofs::Confirmed::none_due), unfolding(model::specs::SoundBlocks::sound_blocks, model::specs::Clock::confirming_from))]
pub fn blocks_sound(d: Day, rows: &[Declaration]) -> bool
    requires close_value { is_price d.close ≡ true }
    requires d_value { blocks_fit d ≡ true }
    ensures { result ≡ (has_places rows.now && sound_blocks d rows.now) }
{
    has_places(rows)
        && all_formed(d, rows)
        && is_in_arrival(rows)
        && fits_hours(d.time, rows)
        && (d.time < CONFIRMING_FROM || count_confirmed(rows) == 0)
}

// The trades are written, and those confirmed leave at once.
fn confirm_with(rows: &mut [Declaration], trades: &mut [Trade], partner: &mut [u64]) -> Dealt
    requires declared { Declared rows.old }
    requires partner_len { length partner.old ≡ length rows.old }
    ensures value { result ≡ dealt (confirmations rows.old) }
    ensures trades_after { trades.new ≡ fitted (confirmations rows.old) trades.old }
    ensures rows_after { rows.new ≡ held_in (length rows.old) (unnamed (confirmations rows.old) rows.old) }
{
    find_partners(rows, partner);
    let found = write_confirmed(rows, trades, partner);
    close_up(rows, partner);
    found
}

// 15:00: lower buyer first, the earliest that fits is the partner. All are counted, and as many are written as the list holds.
pub fn confirm_all(rows: &mut [Declaration], trades: &mut [Trade]) -> Dealt
    requires { Declared rows.old }
    ensures value { result ≡ dealt (confirmations rows.old) }
    ensures trades_after { trades.new ≡ fitted (confirmations rows.old) trades.old }
    ensures rows_after { rows.new ≡ held_in (length rows.old) (unnamed (confirmations rows.old) rows.old) }
{
    let n = rows.len();
    let mut partner = partner_room();
    confirm_with(rows, trades, &mut partner[..n])
}

// Confirmed shares are kept in a field of their own.
#[tactic(auto, unfolding(model::specs::Figures::tally_blocks, model::specs::Figures::with_block_figures))]
pub fn tally_blocks(d: Day, shares: u64) -> Day
    requires { d.blocks.shares + shares < 2 ^ 64 }
    ensures { (ts : List Trade) → filled ts ≡ shares → result ≡ tally_blocks ts d }
{
    Day {
        blocks: Blocks {
            shares: d.blocks.shares + shares,
            ..d.blocks
        },
        ..d
    }
}
