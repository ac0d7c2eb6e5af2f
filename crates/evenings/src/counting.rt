// The trades of a move over all lists, counted before anything is written.
ghost use Rattle.std.specs.Prelude.{◌≡◌, ◌≤◌, ltb, length};
ghost use Rattle.model.specs.AllCalls.{moved_on, move_trades};
ghost use Rattle.book.specs.Books.{books_of};
ghost use Rattle.declarations.specs.Declared.{Declared};
ghost use Rattle.fixed_book.specs.Ready.{Lined};
ghost use Rattle.soundness.specs.Ready.{Ready};
ghost use Rattle.evenings.specs.Counts.{confirmed_ahead, matched_ahead};

use blocks::count_confirmed;
use fixed_book::deal_at_close;
use foreseen::foresee;
use model::{CONFIRMING_FROM, Day, Declaration, MATCHING_FROM, Order};
use moves::stops::passes;

// The blocks that it confirms.
fn confirmed_ahead(blocks: &[Declaration], old: u64, new: u64) -> usize
    requires { Declared blocks.now }
    ensures value { result ≡ confirmed_ahead old new blocks.now }
    ensures upper_bound { result ≤ 4_096 }
{
    if !passes(CONFIRMING_FROM, old, new) {
        return 0;
    }
    count_confirmed(blocks)
}

// The fixed-price trades that it has, at this close: a list of none takes no trade, and all are counted.
fn matched_ahead(fixed: &[Order], close: u64, old: u64, new: u64) -> usize
    requires { Lined fixed.now }
    ensures value { result ≡ matched_ahead close old new fixed.now }
    ensures upper_bound { result ≤ 4_096 }
{
    if !passes(MATCHING_FROM, old, new) {
        return 0;
    }
    let counted = deal_at_close(fixed, &mut [], close);
    counted.made
}

// Whether they outnumber so many places.
pub fn lacks_places(
    d: Day,
    main: &[Order],
    fixed: &[Order],
    blocks: &[Declaration],
    places: usize,
    time: u64,
) -> bool
    requires ready { Ready d main.now }
    requires lined { Lined fixed.now }
    requires declared { Declared blocks.now }
    requires time_le_time { d.time ≤ time }
    ensures { result ≡ ltb places (length (move_trades (moved_on d time (books_of main.now fixed.now blocks.now)))) }
{
    let ahead = foresee(d, main, time);
    let confirmed = confirmed_ahead(blocks, d.time, time);
    let matched = matched_ahead(fixed, ahead.close, d.time, time);
    places < ahead.trades + confirmed + matched
}
