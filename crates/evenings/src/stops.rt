// What is due after the close: at 15:00 blocks are confirmed, at 15:05 the fixed-price orders match, and at 15:30 what is left of both
// lapses, each where the move passes that second.
ghost use Rattle.std.specs.Prelude.{◌≡◌, List, true, not, ◌+◌, ◌≤◌, length};
ghost use Rattle.model.specs.Lists.{keep};
ghost use Rattle.model.specs.Figures.{close_price};
ghost use Rattle.model.specs.FixedBook.{is_void, matches};
ghost use Rattle.model.specs.Blocks.{confirmations};
ghost use Rattle.model.specs.AfterClose.{After, confirm_all, match_all, end_all};
ghost use Rattle.model.proofs.Evening.{due};
ghost use Rattle.declarations.specs.Declared.{Declared};
ghost use Rattle.fixed_book.specs.Ready.{Lined};
ghost use Rattle.moves.specs.Stops as seconds;
ghost use Rattle.evenings.specs.Stage.{Stage, Unconfirmed, Unmatched, Spacious, Threefold};
ghost use Rattle.model.specs.declared.Order.{Order};
ghost use Rattle.model.specs.declared.Trade.{Trade};
ghost use Rattle.model.specs.declared.Declaration.{Declaration};

use crate::Evening;
use blocks::{confirm_all, tally_blocks};
use book::settling::clear_rows;
use declarations::clear_held;
use figures::reference_of;
use fixed_book::{deal_at_close, resting_of, settle_at_close, tally_fixed};
use model::{CONFIRMING_FROM, DAY_END, Declaration, MATCHING_FROM, Order, Trade};
use moves::stops::passes;

// 15:00, after the closing auction's trades.
pub fn at_three(
    e: Evening,
    old: u64,
    new: u64,
    blocks: &mut [Declaration],
    trades: &mut [Trade],
) -> Evening
    requires declared { Declared blocks.old }
    requires shares_bound { e.day.blocks.shares ≤ 50_000_000_000_000 }
    requires made_in_bounds { e.made ≤ length trades.old }
    requires blocks_in_bounds { seconds.passes 54_000 old new ≡ true → e.made + length (confirmations blocks.old) ≤ length trades.old }
    ensures threefold { Threefold e result.day result.made old new blocks.old }
    ensures stage { (h : After) (lent : List Trade) (line : List Order) → Unconfirmed h → Stage h lent e line blocks.old trades.old → Stage (due 54_000 confirm_all old new h) lent result line blocks.new trades.new }
{
    if !passes(CONFIRMING_FROM, old, new) {
        return e;
    }
    let made = e.made;
    let dealt = confirm_all(&mut *blocks, &mut trades[made..]);
    let mut then = e;
    then.day = tally_blocks(e.day, dealt.shares);
    then.made = made + dealt.made;
    then.confirmed = dealt.made;
    then
}

// 15:05: void orders leave, and the others match in order of arrival at the close.
pub fn at_five_past(
    e: Evening,
    old: u64,
    new: u64,
    fixed: &mut [Order],
    trades: &mut [Trade],
) -> Evening
    requires lined { Lined fixed.old }
    requires spacious { Spacious e.day }
    requires made_in_bounds { e.made ≤ length trades.old }
    requires fixed_in_bounds { seconds.passes 54_300 old new ≡ true → e.made + length (matches (close_price e.day) (keep (λ o. not (is_void (close_price e.day) o)) fixed.old)) ≤ length trades.old }
    ensures lined_2 { Lined fixed.new }
    ensures stage { (h : After) (lent : List Trade) (places : List Declaration) → Unmatched h → Stage h lent e fixed.old places trades.old → Stage (due 54_300 match_all old new h) lent result fixed.new places trades.new }
{
    if !passes(MATCHING_FROM, old, new) {
        return e;
    }
    let close = reference_of(e.day);
    let made = e.made;
    let dealt = deal_at_close(fixed, &mut trades[made..], close);
    let void = settle_at_close(&mut *fixed, close, dealt.shares);
    let mut then = e;
    then.day = tally_fixed(e.day, close, dealt.shares);
    then.made = made + dealt.made;
    then.fixed = dealt.made;
    then.void = void;
    then
}

// 15:30: what is left of both lapses.
pub fn at_end(
    e: Evening,
    old: u64,
    new: u64,
    fixed: &mut [Order],
    blocks: &mut [Declaration],
) -> Evening
    requires { Lined fixed.old }
    ensures { (h : After) (lent trades : List Trade) → Stage h lent e fixed.old blocks.old trades → Stage (due 55_800 end_all old new h) lent result fixed.new blocks.new trades }
{
    if !passes(DAY_END, old, new) {
        return e;
    }
    let lapsed = resting_of(fixed);
    clear_rows(&mut *fixed);
    clear_held(&mut *blocks);
    let mut then = e;
    then.lapsed = lapsed;
    then
}
