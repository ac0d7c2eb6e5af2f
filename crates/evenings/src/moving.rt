// A move of the clock over all lists: the main book's move, what is due after the close, and the answer.
ghost use Rattle.std.specs.Prelude.{◌≡◌, List, false, ◌+◌, ◌≤◌, length};
ghost use Rattle.model.specs.Figures.{close_price, at};
ghost use Rattle.model.specs.Refusals.{first_of, unsound, unsound_fixed, unsound_blocks};
ghost use Rattle.model.specs.AfterClose.{After, confirm_all, match_all, end_all};
ghost use Rattle.model.specs.AllCalls.{moved_on, move_trades, clock_all_rules, clock_all_call};
ghost use Rattle.model.proofs.Evening.{due};
ghost use Rattle.book.specs.Books.{books_of};
ghost use Rattle.book.specs.Standing.{Ranked};
ghost use Rattle.book.specs.Promises.{clock_all_left, move_refused};
ghost use Rattle.figures.specs.Figures.{Publishable};
ghost use Rattle.declarations.specs.Declared.{Declared};
ghost use Rattle.fixed_book.specs.Ready.{Lined};
ghost use Rattle.evenings.specs.Counts.{confirmed_ahead, matched_ahead};
ghost use Rattle.evenings.specs.Stage.{Stage, Unconfirmed, Spacious, Movable, answered};
ghost use Rattle.model.specs.declared.Trade.{Trade};

use crate::Evening;
use crate::counting::lacks_places;
use crate::stops::{at_end, at_five_past, at_three};
use clock::{phase_now, row_at};
use figures::day_at;
use model::{Day, Declaration, LAST_SECOND, Move, MoveAnswer, MoveReply, Order, Trade};
use moves::moving::pass_stops;
use screens::update_screen;

// The three seconds, in time order.
fn after_close(
    e: Evening,
    old: u64,
    new: u64,
    fixed: &mut [Order],
    blocks: &mut [Declaration],
    trades: &mut [Trade],
) -> Evening
    requires lined { Lined fixed.old }
    requires declared { Declared blocks.old }
    requires shares_bound { e.day.blocks.shares ≤ 50_000_000_000_000 }
    requires spacious { Spacious e.day }
    requires fixed_in_bounds { e.made + confirmed_ahead old new blocks.old + matched_ahead (close_price e.day) old new fixed.old ≤ length trades.old }
    ensures { (h : After) (lent : List Trade) → Unconfirmed h → Stage h lent e fixed.old blocks.old trades.old → Stage (due 55_800 end_all old new (due 54_300 match_all old new (due 54_000 confirm_all old new h))) lent result fixed.new blocks.new trades.new }
{
    let confirmed = at_three(e, old, new, &mut *blocks, &mut *trades);
    let matched = at_five_past(confirmed, old, new, &mut *fixed, &mut *trades);
    at_end(matched, old, new, fixed, blocks)
}

// The answer: the first of the trades are those of the main book's auctions.
fn answer_of(e: Evening, main: &[Order], trades: &[Trade], auctions: usize, time: u64) -> MoveAnswer
    requires ranked { Ranked main.now }
    requires auctions_in_bounds { auctions ≤ length trades.now }
    requires publishable { Publishable (at time e.day) }
    ensures { result ≡ answered e main.now trades.now auctions time }
{
    let then = day_at(e.day, time);
    let day = update_screen(then, main, trades, auctions);
    let done = Move {
        phase: phase_now(then, row_at(time)),
        trades: auctions,
        confirmed: e.confirmed,
        fixed: e.fixed,
        void: e.void,
        lapsed: e.lapsed,
    };
    MoveAnswer {
        reply: MoveReply::Moved(done),
        made: e.made,
        day,
    }
}

pub fn move_refused(d: Day, n: u64) -> MoveAnswer
    ensures { result ≡ move_refused d n }
{
    MoveAnswer {
        reply: MoveReply::Refused(n),
        made: 0,
        day: d,
    }
}

// A move that no rule refuses.
fn move_lists(
    d: Day,
    main: &mut [Order],
    fixed: &mut [Order],
    blocks: &mut [Declaration],
    trades: &mut [Trade],
    time: u64,
) -> MoveAnswer
    requires movable { Movable d main.old fixed.old blocks.old time }
    requires blocks_in_bounds { length (move_trades (moved_on d time (books_of main.old fixed.old blocks.old))) ≤ length trades.old }
    ensures { (0 ≡ first_of (clock_all_rules d time (books_of main.old fixed.old blocks.old) (length trades.old))) → clock_all_left result main.new fixed.new blocks.new trades.new ≡ clock_all_call d time (books_of main.old fixed.old blocks.old) trades.old }
{
    let passage = pass_stops(d, &mut *main, &mut *trades, time);
    let auctions = passage.made;
    let day = passage.day;
    let begun = Evening {
        day,
        made: auctions,
        confirmed: 0,
        fixed: 0,
        void: 0,
        lapsed: 0,
    };
    let done = after_close(begun, d.time, time, &mut *fixed, &mut *blocks, &mut *trades);
    answer_of(done, main, trades, auctions, time)
}

// On a day and lists that its caller has shown to be sound: they are not tested again.
pub fn clock_all_sound(
    d: Day,
    main: &mut [Order],
    fixed: &mut [Order],
    blocks: &mut [Declaration],
    trades: &mut [Trade],
    time: u64,
) -> MoveAnswer
    requires main_value { unsound d main.old ≡ false }
    requires fixed_value { unsound_fixed d fixed.old ≡ false }
    requires blocks_value { unsound_blocks d blocks.old ≡ false }
    ensures { clock_all_left result main.new fixed.new blocks.new trades.new ≡ clock_all_call d time (books_of main.old fixed.old blocks.old) trades.old }
{
    // 1: no time, or before the day's time
    if LAST_SECOND < time || time < d.time {
        return move_refused(d, 1);
    }
    // 13: the trades outnumber the lent list
    if lacks_places(d, main, fixed, blocks, trades.len(), time) {
        return move_refused(d, 13);
    }
    move_lists(d, main, fixed, blocks, trades, time)
}
