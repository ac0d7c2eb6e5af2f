// The two calls that work on all lists of a day: its opening, and a move of the clock.
ghost use Rattle.std.specs.Prelude.{◌≡◌, ◌&&◌};
ghost use Rattle.model.specs.Limits.{is_price};
ghost use Rattle.model.specs.Sound.{is_mark, has_places};
ghost use Rattle.day.specs.Promises.{OpenAllPromise, ClockAllPromise};

use blocks::blocks_sound;
use book::settling::clear_rows;
use declarations::clear_held;
use evenings::moving::{clock_all_sound, move_refused};
use figures::fresh_day;
use fixed_book::fixed_sound;
use limits::is_price;
use limits::places::has_places;
use model::{Day, Declaration, MOST_PLACES, MoveAnswer, OpenReply, Order, Trade};
use soundness::is_sound;

// Previous close, mark and the places of each list are what a day can have.
fn may_open_all(
    main: &[Order],
    fixed: &[Order],
    blocks: &[Declaration],
    close: u64,
    mark: u64,
) -> bool
    ensures { result ≡ (is_price close && is_mark mark && has_places main.now && has_places fixed.now && has_places blocks.now) }
{
    if !is_price(close) {
        return false;
    }
    if 1 < mark {
        return false;
    }
    if !has_places(main) {
        return false;
    }
    if !has_places(fixed) {
        return false;
    }
    1 <= blocks.len() && blocks.len() <= MOST_PLACES
}

// Every place of every list is made free. An opening reads nothing of the old day.
pub fn open_all_call(
    main: &mut [Order],
    fixed: &mut [Order],
    blocks: &mut [Declaration],
    close: u64,
    mark: u64,
) -> OpenReply
    ensures { OpenAllPromise main.old fixed.old blocks.old close mark result main.new fixed.new blocks.new }
{
    if !may_open_all(main, fixed, blocks, close, mark) {
        return OpenReply::Refused(14);
    }
    clear_rows(&mut *main);
    clear_rows(&mut *fixed);
    clear_held(&mut *blocks);
    OpenReply::Opened(fresh_day(close, mark))
}

// 15 where the day or one of the lists is not sound, else what a move does on a sound day.
pub fn clock_all_call(
    d: Day,
    main: &mut [Order],
    fixed: &mut [Order],
    blocks: &mut [Declaration],
    trades: &mut [Trade],
    time: u64,
) -> MoveAnswer
    ensures { ClockAllPromise d main.old fixed.old blocks.old trades.old time result main.new fixed.new blocks.new trades.new }
{
    if !is_sound(d, main) {
        return move_refused(d, 15);
    }
    if !fixed_sound(d, fixed) {
        return move_refused(d, 15);
    }
    if !blocks_sound(d, blocks) {
        return move_refused(d, 15);
    }
    clock_all_sound(d, main, fixed, blocks, trades, time)
}
