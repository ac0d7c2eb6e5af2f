// A declaration of a block trade, on rows of memory. It takes any input and any state, and promises the definitions' outcome: its
// answer, and the final content of every lent list. The main book is only read.
#![tactic(auto)]

ghost use Rattle.std.specs.Prelude.{◌≡◌, false, List};
ghost use Rattle.model.specs.declared.Order.{Order};
ghost use Rattle.model.specs.Refusals.{unsound};
ghost use Rattle.model.specs.BlockCalls.{block_call};
ghost use Rattle.book.specs.Promises.{block_left};
ghost use Rattle.blocks.specs.Ready.{BlocksReady};
ghost use Rattle.block_entries.specs.Entries.{Taken};
ghost use Rattle.block_calls.specs.Promises.{BlockPromise};
ghost use Rattle.model.specs.Book.{free};

use block_entries::checks::asked_refusal;
use block_entries::entries::{block_refused, confirm, declaration_of, hold};
use blocks::blocks_sound;
use held::entering::{count_held, earliest_fit};
use model::{
    AskedBlock, BlockAnswer, CONFIRMING_FROM, Day, Declaration, LAST_NUMBER, Order, Trade,
};
use soundness::is_sound;

// A declaration that no rule refuses before the lent list is looked at: until 15:00 it is only held, and from then on where it fits
// nobody.
fn enter(
    d: Day,
    rows: &mut [Declaration],
    trades: &mut [Trade],
    a: AskedBlock,
    free: usize,
) -> BlockAnswer
    requires blocks_ready { BlocksReady d rows.old }
    requires taken { Taken d a rows.old free }
    ensures { (main : List Order) → unsound d main ≡ false → block_left result rows.new trades.new ≡ block_call d a main rows.old trades.old }
{
    let x = declaration_of(d, a);
    if d.time < CONFIRMING_FROM {
        return hold(d, &mut *rows, free, x);
    }
    let Some(place) = earliest_fit(rows, x) else {
        return hold(d, &mut *rows, free, x);
    };
    // 13: the lent list has no place for its confirmation
    if trades.len() == 0 {
        return block_refused(d, 13);
    }
    confirm(d, &mut *rows, &mut *trades, place, x)
}

// On a day and with declarations that its caller has shown to be sound: they are not tested again.
pub fn declare_sound(
    d: Day,
    rows: &mut [Declaration],
    trades: &mut [Trade],
    a: AskedBlock,
) -> BlockAnswer
    requires { BlocksReady d rows.old }
    ensures { (main : List Order) → unsound d main ≡ false → block_left result rows.new trades.new ≡ block_call d a main rows.old trades.old }
{
    let refusal = asked_refusal(d, a);
    if refusal != 0 {
        return block_refused(d, refusal);
    }
    // 10: no place is free
    let free = count_held(rows);
    if rows.len() <= free {
        return block_refused(d, 10);
    }
    // 11: no number is left
    if d.blocks.issued == LAST_NUMBER {
        return block_refused(d, 11);
    }
    enter(d, &mut *rows, &mut *trades, a, free)
}

pub fn declare_call(
    d: Day,
    main: &[Order],
    rows: &mut [Declaration],
    trades: &mut [Trade],
    a: AskedBlock,
) -> BlockAnswer
    ensures { BlockPromise d main.now rows.old trades.old a result rows.new trades.new }
{
    // 15: the day is not sound, or the declarations are not
    if !is_sound(d, main) {
        return block_refused(d, 15);
    }
    if !blocks_sound(d, rows) {
        return block_refused(d, 15);
    }
    declare_sound(d, &mut *rows, &mut *trades, a)
}
