// A cancel: it takes out the live order with that number and account, and nothing else, and updates the screen.
ghost use Rattle.std.specs.Prelude.{◌≡◌, false, []};
ghost use Rattle.model.specs.Refusals.{unsound};
ghost use Rattle.model.specs.Screen.{update};
ghost use Rattle.model.specs.Calls.{cancel_call};
ghost use Rattle.book.specs.Standing.{Ranked};
ghost use Rattle.figures.specs.Figures.{Publishable};
ghost use Rattle.book.specs.Promises.{cancel_left, cancel_refused};

use book::places::place_of;
use book::settling::take_out;
use clock::takes_cancels;
use model::{CancelAnswer, CancelReply, Day, Order};
use screens::update_screen;

pub fn cancel_refused(d: Day, n: u64) -> CancelAnswer
    ensures { result ≡ cancel_refused d n }
{
    CancelAnswer {
        reply: CancelReply::Refused(n),
        day: d,
    }
}

// The day after a cancel, which trades nothing.
fn day_without(d: Day, rows: &[Order]) -> Day
    requires ranked { Ranked rows.now }
    requires publishable { Publishable d }
    ensures { result ≡ update [] rows.now d }
{
    update_screen(d, rows, &[], 0)
}

// On a day that its caller has shown to be sound: it is not tested again.
pub fn cancel_sound(d: Day, rows: &mut [Order], account: u64, number: u64) -> CancelAnswer
    requires { unsound d rows.old ≡ false }
    ensures { cancel_left result rows.new ≡ cancel_call d account number rows.old }
{
    // 4: the phase takes no cancel
    if !takes_cancels(d.time) {
        return cancel_refused(d, 4);
    }
    // 12: no live order has this number and account
    let Some(place) = place_of(rows, account, number) else {
        return cancel_refused(d, 12);
    };
    let own = rows[place];
    take_out(rows, place);
    CancelAnswer {
        reply: CancelReply::Withdrawn(own.left),
        day: day_without(d, rows),
    }
}
