// Events as lines of the rehearsal program: which lines a day file stores, and how an event is written as a line, is defined
// in specs/.
#![tactic(auto)]

ghost use Rattle.std.specs.Prelude.{◌+◌, ◌≤◌, length};
ghost use Rattle.printing.specs.Printing.{Wrote};
ghost use Rattle.file_scripts.specs.Scripts.{event_line};

use model::Event;
use printing::put_reply;

// An event's line, put into the output at a place; answers the place after it.
pub fn put_event(e: Event, out: &mut [u8], at: usize) -> usize
    requires { at + 128 ≤ length out.old }
    ensures { Wrote out.old at (event_line e) out.new result }
{
    match e {
        Event::Open { close, mark } => put_reply(b'D', &[close, mark], out, at),
        Event::Clock(time) => put_reply(b'T', &[time], out, at),
        Event::Order(o) => {
            let numbers = [o.side, o.kind, o.account, o.quantity, o.price, o.balance];
            put_reply(b'O', &numbers, out, at)
        }
        Event::Cancel { account, number } => put_reply(b'C', &[account, number], out, at),
    }
}
