// A caller that knows nothing but the promise: an opening with close 0 is refused with 14. That it is, is proved from what the call
// promises.
#![tactic(auto)]

ghost use Rattle.std.specs.Prelude.{◌≡◌};
ghost use Rattle.first_calls.specs.Refusal.{open_refusal};

use book::places::free_place;
use model::OpenReply;

fn open_refusal(r: OpenReply) -> u64
    ensures { result ≡ open_refusal r }
{
    match r {
        OpenReply::Refused(n) => n,
        OpenReply::Opened(_) => 0,
    }
}

fn main() {
    let mut rows = [free_place(); 2];
    let opened = day::opening::open_call(&mut rows, 0, 1);
    let refused = open_refusal(opened) == 14;
    prove!(refused);
}
