// The stops of the clock: the seconds at which something is due, and the first of them that a move passes.
ghost use Rattle.std.specs.Prelude.{◌≡◌};
ghost use Rattle.moves.specs.Stops as stops;

// 9:25 and 15:00 are stops on every day.
pub const OPENING_AUCTION: u64 = 33_900;

const STOPS: [u64; 2] = [33_900, 54_000];

// A second is passed when the old time is below it and the new time isn't.
#[tactic(auto, unfolding(crate::specs::Stops::passes))]
pub fn passes(second: u64, old: u64, new: u64) -> bool
    ensures { result ≡ stops.passes second old new }
{
    old < second && second <= new
}

// A second where it is passed and comes before the next stop so far, 0 where there is none.
#[tactic(auto, unfolding(crate::specs::Stops::sooner))]
fn sooner(old: u64, new: u64, second: u64, next: u64) -> u64
    ensures { result ≡ stops.sooner old new second next }
{
    if passes(second, old, new) && (next == 0 || second < next) {
        second
    } else {
        next
    }
}

// The first of these seconds on the way from the old to the new time; 0 where there is none.
fn first_passed(seconds: &[u64], old: u64, new: u64) -> u64
    ensures { result ≡ stops.first_passed old new seconds.now }
{
    seconds
        .iter()
        .rev()
        .fold(0, |next, second| sooner(old, new, *second, next))
}

// The first stop on the way from the old to the new time, the end of a halt among them; 0 where there is none.
#[tactic(auto, unfolding(crate::specs::Stops::next_stop, crate::specs::Stops::stops, crate::specs::Stops::first_passed))]
pub fn next_stop(halt: u64, old: u64, new: u64) -> u64
    ensures { result ≡ stops.next_stop halt old new }
{
    sooner(old, new, halt, first_passed(&STOPS, old, new))
}
