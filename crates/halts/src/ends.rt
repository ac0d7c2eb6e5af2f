// When a halt ends, and which ends a halt that was begun so far can have.
ghost use Rattle.std.specs.Prelude.{◌≡◌, ◌≤◌};
ghost use Rattle.model.specs.Halts.{halt_end};
ghost use Rattle.model.specs.Sound.{is_led_to};

use clock::phase_at;

const HALT_SECONDS: u64 = 600;

const NOON: u64 = 5;

const AFTER_NOON: u64 = 46_800;

const CLOSING_CALL: u64 = 53_820;

// 600 seconds on; an end after 14:57 moves to 14:57, one in the noon break to 13:00.
#[tactic(auto, unfolding(model::specs::Halts::halt_end))]
pub fn halt_end(second: u64) -> u64
    requires { second ≤ 86_399 }
    ensures { result ≡ halt_end second }
{
    let end = second + HALT_SECONDS;
    if CLOSING_CALL < end {
        CLOSING_CALL
    } else if phase_at(end) == NOON {
        AFTER_NOON
    } else {
        end
    }
}

// Whether some continuous second up to this time leads to this end. No second is looked at: 13:00 is led to from 11:20 on, any other
// end from 600 seconds before it on.
#[tactic(auto, using(crate::proofs::LedTo::led_tested), unfolding(model::proofs::HaltEnds::led_by, model::specs::Sound::between))]
pub fn is_led_to(end: u64, time: u64) -> bool
    ensures { result ≡ is_led_to end time }
{
    match end {
        AFTER_NOON => 40_800 <= time,
        34_800..=41_399 | 47_400..=CLOSING_CALL => end - HALT_SECONDS <= time,
        _ => false,
    }
}
