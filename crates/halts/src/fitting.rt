// Whether a day's end of a halt and its used thresholds can be: what 15 tests of them.
ghost use Rattle.std.specs.Prelude.{◌≡◌, ◌&&◌};
ghost use Rattle.model.specs.Sound.{is_mark, halt_fits};
ghost use Rattle.halts.specs.Clauses.{end_fits, marks_fit, has_halted, may_halt};

use crate::ends::is_led_to;
use model::Day;

// Each is 0 or 1.
#[tactic(auto, unfolding(model::specs::Sound::is_mark))]
fn are_marks(day: Day) -> bool
    ensures { result ≡ (is_mark day.used30 && is_mark day.used60) }
{
    day.used30 <= 1 && day.used60 <= 1
}

// No end that has come, or that no continuous second so far leads to.
#[tactic(auto, unfolding(crate::specs::Clauses::end_fits, model::specs::Halts::runs))]
fn end_fits(day: Day) -> bool
    ensures { result ≡ end_fits day }
{
    day.halt == 0 || day.time < day.halt && is_led_to(day.halt, day.time)
}

// Not 60% used without 30%, and no end with none used.
#[tactic(auto, unfolding(crate::specs::Clauses::marks_fit, model::specs::Halts::runs, model::specs::Sound::is_used))]
fn marks_fit(day: Day) -> bool
    ensures { result ≡ marks_fit day }
{
    day.used30 == 1 || day.used60 != 1 && day.halt == 0
}

// An end, or a used threshold.
#[tactic(auto, unfolding(crate::specs::Clauses::has_halted, model::specs::Halts::runs, model::specs::Sound::is_used))]
fn has_halted(day: Day) -> bool
    ensures { result ≡ has_halted day }
{
    day.halt != 0 || day.used30 == 1 || day.used60 == 1
}

// Neither on a limited day or with nothing traded.
#[tactic(auto, unfolding(crate::specs::Clauses::may_halt))]
fn may_halt(day: Day) -> bool
    ensures { result ≡ may_halt day }
{
    !has_halted(day) || day.limited != 1 && day.shares != 0
}

#[tactic(auto, using(crate::proofs::Fits::fits_groups))]
pub fn halt_fits(day: Day) -> bool
    ensures { result ≡ halt_fits day }
{
    are_marks(day) && end_fits(day) && marks_fit(day) && may_halt(day)
}
