// The clock: a constant table of boundary seconds, phase and two permissions, looked up by time; and the phase of a day, in which a
// halt may run.
#![tactic(auto)]

ghost use Rattle.std.specs.Prelude.{◌≡◌};
ghost use Rattle.model.specs.Clock.{row_at, phase_at, takes_cancels};
ghost use Rattle.model.specs.Halts.{phase_now};

use model::{CONTINUOUS, Day, HALTED, Row};

const ROWS: [Row; 9] = [
    Row {
        start: 0,
        phase: 0,
        orders: false,
        cancels: false,
    },
    Row {
        start: 33_300,
        phase: 1,
        orders: true,
        cancels: true,
    },
    Row {
        start: 33_600,
        phase: 2,
        orders: true,
        cancels: false,
    },
    Row {
        start: 33_900,
        phase: 3,
        orders: false,
        cancels: false,
    },
    Row {
        start: 34_200,
        phase: 4,
        orders: true,
        cancels: true,
    },
    Row {
        start: 41_400,
        phase: 5,
        orders: false,
        cancels: false,
    },
    Row {
        start: 46_800,
        phase: 4,
        orders: true,
        cancels: true,
    },
    Row {
        start: 53_820,
        phase: 6,
        orders: true,
        cancels: false,
    },
    Row {
        start: 54_000,
        phase: 0,
        orders: false,
        cancels: false,
    },
];

// The row that holds at a second: the last one that has begun.
pub fn row_at(time: u64) -> Row
    ensures { result ≡ row_at time }
{
    let mut held = ROWS[0];
    for next in &ROWS[1..] {
        if time < next.start {
            break;
        }
        held = *next;
    }
    held
}

#[tactic(auto, unfolding(model::specs::Clock::phase_at))]
pub fn phase_at(time: u64) -> u64
    ensures { result ≡ phase_at time }
{
    row_at(time).phase
}

#[tactic(auto, unfolding(model::specs::Clock::takes_cancels))]
pub fn takes_cancels(time: u64) -> bool
    ensures { result ≡ takes_cancels time }
{
    row_at(time).cancels
}

// The phase of a day whose row of the clock is handed in: in continuous trading another one while a halt runs.
#[tactic(auto, unfolding(model::specs::Clock::phase_at, model::specs::Clock::continuous, model::specs::Halts::runs, model::specs::Halts::phase_now))]
pub fn phase_now(day: Day, row: Row) -> u64
    requires { row ≡ row_at day.time }
    ensures { result ≡ phase_now day }
{
    if row.phase == CONTINUOUS && day.halt != 0 {
        HALTED
    } else {
        row.phase
    }
}
