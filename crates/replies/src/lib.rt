// A reply as its numbers: the refusal's number first, 0 where the call is accepted, then the values. Lines and bytes are written
// from these alone.
#![tactic(auto)]

ghost use Rattle.std.specs.Prelude.{◌≡◌};
ghost use Rattle.model.specs.Replies.{resting_of, withdrawn_of, open_numbers, clock_numbers, move_numbers, order_numbers, block_numbers, cancel_numbers, list_numbers};
ghost use Rattle.replies.specs.Words.{word, signed, report_words};

use model::{
    BlockReply, CancelReply, ClockReply, ListReply, MoveReply, OpenReply, OrderReply, Remainder,
    ReportReply,
};

pub fn open_numbers(told: OpenReply) -> [u64; 1]
    ensures { result ≡ open_numbers told }
{
    match told {
        OpenReply::Refused(n) => [n],
        OpenReply::Opened(_) => [0],
    }
}

pub fn clock_numbers(told: ClockReply) -> [u64; 3]
    ensures { result ≡ clock_numbers told }
{
    match told {
        ClockReply::Refused(n) => [n, 0, 0],
        ClockReply::Moved { phase, trades } => [0, phase, trades as u64],
    }
}

pub fn move_numbers(told: MoveReply) -> [u64; 7]
    ensures { result ≡ move_numbers told }
{
    match told {
        MoveReply::Refused(n) => [n, 0, 0, 0, 0, 0, 0],
        MoveReply::Moved(m) => [
            0,
            m.phase,
            m.trades as u64,
            m.confirmed as u64,
            m.fixed as u64,
            m.void,
            m.lapsed,
        ],
    }
}

// The shares of a remainder that rest, and those that are withdrawn.
fn resting(r: Remainder) -> u64
    ensures { result ≡ resting_of r }
{
    match r {
        Remainder::Nothing => 0,
        Remainder::Rests(q) => q,
        Remainder::Withdrawn(_) => 0,
    }
}

fn withdrawn(r: Remainder) -> u64
    ensures { result ≡ withdrawn_of r }
{
    match r {
        Remainder::Nothing => 0,
        Remainder::Rests(_) => 0,
        Remainder::Withdrawn(q) => q,
    }
}

pub fn order_numbers(told: OrderReply) -> [u64; 6]
    ensures { result ≡ order_numbers told }
{
    match told {
        OrderReply::Refused(n) => [n, 0, 0, 0, 0, 0],
        OrderReply::Accepted(e) => {
            let rest = e.remainder;
            [
                0,
                e.number,
                e.filled,
                resting(rest),
                withdrawn(rest),
                e.levels,
            ]
        }
    }
}

pub fn block_numbers(told: BlockReply) -> [u64; 3]
    ensures { result ≡ block_numbers told }
{
    match told {
        BlockReply::Refused(n) => [n, 0, 0],
        BlockReply::Held(number) => [0, number, 0],
        BlockReply::Confirmed(number) => [0, number, 1],
    }
}

pub fn cancel_numbers(told: CancelReply) -> [u64; 2]
    ensures { result ≡ cancel_numbers told }
{
    match told {
        CancelReply::Refused(n) => [n, 0],
        CancelReply::Withdrawn(q) => [0, q],
    }
}

pub fn list_numbers(told: ListReply) -> [u64; 3]
    ensures { result ≡ list_numbers told }
{
    match told {
        ListReply::Refused(n) => [n, 0, 0],
        ListReply::Listed { count, next } => [0, count as u64, next],
    }
}

// A number with a sign as 64 bits, in two's complement.
pub fn word_of(z: i64) -> u64
    ensures { result ≡ word z }
{
    if z < 0 {
        let below = (-1) - z;
        return 18446744073709551615 - (below as u64);
    }
    z as u64
}

// And back: the upper half is below zero.
pub fn signed_of(x: u64) -> i64
    ensures { result ≡ signed x }
{
    if x < 9223372036854775808 {
        return x as i64;
    }
    let below = (18446744073709551615 - x) as i64;
    (-1) - below
}

// The report's surplus has a sign, so its numbers are words.
pub fn report_numbers(told: ReportReply) -> [u64; 4]
    ensures { result ≡ report_words told }
{
    match told {
        ReportReply::Refused(n) => [n, 0, 0, 0],
        ReportReply::Priced {
            price,
            volume,
            surplus,
        } => [0, price, volume, word_of(surplus)],
    }
}
