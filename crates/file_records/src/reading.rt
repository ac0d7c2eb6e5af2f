// Numbers off bytes, whether 20 bytes are a record, and the event that they tell.
ghost use Rattle.std.specs.Prelude.{◌≡◌, ◌+◌, ◌≤◌, length, take, drop};
ghost use Rattle.file_records.specs.Records.{four_at, used, all_zero, is_record, event_in};

use crate::{CANCEL, CLOCK, OPEN, ORDER};
use model::{Asked, Event};

// The 32-bit number that begins at a place.
pub fn four_at(b: &[u8], at: usize) -> u32
    requires { at + 4 ≤ length b.now }
    ensures { result ≡ four_at b.now at }
{
    u32::from_le_bytes([b[at], b[at + 1], b[at + 2], b[at + 3]])
}

// Whether the bytes from a place up to an end are all zero.
pub fn zero_between(b: &[u8], from: usize, end: usize) -> bool
    requires { end ≤ length b.now }
    ensures { result ≡ all_zero (drop from (take end b.now)) }
{
    b[..end].iter().skip(from).all(|x| *x == 0)
}

// How many of the four numbers a kind uses.
fn used_by(kind: u8) -> usize
    ensures { (result ≡ used kind) × (result ≤ 4) }
{
    match kind {
        CLOCK => 1,
        ORDER => 4,
        _ => 2,
    }
}

// Whether the 20 bytes at a place are a record.
pub fn is_record(b: &[u8], at: usize) -> bool
    requires { at + 20 ≤ length b.now }
    ensures { result ≡ is_record (take 20 (drop at b.now)) }
{
    let kind = b[at];
    OPEN <= kind
        && kind <= CANCEL
        && (kind == ORDER || (b[at + 1] == 0 && b[at + 2] == 0))
        && b[at + 3] == 0
        && zero_between(b, at + 4 + 4 * used_by(kind), at + 20)
}

fn number_at(b: &[u8], at: usize) -> u64
    requires { at + 4 ≤ length b.now }
    ensures { result ≡ four_at b.now at }
{
    u64::from(four_at(b, at))
}

// The event that the record at a place tells.
pub fn event_at(b: &[u8], at: usize) -> Event
    requires { at + 20 ≤ length b.now }
    ensures { result ≡ event_in (take 20 (drop at b.now)) }
{
    let first = number_at(b, at + 4);
    let second = number_at(b, at + 8);
    match b[at] {
        OPEN => Event::Open {
            close: first,
            mark: second,
        },
        CLOCK => Event::Clock(first),
        ORDER => Event::Order(Asked {
            side: u64::from(b[at + 1]),
            kind: u64::from(b[at + 2]),
            account: first,
            quantity: second,
            price: number_at(b, at + 12),
            balance: number_at(b, at + 16),
        }),
        _ => Event::Cancel {
            account: first,
            number: second,
        },
    }
}
