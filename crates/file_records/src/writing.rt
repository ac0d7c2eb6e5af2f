// An event written as a record of 20 bytes.
ghost use Rattle.std.specs.Prelude.{◌≡◌, false, get_or};
ghost use Rattle.file_records.specs.Records as Records;
ghost use Rattle.file_records.specs.Records.{record_bytes, is_wide};

use crate::{CANCEL, CLOCK, OPEN, ORDER};
use model::Event;
use octets::last_bytes;

// Whether a side or an order kind is above 255, so that no record holds it.
pub fn is_wide(e: Event) -> bool
    ensures { result ≡ is_wide e }
{
    match e {
        Event::Order(o) => 255 < o.side || 255 < o.kind,
        _ => false,
    }
}

fn row(kind: u8, side: u8, order: u8, v: [u64; 4]) -> [u8; 20]
    ensures { result ≡ Records.row kind side order (get_or v 0 0) (get_or v 1 0) (get_or v 2 0) (get_or v 3 0) }
{
    let a = last_bytes::<4>(v[0]);
    let b = last_bytes::<4>(v[1]);
    let c = last_bytes::<4>(v[2]);
    let d = last_bytes::<4>(v[3]);
    [
        kind, side, order, 0, a[0], a[1], a[2], a[3], b[0], b[1], b[2], b[3], c[0], c[1], c[2],
        c[3], d[0], d[1], d[2], d[3],
    ]
}

// An event's record.
pub fn record_of(e: Event) -> [u8; 20]
    requires { is_wide e ≡ false }
    ensures { result ≡ record_bytes e }
{
    match e {
        Event::Open { close, mark } => row(OPEN, 0, 0, [close, mark, 0, 0]),
        Event::Clock(time) => row(CLOCK, 0, 0, [time, 0, 0, 0]),
        Event::Order(o) => {
            let numbers = [o.account, o.quantity, o.price, o.balance];
            row(ORDER, o.side as u8, o.kind as u8, numbers)
        }
        Event::Cancel { account, number } => row(CANCEL, 0, 0, [account, number, 0, 0]),
    }
}
