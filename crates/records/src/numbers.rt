// Numbers as bytes: eight each, least byte first.
ghost use Rattle.std.specs.Prelude.{◌≡◌, ◌+◌, ◌*◌, ◌≤◌, length, drop};
ghost use Rattle.std.proofs.lemmas.List.Edits.{sets};
ghost use Rattle.octets.specs.Numbers.{digits};
ghost use Rattle.records.specs.Layout.{number_in, numbers, bytes, over};
ghost use Rattle.model.specs.Lists.{from};

use crate::NUMBER_BYTES;
use octets::put_bytes;

// The number at a place.
pub fn number_at(b: &[u8], at: usize) -> u64
    requires { at + 8 ≤ length b.now }
    ensures { result ≡ number_in (drop at b.now) }
{
    let mut bytes = [0; NUMBER_BYTES];
    bytes.copy_from_slice(&b[at..at + NUMBER_BYTES]);
    u64::from_le_bytes(bytes)
}

// Fills the list with the numbers from a place on.
pub fn read_numbers(b: &[u8], at: usize, list: &mut [u64])
    requires { at + 8 * length list.old ≤ length b.now }
    ensures { list.new ≡ numbers (length list.old) (drop at b.now) }
{
    for (i, number) in list.iter_mut().enumerate() {
        *number = number_at(b, at + NUMBER_BYTES * i);
    }
}

pub fn put_number(b: &mut [u8], at: usize, x: u64)
    requires { at + 8 ≤ length b.old }
    ensures { b.new ≡ sets b.old at (digits 8 x) }
{
    put_bytes(b, at, &x.to_le_bytes());
}

// Writes the list's numbers from a place on.
pub fn put_numbers(b: &mut [u8], at: usize, list: &[u64])
    requires { at + 8 * length list.now ≤ length b.old }
    ensures { b.new ≡ sets b.old at (bytes list.now) }
{
    for (i, x) in list.iter().enumerate() {
        put_number(&mut *b, at + NUMBER_BYTES * i, *x);
    }
}

// Puts first, first + 1 and so on, so many of them, at the bytes' front.
pub fn put_run(b: &mut [u8], first: u64, count: usize)
    requires { (8 * count ≤ length b.old) × (first + count ≤ 1_000_000) }
    ensures { b.new ≡ over (bytes (from first count)) b.old }
{
    for i in 0..count {
        put_number(&mut *b, NUMBER_BYTES * i, first + i as u64);
    }
}
