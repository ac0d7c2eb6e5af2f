// A day file unpacked into a script, block by block.
#![tactic(auto)]

ghost use Rattle.std.specs.Prelude.{◌≡◌, ◌+◌, ◌-◌, ◌*◌, ◌/◌, ◌≤◌, ◌<◌, length, take, drop};
ghost use Rattle.printing.specs.Printing.{Wrote};
ghost use Rattle.octets.specs.Numbers.{parts};
ghost use Rattle.file_records.specs.Records.{event_in};
ghost use Rattle.file_scripts.specs.Scripts.{script_of};
ghost use Rattle.fronts.specs.Good.{front_from, look_from};
ghost use Rattle.unpack.specs.Unpacking.{told_refusal};
ghost use Rattle.unpack.specs.Promises.{Puts, Gives};

use file_blocks::reading::read_block;
use file_blocks::{BLOCK_BYTES, WRONG_LAYOUT};
use file_records::reading::event_at;
use file_scripts::put_event;
use printing::put_reply;

// How far blocks are unpacked: how many are good, the place after their lines, and the first refusal, if there is one.
#[derive(Clone, Copy)]
pub struct Unpacking {
    pub good: usize,
    pub next: usize,
    pub refusal: Option<u64>,
}

// The lines of a block's first n records.
fn put_records(block: &[u8], n: usize, out: &mut [u8], at: usize) -> usize
    requires { (length block.now ≡ 512) × (n ≤ 25) × (at + 128 * n ≤ length out.old) }
    ensures { Wrote out.old at (script_of (parts (λ b. event_in (take 20 b)) 20 n (drop 8 block.now))) out.new result }
{
    let mut p = at;
    for i in 0..n {
        p = put_event(event_at(block, 8 + 20 * i), out, p);
    }
    p
}

// Unpacks so many blocks, from a place on, of a file that has so many whole ones; stops at the first that is refused.
pub fn unpack_blocks(
    file: &[u8],
    whole: usize,
    blocks: usize,
    place: usize,
    out: &mut [u8],
) -> Unpacking
    requires { (512 * blocks ≤ length file.now) × (place + blocks ≤ 9_223_372_036_854_775_808) × (3_200 * blocks ≤ length out.old) }
    ensures { Puts whole blocks place file.now out.old result out.new }
{
    let mut next: usize = 0;
    for good in 0..blocks {
        let at = BLOCK_BYTES * good;
        let block = &file[at..at + BLOCK_BYTES];
        match read_block(block, place + good, whole) {
            Ok(count) => next = put_records(block, count, &mut *out, next),
            Err(refusal) => {
                return Unpacking {
                    good,
                    next,
                    refusal: Some(refusal),
                };
            }
        }
    }
    Unpacking {
        good: blocks,
        next,
        refusal: None,
    }
}

// Tells a refusal, if there is one, with the block's place.
pub fn put_refused(refusal: Option<u64>, place: u64, said: &mut [u8]) -> usize
    requires { 44 ≤ length said.old }
    ensures { Wrote said.old 0 (told_refusal refusal place) said.new result }
{
    match refusal {
        None => 0,
        Some(n) => put_reply(b'X', &[n, place], said, 0),
    }
}

// How many of the first blocks a whole block follows.
pub fn followed(bytes: usize) -> usize
    ensures { result ≡ bytes / 512 - 1 }
{
    (bytes / BLOCK_BYTES).saturating_sub(1)
}

// Unpacks a part of a file, behind the blocks that have passed: the blocks that a whole block follows.
pub fn unpack_part(file: &[u8], passed: usize, out: &mut [u8]) -> Unpacking
    requires { (passed + length file.now < 9_223_372_036_854_775_808) × (3_200 * (length file.now / 512) ≤ length out.old) }
    ensures { Gives (look_from passed file.now) file.now out.old result out.new }
{
    let blocks = followed(file.len());
    unpack_blocks(file, 0, blocks, passed + 1, out)
}

// Unpacks the rest of a file, behind the blocks that have passed: all its blocks, and then its tail is refused.
pub fn unpack_rest(file: &[u8], passed: usize, out: &mut [u8]) -> Unpacking
    requires { (passed + length file.now < 9_223_372_036_854_775_808) × (3_200 * (length file.now / 512) ≤ length out.old) }
    ensures { Gives (front_from passed file.now) file.now out.old result out.new }
{
    let blocks = file.len() / BLOCK_BYTES;
    let done = unpack_blocks(file, passed + blocks, blocks, passed + 1, out);
    if done.refusal.is_some() || file.len() <= BLOCK_BYTES * blocks {
        return done;
    }
    Unpacking {
        refusal: Some(WRONG_LAYOUT),
        ..done
    }
}
