// One block read: its check, its layout, and its tests in order.
ghost use Rattle.std.specs.Prelude.{◌≡◌, ◌≤◌, length, take, drop};
ghost use Rattle.model.specs.Lists.{all};
ghost use Rattle.octets.specs.Numbers.{parts};
ghost use Rattle.file_records.specs.Records.{is_record};
ghost use Rattle.file_blocks.specs.Blocks.{check_of, records_in, own_layout, right_check, read_block};

use crate::{BLOCK_BYTES, WRONG_CHECK, WRONG_LAYOUT, WRONG_NUMBER};
use file_records::reading::{four_at, is_record, zero_between};

// The sum of position times byte over the first 508 bytes, positions from 1, modulo 65,521.
pub fn check_of(block: &[u8]) -> usize
    requires { length block.now ≡ 512 }
    ensures { result ≡ check_of block.now }
{
    let mut sum: usize = 0;
    for (i, byte) in block[..508].iter().enumerate() {
        sum += (i + 1) * usize::from(*byte);
    }
    sum % 65521
}

pub fn right_check(block: &[u8]) -> bool
    requires { length block.now ≡ 512 }
    ensures { result ≡ right_check block.now }
{
    four_at(block, 508) as usize == check_of(block)
}

// How many records the block says that it has.
pub fn records_in(block: &[u8]) -> usize
    requires { length block.now ≡ 512 }
    ensures { result ≡ records_in block.now }
{
    usize::from(u16::from_le_bytes([block[4], block[5]]))
}

// Whether each of the first n places holds a record.
fn are_records(block: &[u8], n: usize) -> bool
    requires { (length block.now ≡ 512) × (n ≤ 25) }
    ensures { result ≡ all is_record (parts (take 20) 20 n (drop 8 block.now)) }
{
    for i in 0..n {
        if !is_record(block, 8 + 20 * i) {
            return false;
        }
    }
    true
}

// Whether the block keeps the layout, by itself.
pub fn own_layout(block: &[u8]) -> bool
    requires { length block.now ≡ 512 }
    ensures { result ≡ own_layout block.now }
{
    let n = records_in(block);
    1 <= n
        && n <= 25
        && block[6] == 0
        && block[7] == 0
        && are_records(block, n)
        && zero_between(block, 8 + 20 * n, 508)
}

// The block at a place, counted from 1, of a file with so many whole blocks: how many records it has, or its first refusal.
// Only the last whole block may have fewer than 25.
pub fn read_block(block: &[u8], place: usize, whole: usize) -> Result<usize, u64>
    ensures { result ≡ read_block whole place block.now }
{
    if block.len() != BLOCK_BYTES {
        return Err(WRONG_LAYOUT);
    }
    if !right_check(block) {
        return Err(WRONG_CHECK);
    }
    if four_at(block, 0) as usize != place {
        return Err(WRONG_NUMBER);
    }
    let n = records_in(block);
    if own_layout(block) && (place == whole || n == 25) {
        return Ok(n);
    }
    Err(WRONG_LAYOUT)
}
