// One block written: its records one after the other, then its number, their count and the check.
ghost use Rattle.std.specs.Prelude.{◌≡◌, false, ◌+◌, ◌*◌, ◌<◌, length, replicate};
ghost use Rattle.std.proofs.lemmas.List.Edits.{sets};
ghost use Rattle.file_records.specs.Records.{record_bytes, is_wide};
ghost use Rattle.file_blocks.specs.Blocks.{head_bytes, closed};

use crate::reading::check_of;
use file_records::writing::record_of;
use model::Event;
use octets::{last_bytes, put_bytes};

// Puts a record behind the first `count`.
pub fn add_record(block: &mut [u8], count: usize, e: Event)
    requires { (length block.old ≡ 512) × (count < 25) × (is_wide e ≡ false) }
    ensures { block.new ≡ sets block.old (8 + 20 * count) (record_bytes e) }
{
    put_bytes(block, 8 + 20 * count, &record_of(e));
}

fn put_head(block: &mut [u8], number: u64, count: u64)
    requires { length block.old ≡ 512 }
    ensures { block.new ≡ sets block.old 0 (head_bytes number count) }
{
    let n = last_bytes::<4>(number);
    let k = last_bytes::<2>(count);
    put_bytes(block, 0, &[n[0], n[1], n[2], n[3], k[0], k[1], 0, 0]);
}

// Puts its number, the count of its records and the check: the block can be written out.
pub fn close(block: &mut [u8], number: u64, count: u64)
    requires { length block.old ≡ 512 }
    ensures { block.new ≡ closed number count block.old }
{
    put_head(&mut *block, number, count);
    let check = last_bytes::<4>(check_of(block) as u64);
    put_bytes(block, 508, &check);
}

// All zero again.
pub fn clear(block: &mut [u8])
    ensures { block.new ≡ replicate (length block.old) 0 }
{
    block.fill(0);
}
