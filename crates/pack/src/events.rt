// One event more: its record goes into the block that fills, and a full block into the output.
ghost use Rattle.std.specs.Prelude.{◌≡◌, false, [], ◌∷◌, ◌+◌, ◌≤◌, length};
ghost use Rattle.file_records.specs.Records.{is_wide};
ghost use Rattle.pack.specs.Promises.{Stores};

use file_blocks::BLOCK_BYTES;
use file_blocks::writing::{add_record, clear, close};
use model::Event;
use octets::put_bytes;

// Stores an event after so many records; answers the place after the block that it may have filled.
pub fn store(e: Event, records: u64, block: &mut [u8], out: &mut [u8], at: usize) -> usize
    requires { (length block.old ≡ 512) × (at + 512 ≤ length out.old) × (is_wide e ≡ false) }
    ensures { Stores (e ∷ []) records block.old out.old at block.new out.new result }
{
    let count = (records % 25) as usize;
    add_record(&mut *block, count, e);
    if count < 24 {
        return at;
    }
    close(&mut *block, records / 25 + 1, 25);
    put_bytes(out, at, block);
    clear(block);
    at + BLOCK_BYTES
}
