// A day file: the events of a day in blocks of 512 bytes. What it means is defined in specs/.
#![tactic(auto)]

ghost use Rattle.std.specs.Prelude.{◌≡◌};
ghost use Rattle.day_files.specs.Files.{count_file};

use file_blocks::reading::read_block;
use file_blocks::{BLOCK_BYTES, WRONG_LAYOUT};

// How many records a file has, or its first refusal.
pub fn count_records(file: &[u8]) -> Result<usize, u64>
    ensures { result ≡ count_file file.now }
{
    let whole = file.len() / BLOCK_BYTES;
    let mut total: usize = 0;
    for done in 0..whole {
        let at = BLOCK_BYTES * done;
        total += read_block(&file[at..at + BLOCK_BYTES], done + 1, whole)?;
    }
    if BLOCK_BYTES * whole < file.len() {
        return Err(WRONG_LAYOUT);
    }
    Ok(total)
}
