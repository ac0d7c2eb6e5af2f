// The records of a day file as one list in lent memory. What it means is defined in specs/.
#![tactic(auto)]

ghost use Rattle.std.specs.Prelude.{◌≡◌, ◌*◌, ◌/◌, ◌≤◌, length};
ghost use Rattle.model.specs.Lists.{from};
ghost use Rattle.octets.specs.Numbers.{flat};
ghost use Rattle.records.specs.Layout.{over};
ghost use Rattle.day_files.specs.Files.{read_file, count_file};
ghost use Rattle.file_lists.specs.Lists.{record_at, listed_from, found_numbers};

use day_files::count_records;
use octets::put_bytes;

const RECORD_BYTES: usize = 20;

// Copies the file's first records to the list's front: 25 stand in each block of 512 bytes, from its byte 8 on.
fn copy_records(file: &[u8], list: &mut [u8], count: usize)
    requires { (count ≤ 25 * (length file.now / 512)) × (20 * count ≤ length list.old) }
    ensures { list.new ≡ over (flat (record_at file.now) (from 0 count)) list.old }
{
    for i in 0..count {
        let at = 512 * (i / 25) + 8 + 20 * (i % 25);
        put_bytes(&mut *list, RECORD_BYTES * i, &file[at..at + RECORD_BYTES]);
    }
}

// Reads a file and writes its records to the list's front, as many whole ones as fit. Nothing is written before the whole file has passed.
pub fn list_records(file: &[u8], list: &mut [u8]) -> Result<usize, u64>
    ensures { (result ≡ count_file file.now) × (list.new ≡ listed_from (read_file file.now) list.old) }
{
    let found = count_records(file);
    let count = found.unwrap_or(0).min(list.len() / RECORD_BYTES);
    copy_records(file, list, count);
    found
}

// The numbers of a reply that tells what was found.
pub fn found_numbers(found: Result<usize, u64>) -> [u64; 2]
    ensures { result ≡ found_numbers found }
{
    match found {
        Ok(count) => [0, count as u64],
        Err(number) => [number, 0],
    }
}
