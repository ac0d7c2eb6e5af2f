// A day file read: it writes the list of records and the reply, and only reads the file.
ghost use Rattle.wire.specs.Files.{ReadFilePromise};

use file_lists::{found_numbers, list_records};
use records::buffers::put_reply;

pub fn flemorix_read_file(file: &[u8], records: &mut [u8], reply: &mut [u8]) -> u64
    ensures { ReadFilePromise file.now records.old reply.old result records.new reply.new }
{
    let row = found_numbers(list_records(file, records));
    put_reply(reply, &row[..])
}
