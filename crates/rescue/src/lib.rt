// The rescue of a damaged day file: each block from the first refused one on, as a line. What it means is defined in specs/.
#![tactic(auto)]

ghost use Rattle.std.specs.Prelude.{◌≡◌, [], ◌∷◌, ◌++◌, ◌+◌, ◌*◌, ◌/◌, ◌≤◌, length};
ghost use Rattle.model.specs.Lines.{reply};
ghost use Rattle.octets.specs.Numbers.{flat};
ghost use Rattle.printing.specs.Printing.{Wrote};
ghost use Rattle.rescue.specs.Rescue.{list_from};
ghost use Rattle.rescue.specs.Chunkwise.{list_line, blocks_listed, tail_listed};
ghost use Rattle.rescue.specs.Marks.{Tells};

use file_blocks::BLOCK_BYTES;
use file_blocks::reading::{own_layout, right_check};
use file_records::reading::four_at;
use printing::put_reply;

// One block's line, put at a place: whether its own check and layout are sound, and its number.
fn put_block(block: &[u8], place: u64, said: &mut [u8], at: usize) -> usize
    requires { (length block.now ≡ 512) × (at + 65 ≤ length said.old) }
    ensures { Wrote said.old at (flat list_line (blocks_listed 1 place block.now)) said.new result }
{
    let sound = right_check(block) && own_layout(block);
    let number = u64::from(four_at(block, 0));
    put_reply(b'B', &[place, u64::from(sound), number], said, at)
}

// The lines of so many blocks, from a place on.
pub fn list_blocks(file: &[u8], blocks: usize, place: u64, said: &mut [u8]) -> usize
    requires { (512 * blocks ≤ length file.now) × (place + blocks ≤ 9_223_372_036_854_775_808) × (65 * blocks ≤ length said.old) }
    ensures { Tells (flat list_line (blocks_listed blocks place file.now)) said.old said.new result }
{
    let mut p: usize = 0;
    for i in 0..blocks {
        let at = BLOCK_BYTES * i;
        let block = &file[at..at + BLOCK_BYTES];
        p = put_block(block, place + i as u64, &mut *said, p);
    }
    p
}

// The line of a tail of so many bytes, if there is one: it is not sound, and has no number.
fn put_tail(bytes: usize, place: u64, said: &mut [u8], at: usize) -> usize
    requires { at + 65 ≤ length said.old }
    ensures { Wrote said.old at (flat list_line (tail_listed bytes place)) said.new result }
{
    if bytes == 0 {
        return at;
    }
    put_reply(b'B', &[place, 0, 0], said, at)
}

// What is told at the end: the rest of the file, from a place on, and how many records were kept.
pub fn list_rest(file: &[u8], place: u64, records: u64, said: &mut [u8]) -> usize
    requires { (place + length file.now ≤ 9_223_372_036_854_775_808) × (65 * (length file.now / 512 + 2) ≤ length said.old) }
    ensures { Tells (flat list_line (list_from (length file.now / 512) place file.now) ++ reply 75 (records ∷ [])) said.old said.new result }
{
    let blocks = file.len() / BLOCK_BYTES;
    let p = list_blocks(file, blocks, place, &mut *said);
    let tail = file.len() % BLOCK_BYTES;
    let q = put_tail(tail, place + blocks as u64, &mut *said, p);
    put_reply(b'K', &[records], said, q)
}
