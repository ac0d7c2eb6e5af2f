// The lines of a chunk packed one after the other, and the end of a script.
ghost use Rattle.std.specs.Prelude.{◌≡◌, false, List, [], ◌∷◌, ◌++◌, ◌+◌, ◌*◌, ◌/◌, ◌≤◌, length};
ghost use Rattle.model.specs.Lines.{reply};
ghost use Rattle.printing.specs.Printing.{Wrote};
ghost use Rattle.model.specs.declared.Event.{Event};
ghost use Rattle.file_scripts.specs.Scripts.{told_from};
ghost use Rattle.pack.specs.Packing.{last_block};
ghost use Rattle.pack.specs.Chunkwise.{left_asks};
ghost use Rattle.pack.specs.Promises.{Holds, start_of, left_out, stored_then, Packs, PacksChunk};

use crate::Packing;
use crate::events::store;
use file_blocks::BLOCK_BYTES;
use file_blocks::writing::close;
use file_records::writing::is_wide;
use model::Command;
use octets::put_bytes;
use printing::put_reply;
use text::Carry;
use text::reading::{is_left, next_command};

// Tells why a line is not stored.
fn tell(why: u64, line: u64, said: &mut [u8], at: usize) -> usize
    requires { at + 44 ≤ length said.old }
    ensures { Wrote said.old at (reply 88 (why ∷ line ∷ [])) said.new result }
{
    put_reply(b'X', &[why, line], said, at)
}

// Past a line that is not stored.
fn left_out(p: Packing, place: usize, told: usize) -> Packing
    requires { p.line ≤ 9_223_372_036_854_775_808 }
    ensures { result ≡ left_out p place told }
{
    Packing {
        line: p.line + 1,
        at: place,
        long: false,
        told,
        ..p
    }
}

// Past a line that is stored.
fn stored(p: Packing, place: usize, filed: usize) -> Packing
    requires { (p.line ≤ 9_223_372_036_854_775_808) × (p.records ≤ 9_223_372_036_854_775_808) }
    ensures { result ≡ stored_then p place filed }
{
    Packing {
        records: p.records + 1,
        line: p.line + 1,
        at: place,
        long: false,
        filed,
        ..p
    }
}

// Packs what a line asks for, and goes on at a place.
fn pack_command(
    p: Packing,
    command: Command,
    place: usize,
    block: &mut [u8],
    out: &mut [u8],
    said: &mut [u8],
) -> Packing
    requires { (length block.old ≡ 512) × (p.filed + 512 ≤ length out.old) × (p.told + 44 ≤ length said.old) × (p.line ≤ 9_223_372_036_854_775_808) × (p.records ≤ 9_223_372_036_854_775_808) }
    ensures { Packs (command ∷ []) p block.old out.old said.old result block.new out.new said.new × (result.at ≡ place) × (result.long ≡ false) }
{
    let Command::Asks(event) = command else {
        let told = tell(16, p.line, said, p.told);
        return left_out(p, place, told);
    };
    if is_wide(event) {
        let told = tell(27, p.line, said, p.told);
        return left_out(p, place, told);
    }
    let filed = store(event, p.records, block, out, p.filed);
    stored(p, place, filed)
}

// Packs the lines that end in a chunk. `long`: its first line began before the chunk, and is too long.
pub fn pack_lines(
    records: u64,
    line: u64,
    long: bool,
    chunk: &[u8],
    block: &mut [u8],
    out: &mut [u8],
    said: &mut [u8],
) -> Packing
    requires { (length block.old ≡ 512) × (512 * (length chunk.now / 25 + 2) ≤ length out.old) × (44 * length chunk.now ≤ length said.old) × (line + length chunk.now ≤ 9_223_372_036_854_775_808) × (records + length chunk.now ≤ 9_223_372_036_854_775_808) }
    ensures { PacksChunk chunk.now (start_of records line long) block.old out.old said.old result block.new out.new said.new }
{
    let mut p = Packing {
        records,
        line,
        at: 0,
        long,
        filed: 0,
        told: 0,
    };
    loop {
        let Some(next) = next_command(chunk, p.at, p.long) else {
            return p;
        };
        p = pack_command(
            p,
            next.command,
            next.place,
            &mut *block,
            &mut *out,
            &mut *said,
        );
    }
}

// At the end, the events that wait have a block of their own; answers its bytes.
pub fn put_last(records: u64, block: &mut [u8], out: &mut [u8]) -> usize
    requires { (length block.old ≡ 512) × (512 ≤ length out.old) }
    ensures { (es : List Event) → Holds es records block.old → Wrote out.old 0 (last_block es) out.new result }
{
    let count = records % 25;
    if count == 0 {
        return 0;
    }
    close(&mut *block, records / 25 + 1, count);
    put_bytes(out, 0, block);
    BLOCK_BYTES
}

// A line that is left is unended, and so it is malformed.
fn put_left(carry: Carry, line: u64, said: &mut [u8]) -> usize
    requires { 44 ≤ length said.old }
    ensures { Wrote said.old 0 (told_from line (left_asks carry)) said.new result }
{
    if is_left(carry) {
        return tell(16, line, said, 0);
    }
    0
}

// What is told at the end: a line that is left, and how many records there are.
pub fn put_end(carry: Carry, line: u64, records: u64, said: &mut [u8]) -> usize
    requires { 88 ≤ length said.old }
    ensures { Wrote said.old 0 (told_from line (left_asks carry) ++ reply 75 (records ∷ [])) said.new result }
{
    let at = put_left(carry, line, said);
    put_reply(b'K', &[records], said, at)
}
