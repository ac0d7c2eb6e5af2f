// The front of a day file: the blocks before the first refused one. What that is, of a whole file and from its middle on, is
// defined in specs/.
#![tactic(auto)]

ghost use Rattle.std.specs.Prelude.{◌+◌, ◌*◌, ◌≤◌, length};
ghost use Rattle.fronts.specs.Looking.{Looks};

use file_blocks::BLOCK_BYTES;
use file_blocks::reading::read_block;

// How many blocks are good, how many records they have, and the first refusal, if there is one.
#[derive(Clone, Copy)]
pub struct Looked {
    pub good: usize,
    pub records: usize,
    pub refusal: Option<u64>,
}

// Looks at so many blocks, from a place on, of a file that has so many whole ones.
pub fn look(file: &[u8], whole: usize, blocks: usize, place: usize) -> Looked
    requires { (512 * blocks ≤ length file.now) × (place + blocks ≤ 9_223_372_036_854_775_808) }
    ensures { Looks whole blocks place file.now result }
{
    let mut records: usize = 0;
    for good in 0..blocks {
        let at = BLOCK_BYTES * good;
        match read_block(&file[at..at + BLOCK_BYTES], place + good, whole) {
            Ok(count) => records += count,
            Err(refusal) => {
                return Looked {
                    good,
                    records,
                    refusal: Some(refusal),
                };
            }
        }
    }
    Looked {
        good: blocks,
        records,
        refusal: None,
    }
}
