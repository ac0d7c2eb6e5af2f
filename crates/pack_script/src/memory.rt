// The memory that the program lends. Of all but the block only the lengths matter.
ghost use Rattle.std.specs.Prelude.{◌≡◌, [], length};
ghost use Rattle.file_blocks.specs.Blocks.{filling};

// The blocks that the lines of a chunk of 4,096 bytes can fill.
const OUTPUT: usize = 84_480;

// A line for each byte of a chunk.
const NOTES: usize = 180_224;

pub fn block() -> [u8; 512]
    ensures { result ≡ filling [] }
{
    [0; 512]
}

pub fn output() -> [u8; OUTPUT]
    ensures { 84480 ≡ length result }
{
    [0; OUTPUT]
}

pub fn notes() -> [u8; NOTES]
    ensures { 180224 ≡ length result }
{
    [0; NOTES]
}
