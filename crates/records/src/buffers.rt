// A reply in its buffer: its numbers, as many whole ones as the buffer holds.
ghost use Rattle.std.specs.Prelude.{◌≡◌, ◌<◌, length};
ghost use Rattle.records.specs.Layout.{returned, replied};

use crate::NUMBER_BYTES;
use crate::numbers::put_numbers;

// The first number is also what a call returns: the refusal's, 0 where it is accepted.
pub fn put_reply(reply: &mut [u8], list: &[u64]) -> u64
    requires { 0 < length list.now }
    ensures { (result ≡ returned list.now) × (reply.new ≡ replied list.now reply.old) }
{
    let n = (reply.len() / NUMBER_BYTES).min(list.len());
    put_numbers(reply, 0, &list[..n]);
    list[0]
}
