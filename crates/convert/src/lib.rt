// The converter of old scripts: it adds balance 0 to each order line of five numbers, and copies every other byte.
#![tactic(auto)]

pub mod chunks;
pub mod lines;

// The line that has not ended: its bytes so far, the first `kept`, of which 80 are enough to know that it is no order. An array with a
// count, as a vector would not be Copy; and any count is taken, where one above 80 means all of them.
#[derive(Clone, Copy)]
pub struct Pending {
    pub bytes: [u8; 80],
    pub kept: usize,
}
