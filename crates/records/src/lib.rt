// Numbers, days, orders, declarations and trades as bytes, lists of them, and replies.
#![tactic(auto)]

pub mod blocks;
pub mod buffers;
pub mod days;
pub mod in_bytes;
pub mod lists;
pub mod numbers;
pub mod rooms;

// How many bytes each of them has.
pub const NUMBER_BYTES: usize = 8;

pub const DAY_BYTES: usize = 352;

pub const ORDER_BYTES: usize = 40;

pub const DECLARATION_BYTES: usize = 56;

pub const TRADE_BYTES: usize = 48;
