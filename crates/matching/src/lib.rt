// Continuous trading: an order meets the other side of the book, best price first, then the earlier number.
#![tactic(auto)]

pub mod entering;
pub mod settling;
pub mod sweeping;

// What a run of trades comes to: how many, the shares filled, how many different prices, and the last price.
#[derive(Clone, Copy)]
pub struct Swept {
    pub trades: usize,
    pub filled: u64,
    pub levels: u64,
    pub last: u64,
}
