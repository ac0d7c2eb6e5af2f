// An order and a move of the clock, the two calls that trade, as one call on the bytes of a day, a book and a trade list.
#![tactic(auto)]

pub mod trading;

use model::{Asked, ClockReply, Day, Order, OrderReply};

#[derive(Clone, Copy)]
pub enum TradeAsked {
    Order(Asked),
    Clock(u64),
}

#[derive(Clone, Copy)]
pub enum TradeReply {
    Order(OrderReply),
    Clock(ClockReply),
}

// What a call that trades hands back: its reply, how many trades it made, and the day as it is now.
#[derive(Clone, Copy)]
pub struct TradeAnswer {
    pub reply: TradeReply,
    pub made: usize,
    pub day: Day,
}
