// The calls by what is asked of a day: an event or a question, on a book lent as a slice of order records.
#![tactic(auto)]

pub mod auctions;
pub mod events;
pub mod sixteen;

use model::{
    CancelAnswer, ClockAnswer, Day, Event, ListReply, OpenReply, OrderAnswer, ReportReply,
};

// An event, with the day that it comes to. An opening reads nothing of an old day.
#[derive(Clone, Copy)]
pub struct OnDay {
    pub day: Day,
    pub event: Event,
}

#[derive(Clone, Copy)]
pub enum Answer {
    Open(OpenReply),
    Clock(ClockAnswer),
    Order(OrderAnswer),
    Cancel(CancelAnswer),
}

// What is asked of an auction held now: its report, or its prices from one on. Neither changes anything but the lent price list.
#[derive(Clone, Copy)]
pub enum Question {
    Report(Day),
    List { day: Day, asked: u64 },
}

#[derive(Clone, Copy)]
pub enum Told {
    Report(ReportReply),
    List(ListReply),
}
