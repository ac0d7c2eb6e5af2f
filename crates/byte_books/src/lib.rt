// The calls that make no trade, on the bytes of a day and a book, two and two as one: an opening and a cancel, which change day and
// book, and the report and the price list, which change nothing.
#![tactic(auto)]

pub mod changing;
pub mod reading;

use day::auctions::Listing;
use model::{CancelAnswer, OpenReply, ReportReply};

#[derive(Clone, Copy)]
pub enum BookAsked {
    Open { close: u64, mark: u64 },
    Cancel { account: u64, number: u64 },
}

#[derive(Clone, Copy)]
pub enum BookReply {
    Open(OpenReply),
    Cancel(CancelAnswer),
}

// The price list is for so many places.
#[derive(Clone, Copy)]
pub enum ReadAsked {
    Report,
    List { places: usize, asked: u64 },
}

#[derive(Clone, Copy)]
pub enum ReadReply {
    Report(ReportReply),
    List(Listing),
}
