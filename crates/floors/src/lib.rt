// The lines of ./floor: the questions that it takes beside the lines of ./run. What they mean is defined in specs/.
#![tactic(auto)]

use judge::Claim;
use model::Command;

// How many claims are noted at most, and how many prices a line lists at most.
pub const MOST_CLAIMS: usize = 4_096;

pub const MOST_LISTED: usize = 4_096;

// A question about the open day: the auction report, the price list from a price on, a trade that another engine claims, the
// verdict on the claims that are noted, and the public screen.
#[derive(Clone, Copy)]
pub enum Question {
    Report,
    Prices { asked: u64, count: u64 },
    Claims(Claim),
    Judge(u64),
    Screen,
}

// What a line asks for: what ./run reads in it, or a question.
#[derive(Clone, Copy)]
pub enum Wish {
    Says(Command),
    Wants(Question),
}
