// The desk of ./floor: what each of its lines is answered with, from the open day and the claims that are noted.
#![tactic(auto)]

pub mod answering;
pub mod asking;

use desk::Desk;

// What a question leaves: how many claims are noted, and the place after the text that was put.
#[derive(Clone, Copy)]
pub struct Told {
    pub noted: usize,
    pub next: usize,
}

// What an answer leaves: the desk, how many claims are noted, and the place after the text that was put.
#[derive(Clone, Copy)]
pub struct FloorAnswered {
    pub desk: Desk,
    pub noted: usize,
    pub next: usize,
}
