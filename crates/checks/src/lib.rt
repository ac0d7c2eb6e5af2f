// What an order is refused for on a sound day: what is asked, the book, and the places for its trades.
#![tactic(auto)]

pub mod asked_checks;
pub mod book_checks;
