// The judge's call. What priority grants each order stands on a slate, each claim takes its shares off two places of it, and a list
// of claims is right where it leaves nothing.
#![tactic(auto)]

pub mod calls;
pub mod claims;
pub mod grants;

// How many shares of the volume are left for the buys, and for the sells, as grants are given along a book.
#[derive(Clone, Copy)]
pub struct Volumes {
    pub buys: u64,
    pub sells: u64,
}
