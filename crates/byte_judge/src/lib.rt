// The judge on the bytes of a book and of a list of claims. A list may be longer than any array here, so its claims are read one by
// one as they are taken off the slate.
#![tactic(auto)]

pub mod calls;
pub mod claims;

// How many bytes a claim has.
pub const CLAIM_BYTES: usize = 24;
