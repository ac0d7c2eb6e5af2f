// The calls on rows of memory. Each takes any input and any state, and promises the definitions' outcome: its reply, the
// day, and the final content of every lent list.
#![tactic(auto)]

pub mod all;
pub mod auctions;
pub mod events;
pub mod opening;
