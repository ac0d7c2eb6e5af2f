// A judge for other engines' auctions: the trades that it is told and what it says, of which specs/ has the definition. Its call is in
// crates/judging.
#![tactic(auto)]

ghost use Rattle.std.specs.Prelude.{◌≡◌};
ghost use Rattle.judge.specs.Judging.{verdict_numbers};

// A trade as another engine claims it. Buyer and seller are order numbers.
#[derive(Clone, Copy)]
pub struct Claim {
    pub shares: u64,
    pub buyer: u64,
    pub seller: u64,
}

#[derive(Clone, Copy)]
pub enum Verdict {
    Refused(u64),
    Yes,
    No,
}

// The reply as numbers: the refusal's, 0 where there is a verdict; then 1 for yes, 0 for no.
#[tactic(auto, unfolding(crate::specs::Judging::verdict_numbers))]
pub fn verdict_numbers(told: Verdict) -> [u64; 2]
    ensures { result ≡ verdict_numbers told }
{
    match told {
        Verdict::Refused(n) => [n, 0],
        Verdict::Yes => [0, 1],
        Verdict::No => [0, 0],
    }
}
