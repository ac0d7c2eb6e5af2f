// The line that has not ended: it starts, gets a byte more, and is an order of five numbers or not.
ghost use Rattle.std.specs.Prelude.{true, ◌≡◌, ◌<◌, ◌≤◌, length, MatchOption, [], ◌∷◌, ◌++◌};
ghost use Rattle.convert.specs.Converting.{taken_as_five};
ghost use Rattle.convert.specs.Chunkwise.{remembered};
ghost use Rattle.convert.specs.Promises.{text_of, is_order};

use crate::Pending;
use arrayvec::ArrayVec;
use model::{Command, Event};
use parsing::{LONGEST_LINE, command_of};

#[tactic(auto, unfolding(crate::specs::Promises::is_order))]
fn is_order(c: Command) -> bool
    ensures { result ≡ is_order c }
{
    matches!(c, Command::Asks(Event::Order(_)))
}

// A line with balance 0 after it, if a line may be so long.
fn with_balance(line: &[u8]) -> Option<ArrayVec<u8, LONGEST_LINE>>
    ensures { MatchOption result (77 < length line.now) (λ v. (v.items ≡ line.now ++ (32 ∷ 48 ∷ [])) × (length line.now ≤ 77)) }
{
    let mut longer = ArrayVec::new();
    longer.try_extend_from_slice(line).ok()?;
    longer.try_extend_from_slice(b" 0").ok()?;
    Some(longer)
}

impl Pending {
    pub fn new() -> Self
        ensures { text_of result ≡ [] }
    {
        Pending {
            bytes: [0; 80],
            kept: 0,
        }
    }

    // The line has ended, and the next one starts.
    pub fn clear(&mut self)
        ensures { text_of self.new ≡ [] }
    {
        self.kept = 0;
    }

    pub fn push(&mut self, b: u8)
        ensures { text_of self.new ≡ remembered (text_of self.old ++ (b ∷ [])) }
    {
        if self.kept < self.bytes.len() {
            self.bytes[self.kept] = b;
            self.kept += 1;
        }
    }

    // Whether the line, at its newline, is an order of five numbers: with balance 0 after them it is an order.
    pub fn is_five(&self) -> bool
        ensures { result ≡ taken_as_five (record { text = text_of self.now; ended = true }) }
    {
        match with_balance(&self.bytes[..self.kept.min(80)]) {
            Some(line) => is_order(command_of(&line, true)),
            None => false,
        }
    }
}
