// What a line of ./floor asks for: a question of its own, or what ./run reads in it.
#![tactic(auto)]

ghost use Rattle.std.specs.Prelude.{◌≡◌, true};
ghost use Rattle.model.specs.Lines.{command_of};
ghost use Rattle.text.specs.Readers.{asks_after};
ghost use Rattle.floors.specs.Wishes.{question_of, wish_of, line_wish};
ghost use Rattle.wishes.specs.Wishes.{wishes};

use floors::{Question, Wish};
use judge::Claim;
use model::Command;
use parsing::{asked_for, form_of};

// A letter of ./floor's own wants its own count of numbers; any other is for ./run.
#[tactic(auto, unfolding(floors::specs::Wishes::question_of, floors::specs::Wishes::wish_of))]
fn wished(letter: u8, numbers: &[u64]) -> Wish
    ensures { result ≡ wish_of (question_of letter numbers.now) (command_of letter numbers.now) }
{
    match (letter, numbers) {
        (b'R', []) => Wish::Wants(Question::Report),
        (b'S', []) => Wish::Wants(Question::Screen),
        (b'J', [price]) => Wish::Wants(Question::Judge(*price)),
        (b'L', [asked, count]) => Wish::Wants(Question::Prices {
            asked: *asked,
            count: *count,
        }),
        (b'Q', [shares, buyer, seller]) => Wish::Wants(Question::Claims(Claim {
            shares: *shares,
            buyer: *buyer,
            seller: *seller,
        })),
        _ => Wish::Says(asked_for(letter, numbers)),
    }
}

// What a line asks for: its bytes without the newline, and whether it had one.
pub fn wish_of(line: &[u8], ended: bool) -> Wish
    ensures { result ≡ line_wish (record { text = line.now; ended = ended }) }
{
    match form_of(line, ended) {
        Some(form) => wished(form.letter, &form.values[..form.count]),
        None => Wish::Says(Command::Malformed),
    }
}

// What an ended line asks for. `long`: it began before the chunk, and is too long.
pub fn wish_after(line: &[u8], long: bool) -> Wish
    ensures { result ≡ asks_after wishes long (record { text = line.now; ended = true }) }
{
    if long {
        Wish::Says(Command::Malformed)
    } else {
        wish_of(line, true)
    }
}
