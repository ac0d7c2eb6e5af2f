// What a line asks for: a letter, and numbers, each after one space.
#![tactic(auto)]

mod line_forms;

ghost use Rattle.std.specs.Prelude.{◌≡◌};
ghost use Rattle.model.specs.Lines.{bare, number_of, words_of, numbers_of, command_of, line_command};
ghost use Rattle.parsing.specs.Words.{found, phrase_with, phrase_in, line_phrase};

pub use line_forms::Form;
use model::{Asked, Command, Event};

// The longest line that is taken, without its newline.
pub const LONGEST_LINE: usize = 79;

// The greatest number of a line.
const GREATEST: u64 = 4_294_967_295;

// No extra leading zero: a 0 in front stands alone.
#[tactic(auto, unfolding(model::specs::Lines::bare))]
fn is_bare(word: &[u8]) -> bool
    ensures { result ≡ bare word.now }
{
    match word {
        [] => false,
        [_] => true,
        [first, ..] => *first != b'0',
    }
}

// A decimal up to 4,294,967,295, if the word is one.
fn number_of(word: &[u8]) -> Option<u64>
    ensures { result ≡ found (number_of word.now) }
{
    if !is_bare(word) {
        return None;
    }
    let mut value: u64 = 0;
    for b in word {
        if !b.is_ascii_digit() {
            return None;
        }
        value = 10 * value + u64::from(*b - b'0');
        if GREATEST < value {
            return None;
        }
    }
    Some(value)
}

// A letter wants its own count of numbers.
#[tactic(auto, unfolding(model::specs::Lines::command_of))]
pub fn asked_for(letter: u8, numbers: &[u64]) -> Command
    ensures { result ≡ command_of letter numbers.now }
{
    match (letter, numbers) {
        (b'T', [time]) => Command::Asks(Event::Clock(*time)),
        (b'D', [close, mark]) => Command::Asks(Event::Open {
            close: *close,
            mark: *mark,
        }),
        (b'C', [account, number]) => Command::Asks(Event::Cancel {
            account: *account,
            number: *number,
        }),
        (b'O', [side, kind, account, quantity, price, balance]) => {
            Command::Asks(Event::Order(Asked {
                side: *side,
                kind: *kind,
                account: *account,
                quantity: *quantity,
                price: *price,
                balance: *balance,
            }))
        }
        _ => Command::Malformed,
    }
}

// A letter with the numbers of a text of words, each a number; no line wants a seventh.
fn numbered(letter: u8, words: &[u8]) -> Option<Form>
    ensures { phrase_in result ≡ phrase_with letter (numbers_of (words_of words.now)) }
{
    let mut values = [0; 6];
    let mut count = 0;
    for word in words.split(|b| *b == b' ') {
        let number = number_of(word)?;
        if count == values.len() {
            return None;
        }
        values[count] = number;
        count += 1;
    }
    Some(Form {
        letter,
        count,
        values,
    })
}

// A line by its form, if it is of one: its bytes without the newline, and whether it had one.
pub fn form_of(line: &[u8], ended: bool) -> Option<Form>
    ensures { phrase_in result ≡ line_phrase (record { text = line.now; ended = ended }) }
{
    if !ended || LONGEST_LINE < line.len() {
        return None;
    }
    let (letter, after) = line.split_first()?;
    if *letter == b' ' {
        return None;
    }
    match after.split_first() {
        None => Some(Form {
            letter: *letter,
            count: 0,
            values: [0; 6],
        }),
        Some((b' ', words)) => numbered(*letter, words),
        Some(_) => None,
    }
}

// What a line asks for.
pub fn command_of(line: &[u8], ended: bool) -> Command
    ensures { result ≡ line_command (record { text = line.now; ended = ended }) }
{
    match form_of(line, ended) {
        Some(form) => asked_for(form.letter, &form.values[..form.count]),
        None => Command::Malformed,
    }
}
