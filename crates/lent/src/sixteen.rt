// A book of sixteen places by value, for code that does not lend: it is handed over with an event, and comes back with the answer,
// or with a question. Whoever calls this needs no proof by hand.
ghost use Rattle.lent.specs.Calls.{EventPromise, QuestionPromise};

use crate::auctions::ask_auction;
use crate::events::take_event;
use crate::{Answer, OnDay, Question, Told};
use model::{Order, Trade};

// What is handed back.
#[derive(Clone, Copy)]
pub struct HandedBack {
    pub book: [Order; 16],
    pub answer: Answer,
}

pub fn take_on_sixteen(book: [Order; 16], trades: &mut [Trade], asked: OnDay) -> HandedBack
    ensures { EventPromise book trades.old asked result.answer result.book trades.new }
{
    let mut places = book;
    let answer = take_event(&mut places, trades, asked);
    HandedBack {
        book: places,
        answer,
    }
}

pub fn ask_on_sixteen(book: [Order; 16], prices: &mut [u64], question: Question) -> Told
    ensures { QuestionPromise book prices.old question result prices.new }
{
    let places = book;
    ask_auction(&places, prices, question)
}
