// Document 01's session on a book of sixteen order records. Each reply is printed as the rehearsal program prints it; besides, the
// book after the orders of the opening call with the auction's report and prices then, before the cancels, and at the end.
#![tactic(auto)]

mod showing;

ghost use Rattle.std.specs.Prelude.{◌≡◌};
ghost use Rattle.lent.specs.Calls.{call_of};
ghost use Rattle.sixteen_places.specs.Lists.{no_trades};

use book::no_trade;
use book::places::free_place;
use figures::fresh_day;
use lent::sixteen::{ask_on_sixteen, take_on_sixteen};
use lent::{Answer, OnDay, Question};
use model::{Asked, Day, Event, OpenReply, Order};
use showing::{print_answer, print_book, print_told};
use std::io::Write;

// The day and its book.
#[derive(Clone, Copy)]
pub struct Stand {
    pub day: Day,
    pub book: [Order; 16],
}

// The day as an answer leaves it.
fn day_after(day: Day, answer: Answer) -> Day {
    match answer {
        Answer::Open(reply) => match reply {
            OpenReply::Refused(_) => day,
            OpenReply::Opened(fresh) => fresh,
        },
        Answer::Clock(moved) => moved.day,
        Answer::Order(entered) => entered.day,
        Answer::Cancel(withdrawn) => withdrawn.day,
    }
}

// One event: it is answered, the answer is printed, and day and book are those after it.
fn step<W: Write>(output: &mut W, s: Stand, event: Event) -> Stand
    ensures { result.book ≡ (call_of event s.day s.book no_trades).book }
{
    let mut trades = [no_trade(); 16];
    let day = s.day;
    let book = s.book;
    let handed = take_on_sixteen(book, &mut trades, OnDay { day, event });
    let answer = handed.answer;
    print_answer(output, event, answer, &trades);
    let after = handed.book;
    Stand {
        day: day_after(s.day, answer),
        book: after,
    }
}

fn open<W: Write>(output: &mut W, s: Stand, close: u64, mark: u64) -> Stand {
    step(output, s, Event::Open { close, mark })
}

fn clock<W: Write>(output: &mut W, s: Stand, time: u64) -> Stand {
    step(output, s, Event::Clock(time))
}

fn order<W: Write>(output: &mut W, s: Stand, asked: Asked) -> Stand {
    step(output, s, Event::Order(asked))
}

fn cancel<W: Write>(output: &mut W, s: Stand, account: u64, number: u64) -> Stand {
    step(output, s, Event::Cancel { account, number })
}

// What an auction held now would do, with room for eight prices.
fn ask<W: Write>(output: &mut W, s: Stand, question: Question) {
    let mut prices = [0u64; 8];
    let book = s.book;
    let told = ask_on_sixteen(book, &mut prices, question);
    print_told(output, told, &prices);
}

fn report<W: Write>(output: &mut W, s: Stand) {
    let day = s.day;
    ask(output, s, Question::Report(day));
}

fn list<W: Write>(output: &mut W, s: Stand, asked: u64) {
    let day = s.day;
    ask(output, s, Question::List { day, asked });
}

// The session's orders name no balance.
fn asked(side: u64, kind: u64, account: u64, quantity: u64, price: u64) -> Asked {
    Asked {
        side,
        kind,
        account,
        quantity,
        price,
        balance: 0,
    }
}

// No day yet, and sixteen free places.
fn before_the_day() -> Stand {
    let free = free_place();
    let book = [free; 16];
    let day = fresh_day(0, 0);
    Stand { day, book }
}

fn main(rt: HostRuntime) {
    let mut output = rt.stdout();
    let mut s = open(&mut output, before_the_day(), 1000, 1);
    s = clock(&mut output, s, 33_300);
    s = order(&mut output, s, asked(0, 0, 7, 200, 1010));
    s = order(&mut output, s, asked(1, 0, 8, 300, 990));
    print_book(&mut output, s);
    report(&mut output, s);
    list(&mut output, s, 1);
    s = clock(&mut output, s, 33_600);
    s = cancel(&mut output, s, 7, 1);
    s = clock(&mut output, s, 34_200);
    s = order(&mut output, s, asked(0, 1, 9, 150, 1300));
    print_book(&mut output, s);
    s = cancel(&mut output, s, 9, 3);
    s = cancel(&mut output, s, 9, 3);
    s = clock(&mut output, s, 54_000);
    print_book(&mut output, s);
}
