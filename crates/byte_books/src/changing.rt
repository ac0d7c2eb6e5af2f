// An opening and a cancel: the two calls that change the book and make no trade.
ghost use Rattle.std.specs.Prelude.{◌≡◌, ◌/◌, ◌≤◌, length};
ghost use Rattle.records.specs.Layout.{day_in};
ghost use Rattle.byte_books.specs.Changing.{change_left, book_call, Changed, book_on};

use crate::{BookAsked, BookReply};
use day::events::cancel_call;
use day::opening::open_call;
use model::{MOST_PLACES, Order};
use records::ORDER_BYTES;
use records::days::day_in;
use records::lists::{load_book, store_book};
use records::rooms::{FEW_PLACES, FEWEST_PLACES, order_room};

// The call on rows. An opening reads nothing of the old day.
fn change_rows(day: &[u8], rows: &mut [Order], asked: BookAsked) -> BookReply
    requires { length day.now ≡ 352 }
    ensures { change_left result rows.new ≡ book_call (day_in day.now) rows.old asked }
{
    match asked {
        BookAsked::Open { close, mark } => BookReply::Open(open_call(rows, close, mark)),
        BookAsked::Cancel { account, number } => {
            BookReply::Cancel(cancel_call(day_in(day), rows, account, number))
        }
    }
}

// The bytes as rows, the call on the rows, and the rows as bytes again.
fn change_in(day: &[u8], book: &mut [u8], rows: &mut [Order], asked: BookAsked) -> BookReply
    requires day_len { length day.now ≡ 352 }
    requires rows_len { length rows.old ≡ length book.old / 40 }
    ensures { Changed (book_on day.now book.old asked) book.old result book.new }
{
    load_book(book, rows);
    let told = change_rows(day, rows, asked);
    store_book(book, rows);
    told
}

// In a room of so many places. Never inlined, so that a call sets up the room that it takes, and no larger one.
#[inline(never)]
fn change_in_room<const PLACES: usize>(day: &[u8], book: &mut [u8], asked: BookAsked) -> BookReply
    requires places_bound { PLACES ≤ 4_096 }
    requires day_len { length day.now ≡ 352 }
    requires book_len_bound { length book.old / 40 ≤ PLACES }
    ensures { Changed (book_on day.now book.old asked) book.old result book.new }
{
    let n = book.len() / ORDER_BYTES;
    let mut rows = order_room::<PLACES>();
    change_in(day, book, &mut rows[..n], asked)
}

// In a room as small as the book allows.
pub fn change_bytes(day: &[u8], book: &mut [u8], asked: BookAsked) -> BookReply
    requires day_len { length day.now ≡ 352 }
    requires book_len_bound { length book.old / 40 ≤ 4_096 }
    ensures { Changed (book_on day.now book.old asked) book.old result book.new }
{
    let n = book.len() / ORDER_BYTES;
    if n <= FEWEST_PLACES {
        change_in_room::<FEWEST_PLACES>(day, book, asked)
    } else if n <= FEW_PLACES {
        change_in_room::<FEW_PLACES>(day, book, asked)
    } else {
        change_in_room::<MOST_PLACES>(day, book, asked)
    }
}
