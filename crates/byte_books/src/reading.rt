// The auction report and the price list: the two calls that change nothing. The prices are told as a run, since the lent list may be
// longer than any array here.
ghost use Rattle.std.specs.Prelude.{◌≡◌, ◌/◌, ◌≤◌, length};
ghost use Rattle.byte_books.specs.Reading.{read_refusal, read_call, read_on};

use crate::{ReadAsked, ReadReply};
use day::auctions::{Listing, list_run, report_call};
use model::{Day, MOST_PLACES, Order, ReportReply};
use records::ORDER_BYTES;
use records::days::day_in;
use records::lists::load_book;
use records::rooms::{FEW_PLACES, FEWEST_PLACES, order_room};

pub fn read_refusal(asked: ReadAsked, n: u64) -> ReadReply
    ensures { result ≡ read_refusal asked n }
{
    match asked {
        ReadAsked::Report => ReadReply::Report(ReportReply::Refused(n)),
        ReadAsked::List { .. } => ReadReply::List(Listing::Refused(n)),
    }
}

// The call on rows.
fn read_rows(d: Day, rows: &[Order], asked: ReadAsked) -> ReadReply
    ensures { result ≡ read_call d rows.now asked }
{
    match asked {
        ReadAsked::Report => ReadReply::Report(report_call(d, rows)),
        ReadAsked::List { places, asked } => ReadReply::List(list_run(d, rows, places, asked)),
    }
}

fn read_in(day: &[u8], book: &[u8], rows: &mut [Order], asked: ReadAsked) -> ReadReply
    requires day_len { length day.now ≡ 352 }
    requires rows_len { length rows.old ≡ length book.now / 40 }
    ensures { result ≡ read_on day.now book.now asked }
{
    load_book(book, rows);
    read_rows(day_in(day), rows, asked)
}

// In a room of so many places. Never inlined, so that a call sets up the room that it takes, and no larger one.
#[inline(never)]
fn read_in_room<const PLACES: usize>(day: &[u8], book: &[u8], asked: ReadAsked) -> ReadReply
    requires places_bound { PLACES ≤ 4_096 }
    requires day_len { length day.now ≡ 352 }
    requires book_len_bound { length book.now / 40 ≤ PLACES }
    ensures { result ≡ read_on day.now book.now asked }
{
    let n = book.len() / ORDER_BYTES;
    let mut rows = order_room::<PLACES>();
    read_in(day, book, &mut rows[..n], asked)
}

// In a room as small as the book allows.
pub fn read_bytes(day: &[u8], book: &[u8], asked: ReadAsked) -> ReadReply
    requires day_len { length day.now ≡ 352 }
    requires book_len_bound { length book.now / 40 ≤ 4_096 }
    ensures { result ≡ read_on day.now book.now asked }
{
    let n = book.len() / ORDER_BYTES;
    if n <= FEWEST_PLACES {
        read_in_room::<FEWEST_PLACES>(day, book, asked)
    } else if n <= FEW_PLACES {
        read_in_room::<FEW_PLACES>(day, book, asked)
    } else {
        read_in_room::<MOST_PLACES>(day, book, asked)
    }
}
