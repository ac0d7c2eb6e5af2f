// An opening and a cancel: each writes day, book and reply.
ghost use Rattle.std.specs.Prelude.{◌≡◌, length};
ghost use Rattle.records.specs.Layout.{returned, replied};
ghost use Rattle.wire.specs.Exports.{book_left};
ghost use Rattle.wire.specs.Pairs.{book_numbers, unread_numbers, day_by, change_leaves};
ghost use Rattle.wire.specs.Promises.{OpenPromise, CancelPromise};

use byte_books::changing::change_bytes;
use byte_books::{BookAsked, BookReply};
use model::{CancelReply, MOST_PLACES, OpenReply};
use records::buffers::put_reply;
use records::days::put_day;
use records::{DAY_BYTES, ORDER_BYTES};
use replies::{cancel_numbers, open_numbers};

fn put_book_reply(reply: &mut [u8], told: BookReply) -> u64
    ensures { (result ≡ returned (book_numbers told)) × (reply.new ≡ replied (book_numbers told) reply.old) }
{
    match told {
        BookReply::Open(r) => {
            let row = open_numbers(r);
            return put_reply(reply, &row[..]);
        }
        BookReply::Cancel(r) => {
            let withdrawn = r.reply;
            let row = cancel_numbers(withdrawn);
            return put_reply(reply, &row[..]);
        }
    }
}

// The one refusal that each has for memory that is not read.
fn put_unread(reply: &mut [u8], asked: BookAsked) -> u64
    ensures { (result ≡ returned (unread_numbers asked)) × (reply.new ≡ replied (unread_numbers asked) reply.old) }
{
    match asked {
        BookAsked::Open { close: _, mark: _ } => {
            let row = open_numbers(OpenReply::Refused(14));
            return put_reply(reply, &row[..]);
        }
        BookAsked::Cancel {
            account: _,
            number: _,
        } => {
            let row = cancel_numbers(CancelReply::Refused(15));
            return put_reply(reply, &row[..]);
        }
    }
}

// The day that a reply has brought.
fn put_brought(day: &mut [u8], told: BookReply)
    requires { length day.old ≡ 352 }
    ensures { day.new ≡ day_by told day.old }
{
    match told {
        BookReply::Cancel(r) => {
            let d = r.day;
            put_day(day, d);
            return;
        }
        BookReply::Open(r) => match r {
            OpenReply::Refused(_) => {
                return;
            }
            OpenReply::Opened(d) => {
                put_day(day, d);
                return;
            }
        },
    }
}

// A day of another length, and a book of more places than any may have, are never read.
fn change(day: &mut [u8], book: &mut [u8], reply: &mut [u8], asked: BookAsked) -> u64
    ensures { book_left result day.new book.new reply.new ≡ change_leaves asked day.old book.old reply.old }
{
    if day.len() != DAY_BYTES || MOST_PLACES < book.len() / ORDER_BYTES {
        return put_unread(reply, asked);
    }
    let told = change_bytes(day, book, asked);
    put_brought(day, told);
    put_book_reply(reply, told)
}

pub fn flemorix_open(
    day: &mut [u8],
    book: &mut [u8],
    reply: &mut [u8],
    close: u64,
    mark: u64,
) -> u64
    ensures { OpenPromise day.old book.old reply.old close mark result day.new book.new reply.new }
{
    change(day, book, reply, BookAsked::Open { close, mark })
}

pub fn flemorix_cancel(
    day: &mut [u8],
    book: &mut [u8],
    reply: &mut [u8],
    account: u64,
    number: u64,
) -> u64
    ensures { CancelPromise day.old book.old reply.old account number result day.new book.new reply.new }
{
    change(day, book, reply, BookAsked::Cancel { account, number })
}
