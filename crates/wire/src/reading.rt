// The auction report and the price list: each writes its reply, and the list its prices.
ghost use Rattle.std.specs.Prelude.{◌≡◌};
ghost use Rattle.records.specs.Layout.{returned, replied};
ghost use Rattle.wire.specs.Pairs.{read_numbers, read_from, PricesFit, prices_by};
ghost use Rattle.wire.specs.Promises.{ReportPromise, ListPromise};

use byte_books::reading::{read_bytes, read_refusal};
use byte_books::{ReadAsked, ReadReply};
use day::auctions::{Listing, list_reply};
use model::MOST_PLACES;
use records::buffers::put_reply;
use records::numbers::put_run;
use records::{DAY_BYTES, NUMBER_BYTES, ORDER_BYTES};
use replies::{list_numbers, report_numbers};

fn put_read_reply(reply: &mut [u8], told: ReadReply) -> u64
    ensures { (result ≡ returned (read_numbers told)) × (reply.new ≡ replied (read_numbers told) reply.old) }
{
    match told {
        ReadReply::Report(r) => {
            let row = report_numbers(r);
            return put_reply(reply, &row[..]);
        }
        ReadReply::List(r) => {
            let row = list_numbers(list_reply(r));
            return put_reply(reply, &row[..]);
        }
    }
}

// A day of another length, and a book of more places than any may have, are never read.
fn read(day: &[u8], book: &[u8], asked: ReadAsked) -> ReadReply
    ensures { result ≡ read_from day.now book.now asked }
{
    if day.len() != DAY_BYTES || MOST_PLACES < book.len() / ORDER_BYTES {
        return read_refusal(asked, 15);
    }
    read_bytes(day, book, asked)
}

// The prices, where there are some.
fn put_prices(prices: &mut [u8], told: ReadReply)
    requires { PricesFit told prices.old }
    ensures { prices.new ≡ prices_by told prices.old }
{
    match told {
        ReadReply::Report(_) => {
            return;
        }
        ReadReply::List(r) => match r {
            Listing::Refused(_) => {
                return;
            }
            Listing::Prices(run) => {
                put_run(prices, run.first, run.count);
                return;
            }
        },
    }
}

pub fn flemorix_report(day: &[u8], book: &[u8], reply: &mut [u8]) -> u64
    ensures { ReportPromise day.now book.now reply.old result reply.new }
{
    put_read_reply(reply, read(day, book, ReadAsked::Report))
}

pub fn flemorix_list(
    day: &[u8],
    book: &[u8],
    prices: &mut [u8],
    reply: &mut [u8],
    asked: u64,
) -> u64
    ensures { ListPromise day.now book.now prices.old reply.old asked result prices.new reply.new }
{
    let places = prices.len() / NUMBER_BYTES;
    let told = read(day, book, ReadAsked::List { places, asked });
    put_prices(prices, told);
    put_read_reply(reply, told)
}
