// What an auction held now would do: the report, and the price list. Neither changes day or book.
ghost use Rattle.std.specs.Prelude.{◌≡◌};
ghost use Rattle.day.specs.Listings.{list_run, list_reply};
ghost use Rattle.day.specs.Promises.{ReportPromise, ListPromise};

use auction::Run;
use auction::listing::{run_of, write_run};
use auction::price::auction_price;
use auction::report::report_at;
use figures::reference_of;
use model::{Day, ListReply, Order, ReportReply};
use soundness::is_sound;

// The price list before it is written anywhere: refused, or the prices as a run.
#[derive(Clone, Copy)]
pub enum Listing {
    Refused(u64),
    Prices(Run),
}

pub fn report_call(d: Day, rows: &[Order]) -> ReportReply
    ensures { ReportPromise d rows.now result }
{
    if !is_sound(d, rows) {
        return ReportReply::Refused(15);
    }
    let price = auction_price(rows, reference_of(d));
    report_at(rows, price)
}

// For a list of so many places, be it of numbers or of bytes.
pub fn list_run(d: Day, rows: &[Order], places: usize, asked: u64) -> Listing
    ensures { result ≡ list_run d rows.now places asked }
{
    if !is_sound(d, rows) {
        return Listing::Refused(15);
    }
    Listing::Prices(run_of(rows, places, asked))
}

pub fn list_reply(told: Listing) -> ListReply
    ensures { result ≡ list_reply told }
{
    match told {
        Listing::Refused(n) => ListReply::Refused(n),
        Listing::Prices(run) => ListReply::Listed {
            count: run.count,
            next: run.next,
        },
    }
}

pub fn list_call(d: Day, rows: &[Order], prices: &mut [u64], asked: u64) -> ListReply
    ensures { ListPromise d rows.now prices.old asked result prices.new }
{
    let told = list_run(d, rows, prices.len(), asked);
    match told {
        Listing::Refused(_) => {
            return list_reply(told);
        }
        Listing::Prices(run) => {
            write_run(prices, run);
            return list_reply(told);
        }
    }
}
