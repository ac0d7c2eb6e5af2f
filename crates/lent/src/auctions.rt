// The calls that only ask, on a lent slice of order records: the auction report and the price list.
ghost use Rattle.lent.specs.Calls.{QuestionPromise};

use crate::{Question, Told};
use day::auctions::{list_call, report_call};
use model::Order;

// The call that a question asks for.
pub fn ask_auction(book: &[Order], prices: &mut [u64], question: Question) -> Told
    ensures { QuestionPromise book.now prices.old question result prices.new }
{
    match question {
        Question::Report(day) => Told::Report(report_call(day, book)),
        Question::List { day, asked } => Told::List(list_call(day, book, prices, asked)),
    }
}
