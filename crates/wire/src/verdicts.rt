// The judge: it writes its reply, and reads all else.
ghost use Rattle.std.specs.Prelude.{◌≡◌};
ghost use Rattle.wire.specs.Verdicts.{judge_on, JudgePromise};

use byte_judge::calls::judge_bytes;
use judge::{Verdict, verdict_numbers};
use model::MOST_PLACES;
use records::buffers::put_reply;
use records::days::day_in;
use records::{DAY_BYTES, ORDER_BYTES};

// A day of another length, and a book of more places than any may have, are never read.
fn judge_any(day: &[u8], book: &[u8], claims: &[u8], price: u64) -> Verdict
    ensures { result ≡ judge_on day.now price book.now claims.now }
{
    if day.len() != DAY_BYTES || MOST_PLACES < book.len() / ORDER_BYTES {
        return Verdict::Refused(15);
    }
    judge_bytes(day_in(day), book, claims, price)
}

pub fn flemorix_judge(day: &[u8], book: &[u8], claims: &[u8], reply: &mut [u8], price: u64) -> u64
    ensures { JudgePromise day.now book.now claims.now reply.old price result reply.new }
{
    let row = verdict_numbers(judge_any(day, book, claims, price));
    put_reply(reply, &row[..])
}
