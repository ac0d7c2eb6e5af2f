// The calls of `wire` under their names in C, as include/flemorix.h declares them: a slice comes from C as a pointer and a length. Each is
// the call of `wire` by that name, and promises what it promises.
#![tactic(auto)]

ghost use Rattle.wire.specs.Files.{ReadFilePromise};
ghost use Rattle.wire.specs.Promises.{
  OpenPromise,
  CancelPromise,
  ReportPromise,
  ListPromise,
  ClockPromise,
  OrderPromise,
};
ghost use Rattle.wire.specs.Verdicts.{JudgePromise};

use wire::{changing, files, reading, trading, verdicts};

#[unsafe(no_mangle)]
pub extern "C" fn flemorix_open(
    day: &mut [u8],
    book: &mut [u8],
    reply: &mut [u8],
    close: u64,
    mark: u64,
) -> u64
    ensures { OpenPromise day.old book.old reply.old close mark result day.new book.new reply.new }
{
    changing::flemorix_open(day, book, reply, close, mark)
}

#[unsafe(no_mangle)]
pub extern "C" fn flemorix_order(
    day: &mut [u8],
    book: &mut [u8],
    trades: &mut [u8],
    reply: &mut [u8],
    side: u64,
    kind: u64,
    account: u64,
    quantity: u64,
    price: u64,
    balance: u64,
) -> u64
    ensures { OrderPromise day.old book.old trades.old reply.old (record { side = side; kind = kind; account = account; quantity = quantity; price = price; balance = balance }) result day.new book.new trades.new reply.new }
{
    trading::flemorix_order(
        day, book, trades, reply, side, kind, account, quantity, price, balance,
    )
}

#[unsafe(no_mangle)]
pub extern "C" fn flemorix_cancel(
    day: &mut [u8],
    book: &mut [u8],
    reply: &mut [u8],
    account: u64,
    number: u64,
) -> u64
    ensures { CancelPromise day.old book.old reply.old account number result day.new book.new reply.new }
{
    changing::flemorix_cancel(day, book, reply, account, number)
}

#[unsafe(no_mangle)]
pub extern "C" fn flemorix_clock(
    day: &mut [u8],
    book: &mut [u8],
    trades: &mut [u8],
    reply: &mut [u8],
    time: u64,
) -> u64
    ensures { ClockPromise day.old book.old trades.old reply.old time result day.new book.new trades.new reply.new }
{
    trading::flemorix_clock(day, book, trades, reply, time)
}

#[unsafe(no_mangle)]
pub extern "C" fn flemorix_report(day: &[u8], book: &[u8], reply: &mut [u8]) -> u64
    ensures { ReportPromise day.now book.now reply.old result reply.new }
{
    reading::flemorix_report(day, book, reply)
}

#[unsafe(no_mangle)]
pub extern "C" fn flemorix_list(
    day: &[u8],
    book: &[u8],
    prices: &mut [u8],
    reply: &mut [u8],
    asked: u64,
) -> u64
    ensures { ListPromise day.now book.now prices.old reply.old asked result prices.new reply.new }
{
    reading::flemorix_list(day, book, prices, reply, asked)
}

#[unsafe(no_mangle)]
pub extern "C" fn flemorix_judge(
    day: &[u8],
    book: &[u8],
    claims: &[u8],
    reply: &mut [u8],
    price: u64,
) -> u64
    ensures { JudgePromise day.now book.now claims.now reply.old price result reply.new }
{
    verdicts::flemorix_judge(day, book, claims, reply, price)
}

#[unsafe(no_mangle)]
pub extern "C" fn flemorix_read_file(file: &[u8], records: &mut [u8], reply: &mut [u8]) -> u64
    ensures { ReadFilePromise file.now records.old reply.old result records.new reply.new }
{
    files::flemorix_read_file(file, records, reply)
}
