// What a declaration comes to: refused, held behind all that came before it, or confirmed with the one that it fits.
ghost use Rattle.std.specs.Prelude.{◌≡◌, [], ◌∷◌, ◌++◌, ◌+◌, ◌≤◌, ◌<◌, length, get_or, take, drop, set, true};
ghost use Rattle.model.specs.Figures.{issue_block};
ghost use Rattle.model.specs.Blocks.{undeclared, fits, confirmation};
ghost use Rattle.book.specs.Promises.{block_refused};
ghost use Rattle.held.specs.Meeting.{asking, joining};
ghost use Rattle.block_entries.specs.Entries.{Confirmable, held_answer, confirmed_answer};
ghost use Rattle.model.specs.Book.{free};

use blocks::tally_blocks;
use book::put_trade;
use held::entering::take_out;
use model::{AskedBlock, BlockAnswer, BlockReply, Blocks, Day, Declaration, Trade};

pub fn block_refused(d: Day, n: u64) -> BlockAnswer
    ensures { result ≡ block_refused d n }
{
    BlockAnswer {
        reply: BlockReply::Refused(n),
        made: 0,
        day: d,
    }
}

// What is asked, under the next number.
#[tactic(auto, unfolding(held::specs::Meeting::asking, model::specs::Figures::next_block))]
pub fn declaration_of(d: Day, a: AskedBlock) -> Declaration
    requires { d.blocks.issued ≤ 999_999 }
    ensures { result ≡ asking d a }
{
    Declaration {
        side: a.side,
        account: a.account,
        counter: a.counter,
        quantity: a.quantity,
        price: a.price,
        agreement: a.agreement,
        number: d.blocks.issued + 1,
    }
}

// One declaration number more is issued.
#[tactic(auto, unfolding(model::specs::Figures::issue_block, model::specs::Figures::with_block_figures, model::specs::Figures::next_block))]
fn issued_one(d: Day) -> Day
    requires { d.blocks.issued ≤ 999_999 }
    ensures { result ≡ issue_block d }
{
    Day {
        blocks: Blocks {
            issued: d.blocks.issued + 1,
            ..d.blocks
        },
        ..d
    }
}

// It stands at the first free place.
pub fn hold(d: Day, rows: &mut [Declaration], free: usize, x: Declaration) -> BlockAnswer
    requires issued_bound { d.blocks.issued ≤ 999_999 }
    requires free_in_bounds { free < length rows.old }
    ensures value { result ≡ held_answer d }
    ensures rows_after { rows.new ≡ set rows.old free x }
{
    rows[free] = x;
    let next = issued_one(d);
    BlockAnswer {
        reply: BlockReply::Held(next.blocks.issued),
        made: 0,
        day: next,
    }
}

// The confirmation of a buyer and a seller; nothing is left of either.
#[tactic(auto, unfolding(model::specs::Blocks::confirmation))]
fn confirmation_of(b: Declaration, s: Declaration) -> Trade
    ensures { result ≡ confirmation b s }
{
    Trade {
        price: b.price,
        quantity: b.quantity,
        buyer: b.number,
        seller: s.number,
        buyerleft: 0,
        sellerleft: 0,
    }
}

// The new one buys, or the other does.
#[tactic(auto, unfolding(held::specs::Meeting::joining))]
fn join(x: Declaration, y: Declaration) -> Trade
    ensures { result ≡ joining x y }
{
    if x.side == 0 {
        confirmation_of(x, y)
    } else {
        confirmation_of(y, x)
    }
}

// With the one at a place, which leaves at once.
pub fn confirm(
    d: Day,
    rows: &mut [Declaration],
    trades: &mut [Trade],
    place: usize,
    x: Declaration,
) -> BlockAnswer
    requires confirmable { Confirmable d x }
    requires place_in_bounds { place < length rows.old }
    requires place_value { fits x (get_or rows.old place undeclared) ≡ true }
    ensures value { result ≡ confirmed_answer d x (get_or rows.old place undeclared) }
    ensures trades_after { trades.new ≡ set trades.old 0 (joining x (get_or rows.old place undeclared)) }
    ensures rows_after { rows.new ≡ take place rows.old ++ (drop (place + 1) rows.old ++ (undeclared ∷ [])) }
{
    let trade = join(x, rows[place]);
    put_trade(trades, 0, trade);
    take_out(rows, place);
    let next = tally_blocks(issued_one(d), x.quantity);
    BlockAnswer {
        reply: BlockReply::Confirmed(next.blocks.issued),
        made: 1,
        day: next,
    }
}
