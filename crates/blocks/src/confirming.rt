// Who is confirmed at 15:00, once the partner of each place is known: the trades are written, and those confirmed leave at once.
ghost use Rattle.std.specs.Prelude.{◌≡◌, ◌+◌, ◌^◌, ◌<◌, length};
ghost use Rattle.book.specs.Writing.{fitted};
ghost use Rattle.book.specs.Deals.{dealt};
ghost use Rattle.declarations.specs.Declared.{Declared};
ghost use Rattle.partners.specs.Partners.{agreed, alone};
ghost use Rattle.blocks.specs.Confirming.{place_trades, Added, Stayed, followed};

use book::{Dealt, put_trade};
use declarations::free_rest;
use model::{Declaration, Trade};

// A buyer that has a partner is confirmed with it: the trade stands behind those so far.
fn confirm_place(trades: &mut [Trade], sofar: Dealt, x: Declaration, partner: u64) -> Dealt
    requires made_bound { sofar.made < 4_096 }
    requires quantity_bound { sofar.shares + x.quantity < 2 ^ 64 }
    ensures { Added sofar (place_trades x partner) trades.old result trades.new }
{
    if x.number == 0 || x.side != 0 || partner == 0 {
        return sofar;
    }
    let trade = Trade {
        price: x.price,
        quantity: x.quantity,
        buyer: x.number,
        seller: partner,
        buyerleft: 0,
        sellerleft: 0,
    };
    put_trade(trades, sofar.made, trade);
    Dealt {
        made: sofar.made + 1,
        shares: sofar.shares + x.quantity,
    }
}

// Place by place: all are counted, and as many are written as the list holds.
pub fn write_confirmed(rows: &[Declaration], trades: &mut [Trade], partner: &[u64]) -> Dealt
    requires declared { Declared rows.now }
    requires partner_len { length partner.now ≡ length rows.now }
    ensures value { result ≡ dealt (agreed rows.now partner.now) }
    ensures trades_after { trades.new ≡ fitted (agreed rows.now partner.now) trades.old }
{
    let mut sofar = Dealt { made: 0, shares: 0 };
    for (i, x) in rows.iter().enumerate() {
        sofar = confirm_place(trades, sofar, *x, partner[i]);
    }
    sofar
}

// A declaration without a partner stays: it stands behind those that stay before it.
fn stay_place(rows: &mut [Declaration], kept: usize, x: Declaration, partner: u64) -> usize
    requires { kept < length rows.old }
    ensures { Stayed x partner kept rows.old result rows.new }
{
    if partner == 0 {
        rows[kept] = x;
        kept + 1
    } else {
        kept
    }
}

// Those without a partner close up, and free places follow.
pub fn close_up(rows: &mut [Declaration], partner: &[u64])
    requires { length partner.now ≡ length rows.old }
    ensures { rows.new ≡ followed (length rows.old) (alone rows.old partner.now) }
{
    let mut kept = 0;
    for (i, p) in partner.iter().enumerate() {
        let x = rows[i];
        kept = stay_place(rows, kept, x, *p);
    }
    free_rest(rows, kept);
}
