// Orders and trades as bytes, and lists of them.
ghost use Rattle.std.specs.Prelude.{◌≡◌, ◌*◌, ◌/◌, ◌≤◌, length};
ghost use Rattle.records.specs.Layout.{order_in, order_bytes, trade_bytes, book_in, book_bytes, trades_bytes, over};
ghost use Rattle.records.specs.Lengths.{length_order, length_trade};

use crate::in_bytes::{FromBytes, ToBytes, load, store};
use crate::numbers::{put_numbers, read_numbers};
use crate::{ORDER_BYTES, TRADE_BYTES};
use model::{Order, Trade};

impl FromBytes for Order {
    ghost SIZE = { 40 };

    const SIZE: usize = ORDER_BYTES;

    ghost of = { order_in };

    fn read(b: &[u8], at: usize) -> Order {
        let mut v = [0u64; 5];
        read_numbers(b, at, &mut v[..]);
        Order {
            side: v[0],
            account: v[1],
            left: v[2],
            price: v[3],
            number: v[4],
        }
    }
}

impl ToBytes for Order {
    ghost SIZE = { 40 };

    const SIZE: usize = ORDER_BYTES;

    ghost bytes = { order_bytes };

    fn put(self, b: &mut [u8], at: usize) {
        let row = [self.side, self.account, self.left, self.price, self.number];
        put_numbers(b, at, &row[..]);
    }

    ghost long = { length_order };
}

impl ToBytes for Trade {
    ghost SIZE = { 48 };

    const SIZE: usize = TRADE_BYTES;

    ghost bytes = { trade_bytes };

    fn put(self, b: &mut [u8], at: usize) {
        let row = [
            self.price,
            self.quantity,
            self.buyer,
            self.seller,
            self.buyerleft,
            self.sellerleft,
        ];
        put_numbers(b, at, &row[..]);
    }

    ghost long = { length_trade };
}

// Fills rows with the book that the bytes hold.
pub fn load_book(b: &[u8], rows: &mut [Order])
    requires { length rows.old ≡ length b.now / 40 }
    ensures { rows.new ≡ book_in b.now }
{
    load(b, rows);
}

// Writes the rows of a book to the bytes' front.
pub fn store_book(b: &mut [u8], rows: &[Order])
    requires { 40 * length rows.now ≤ length b.old }
    ensures { b.new ≡ over (book_bytes rows.now) b.old }
{
    store(b, rows);
}

// Writes the trades of a list to the bytes' front.
pub fn store_trades(b: &mut [u8], list: &[Trade])
    requires { 48 * length list.now ≤ length b.old }
    ensures { b.new ≡ over (trades_bytes list.now) b.old }
{
    store(b, list);
}
