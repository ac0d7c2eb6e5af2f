// Declarations of block trades as bytes, and lists of them.
ghost use Rattle.std.specs.Prelude.{◌≡◌, ◌*◌, ◌/◌, ◌≤◌, length};
ghost use Rattle.records.specs.Layout.{declaration_in, declaration_bytes, declarations_in, declarations_bytes, over};
ghost use Rattle.records.specs.Lengths.{length_declaration};

use crate::DECLARATION_BYTES;
use crate::in_bytes::{FromBytes, ToBytes, load, store};
use crate::numbers::{put_numbers, read_numbers};
use model::Declaration;

impl FromBytes for Declaration {
    ghost SIZE = { 56 };

    const SIZE: usize = DECLARATION_BYTES;

    ghost of = { declaration_in };

    fn read(b: &[u8], at: usize) -> Declaration {
        let mut v = [0u64; 7];
        read_numbers(b, at, &mut v[..]);
        Declaration {
            side: v[0],
            account: v[1],
            counter: v[2],
            quantity: v[3],
            price: v[4],
            agreement: v[5],
            number: v[6],
        }
    }
}

impl ToBytes for Declaration {
    ghost SIZE = { 56 };

    const SIZE: usize = DECLARATION_BYTES;

    ghost bytes = { declaration_bytes };

    fn put(self, b: &mut [u8], at: usize) {
        let row = [
            self.side,
            self.account,
            self.counter,
            self.quantity,
            self.price,
            self.agreement,
            self.number,
        ];
        put_numbers(b, at, &row[..]);
    }

    ghost long = { length_declaration };
}

// Fills rows with the declarations that the bytes hold.
pub fn load_held(b: &[u8], rows: &mut [Declaration])
    requires { length rows.old ≡ length b.now / 56 }
    ensures { rows.new ≡ declarations_in b.now }
{
    load(b, rows);
}

// Writes the rows of declarations to the bytes' front.
pub fn store_held(b: &mut [u8], rows: &[Declaration])
    requires { 56 * length rows.now ≤ length b.old }
    ensures { b.new ≡ over (declarations_bytes rows.now) b.old }
{
    store(b, rows);
}
