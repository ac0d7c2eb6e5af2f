// Declarations of block trades, a lent slice in order of arrival, free places last: places set free, and which two declarations fit.
#![tactic(auto)]

ghost use Rattle.std.specs.Prelude.{◌≡◌, ◌++◌, ◌-◌, ◌≤◌, length, take, replicate};
ghost use Rattle.model.specs.Blocks.{undeclared, fits, none_held};

use book::places::other_side;
use model::Declaration;

// A free place is all zeros.
#[tactic(auto, unfolding(model::specs::Blocks::undeclared))]
pub fn no_declaration() -> Declaration
    ensures { result ≡ undeclared }
{
    Declaration {
        side: 0,
        account: 0,
        counter: 0,
        quantity: 0,
        price: 0,
        agreement: 0,
        number: 0,
    }
}

// Every place from one on is free.
pub fn free_rest(rows: &mut [Declaration], from: usize)
    requires { from ≤ length rows.old }
    ensures { rows.new ≡ take from rows.old ++ replicate (length rows.old - from) undeclared }
{
    rows[from..].fill(no_declaration());
}

// Every place free.
pub fn clear_held(rows: &mut [Declaration])
    ensures { rows.new ≡ (none_held rows.old) }
{
    free_rest(rows, 0);
}

// The same price, quantity and agreement number, opposite sides, each naming the other's account (3.6.7).
#[tactic(auto, unfolding(model::specs::Blocks::fits))]
pub fn fit(x: Declaration, y: Declaration) -> bool
    ensures { result ≡ fits x y }
{
    x.price == y.price
        && x.quantity == y.quantity
        && x.agreement == y.agreement
        && x.side == other_side(y.side)
        && x.counter == y.account
        && y.counter == x.account
}
