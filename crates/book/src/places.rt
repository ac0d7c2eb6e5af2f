// One place of the book by what stands there, and the place of an account's order.
ghost use Rattle.std.specs.Prelude.{◌≡◌, position};
ghost use Rattle.model.specs.Book.{free, is_live, other};
ghost use Rattle.model.specs.Calls.{is_own};

use model::{MOST_PLACES, Order};

// A free place is all zeros.
#[tactic(auto, unfolding(model::specs::Book::free))]
pub fn free_place() -> Order
    ensures { result ≡ free }
{
    Order {
        side: 0,
        account: 0,
        left: 0,
        price: 0,
        number: 0,
    }
}

#[tactic(auto, unfolding(model::specs::Book::is_live))]
pub fn is_live(o: Order) -> bool
    ensures { result ≡ is_live o }
{
    o.number != 0
}

#[tactic(auto, unfolding(model::specs::Calls::is_own))]
fn is_own(account: u64, number: u64, o: Order) -> bool
    ensures { result ≡ is_own account number o }
{
    is_live(o) && o.number == number && o.account == account
}

// The side that an order trades against.
#[tactic(auto, unfolding(model::specs::Book::other))]
pub fn other_side(side: u64) -> u64
    ensures { result ≡ other side }
{
    if side == 0 { 1 } else { 0 }
}

// The place of the account's order with this number. Laws `no_place` and `its_place` tie it to the definition `place_of`.
pub fn place_of(rows: &[Order], account: u64, number: u64) -> Option<usize>
    ensures { result ≡ position (is_own account number) rows.now }
{
    rows.iter().position(|o| is_own(account, number, *o))
}
