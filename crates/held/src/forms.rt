// What may stand at a place of the declarations: nothing at all, or one that is well formed.
ghost use Rattle.std.specs.Prelude.{◌≡◌, true, not, ◌&&◌, ◌||◌, leb, eqb};
ghost use Rattle.model.specs.Lists.{all};
ghost use Rattle.model.specs.Limits.{is_price};
ghost use Rattle.model.specs.Blocks.{is_block};
ghost use Rattle.model.specs.SoundBlocks.{is_undeclared, is_declaration};

use limits::{in_band, is_price};
use model::{Day, Declaration};

// The most shares of a block, and the least shares or fen of money.
const MOST_OF_A_BLOCK: u64 = 100_000_000;

const LEAST_SHARES: u64 = 100_000;

const LEAST_MONEY: u64 = 100_000_000;

// At least so many shares or so much money, and at most so many shares. That bound is tested before the money is counted, so that
// no product is too large.
pub fn is_block(price: u64, quantity: u64) -> bool
    requires { is_price price ≡ true }
    ensures { result ≡ is_block price quantity }
{
    quantity <= MOST_OF_A_BLOCK && (LEAST_SHARES <= quantity || LEAST_MONEY <= price * quantity)
}

// All zeros, test by test as the definition has them: the record has no derived equality.
#[tactic(auto, unfolding(model::specs::SoundBlocks::is_undeclared))]
fn is_undeclared(x: Declaration) -> bool
    ensures { result ≡ is_undeclared x }
{
    x.side == 0
        && x.account == 0
        && x.counter == 0
        && x.quantity == 0
        && x.price == 0
        && x.agreement == 0
        && x.number == 0
}

// A side, and two accounts.
fn names_parties(x: Declaration) -> bool
    ensures { result ≡ (leb x.side 1 && not (eqb x.account 0) && not (eqb x.counter 0)) }
{
    x.side <= 1 && x.account != 0 && x.counter != 0
}

// Parties, on a limited day a price in the band, the size of a block, and a number among those issued.
#[tactic(auto, using(crate::proofs::Sizes::band_only), unfolding(model::specs::SoundBlocks::is_declaration))]
fn is_declaration(d: Day, x: Declaration) -> bool
    requires { is_price d.close ≡ true }
    ensures { result ≡ is_declaration d x }
{
    names_parties(x)
        && d.limited == 1
        && is_price(x.price)
        && is_block(x.price, x.quantity)
        && in_band(d.close, x.price)
        && 1 <= x.number
        && x.number <= d.blocks.issued
}

fn is_formed(d: Day, x: Declaration) -> bool
    requires { is_price d.close ≡ true }
    ensures { result ≡ (is_undeclared x || is_declaration d x) }
{
    is_undeclared(x) || is_declaration(d, x)
}

// Each place is free, or has a well-formed declaration.
pub fn all_formed(d: Day, rows: &[Declaration]) -> bool
    requires { is_price d.close ≡ true }
    ensures { result ≡ all (λ x. is_undeclared x || is_declaration d x) rows.now }
{
    rows.iter().all(|x| is_formed(d, *x))
}
