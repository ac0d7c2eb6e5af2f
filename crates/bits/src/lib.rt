// A bit map over a slice of words: bit n % 64 of word n / 64 says whether n is in it.
#![tactic(auto)]

ghost use Rattle.std.specs.Prelude.{◌≡◌, ◌<◌};
ghost use Rattle.bits.specs.Words.{bit, with_bit};
ghost use Rattle.bits.specs.Maps.{has_bit, marked};

// Bit k of a word.
pub fn bit_of(word: u64, k: u64) -> bool
    requires { k < 64 }
    ensures { result ≡ bit word k }
{
    (word >> k) % 2 == 1
}

// The word with bit k set.
pub fn with_bit(word: u64, k: u64) -> u64
    requires { k < 64 }
    ensures { result ≡ with_bit word k }
{
    word | (1 << k)
}

// Whether n is in the map: false past its end.
pub fn has(map: &[u64], n: u64) -> bool
    ensures { result ≡ has_bit map.now n }
{
    let at = (n / 64) as usize;
    at < map.len() && bit_of(map[at], n % 64)
}

// The map with n in it. A map that ends before n stays as it is.
pub fn set_bit(map: &mut [u64], n: u64)
    ensures { map.new ≡ marked map.old n }
{
    let at = (n / 64) as usize;
    if at < map.len() {
        map[at] = with_bit(map[at], n % 64);
    }
}
