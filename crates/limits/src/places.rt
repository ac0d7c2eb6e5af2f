// How many places a list may have, and where a number may lie.
ghost use Rattle.std.specs.Prelude.{◌≡◌};
ghost use Rattle.model.specs.Sound.{has_places, between};

use model::MOST_PLACES;

// 1 to 4,096 places, whatever stands at them.
#[tactic(auto, unfolding(model::specs::Sound::has_places))]
pub fn has_places<T>(rows: &[T]) -> bool
    ensures { result ≡ has_places rows.now }
{
    1 <= rows.len() && rows.len() <= MOST_PLACES
}

#[tactic(auto, unfolding(model::specs::Sound::between))]
pub fn is_between(least: u64, most: u64, n: u64) -> bool
    ensures { result ≡ between least most n }
{
    least <= n && n <= most
}
