//! What a search may cost.
ghost use Rattle.std.specs.Prelude.{◌≡◌, ◌<◌};
ghost use Rattle.vx_search.specs.Places as spec;
ghost use Rattle.vx_search.specs.Halving.{log_up};

/// The most comparisons that a search over `len` elements makes: none for no element, else 2c + 2, where 2^c is the
/// least power of two that isn't below `len`.
pub fn search_bound(len: usize) -> u64
    ensures { result ≡ spec.search_bound len }
{
    if len == 0 {
        return 0;
    }
    2 * halvings(len) + 2
}

/// How often a number of places is halved until one is left.
fn halvings(places: usize) -> u64
    ensures { result ≡ log_up places }
{
    let mut count = 0;
    let mut reach: u128 = 1;
    while reach < places as u128 {
        reach *= 2;
        count += 1;
    }
    count
}
