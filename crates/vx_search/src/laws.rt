//! Laws over the definitions of what a search costs, as contracts.
ghost use Rattle.vx_search.specs.Laws.{IsReached, IsLeast, BoundsTwo};

/// A search over n places halves them c times, where 2^c is the least power of two that isn't below n; and its bound is that
/// of two such searches.
pub fn cost_laws()
    ensures reached { IsReached }
    ensures least { IsLeast }
    ensures bound { BoundsTwo }
{}
