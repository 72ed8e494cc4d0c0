//! Searches that ask closures in place of a sequence.
ghost use Rattle.std.specs.Prelude.{◌≡◌, ℕ, ◌+◌, ◌-◌, ◌*◌, ◌<◌, ◌≤◌, ◌⊎◌, IfOk, IfErr};
ghost use Rattle.std.specs.Fn.{Called};
ghost use Rattle.std.specs.declared.cmp.Ordering.{Ordering};
ghost use Rattle.vx_search.specs.Closures.{AnswersBelow, RefusesBelow};
ghost use Rattle.vx_search.specs.Halving.{Ascends, CountsAgain, EdgeOf, IsBorder, IsPlaceBy, IsWhere, rounds};
ghost use Rattle.vx_search.specs.Places.{index_of, search_bound};

use crate::result::{SearchResult, SearchSortedSide};
use std::cmp::Ordering;
use vx_base::{Ledger, Res, Steps};

/// Asks a closure about one place. The question raises the steps by one.
fn ask_by<F: FnMut(usize) -> Res<Ordering>, L: Ledger>(
    find: &mut F,
    place: usize,
    steps: &mut Steps<L>,
) -> Res<Ordering>
    requires { F.pre find.old place }
    ensures called { Called F.FnMut find.old (place, tt) result find.new }
    ensures cost { steps.new ≡ steps.old + 1 }
{
    steps.tick();
    find(place)
}

/// Searches the places from `from` to below `to` by what a closure answers. Each question raises the steps by one.
pub(crate) fn halve_by<F: FnMut(usize) -> Res<Ordering>, L: Ledger>(
    mut find: F,
    from: usize,
    to: usize,
    steps: &mut Steps<L>,
) -> Res<SearchResult>
    requires ordered { from ≤ to }
    requires callable { AnswersBelow F.FnMut to (λ _ _. Unit {0}) (rounds (to - from)) find }
    ensures ok { (f : ℕ → Ordering) → AnswersBelow F.FnMut to (λ k r. IfOk r (λ o. o ≡ f k)) (rounds (to - from)) find → Ascends f to → IfOk result (IsWhere f from to) }
    ensures within { IfOk result (λ p. (from ≤ index_of p) × (index_of p ≤ to)) }
    ensures err { IfErr result (RefusesBelow F.FnMut to (rounds (to - from)) find) }
    ensures rise { steps.new ≤ steps.old + rounds (to - from) }
    ensures least { IfOk result (λ _. steps.old + rounds (to - from) ≤ steps.new) }
    ensures monotone { steps.old ≤ steps.new }
{
    let mut size = to - from;
    if size == 0 {
        return Ok(SearchResult::NotFound(from));
    }
    let mut base = from;
    while size > 1 {
        let half = size / 2;
        let middle = base + half;
        if ask_by(&mut find, middle, steps)? != Ordering::Greater {
            base = middle;
        }
        size -= half;
    }
    Ok(match ask_by(&mut find, base, steps)? {
        Ordering::Equal => SearchResult::Found(base),
        Ordering::Less => SearchResult::NotFound(base + 1),
        Ordering::Greater => SearchResult::NotFound(base),
    })
}

/// The border of `side_find` where `find` answers Equal anywhere, else the number of places at which it answers Less.
pub(crate) fn search_both_by<
    F: FnMut(usize) -> Res<Ordering>,
    N: FnMut(usize) -> Res<Ordering>,
    L: Ledger,
>(
    find: F,
    side_find: N,
    side: SearchSortedSide,
    len: usize,
    steps: &mut Steps<L>,
) -> Res<SearchResult>
    requires find { AnswersBelow F.FnMut len (λ _ _. Unit {0}) (rounds len) find }
    requires side_find { AnswersBelow N.FnMut len (λ _ _. Unit {0}) (rounds len) side_find }
    ensures ok { (f s : ℕ → Ordering) (border : ℕ)
        → AnswersBelow F.FnMut len (λ k r. IfOk r (λ o. o ≡ f k)) (rounds len) find
        → AnswersBelow N.FnMut len (λ k r. IfOk r (λ o. o ≡ s k)) (rounds len) side_find
        → Ascends f len → IsBorder s len border → EdgeOf side f len border
        → IfOk result (IsPlaceBy f len border) }
    ensures err { IfErr result (λ e. RefusesBelow F.FnMut len (rounds len) find e ⊎ RefusesBelow N.FnMut len (rounds len) side_find e) }
    ensures rise { steps.new ≤ steps.old + search_bound len }
    ensures least { IfOk result (λ _. steps.old + rounds len ≤ steps.new) }
    ensures again { (f : ℕ → Ordering) → AnswersBelow F.FnMut len (λ k r. IfOk r (λ o. o ≡ f k)) (rounds len) find
        → Ascends f len → IfOk result (CountsAgain f side len steps.old steps.new) }
    ensures monotone { steps.old ≤ steps.new }
{
    let found = match halve_by(find, 0, len, steps)? {
        SearchResult::NotFound(place) => return Ok(SearchResult::NotFound(place)),
        SearchResult::Found(found) => found,
    };
    let edge = match side {
        SearchSortedSide::Left => halve_by(side_find, 0, found, steps)?,
        SearchSortedSide::Right => halve_by(side_find, found, len, steps)?,
    };
    Ok(SearchResult::Found(edge.to_index()))
}
