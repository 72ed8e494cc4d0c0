//! Searches by halving.
ghost use Rattle.std.specs.Prelude.{◌≡◌, ℕ, ◌+◌, ◌-◌, ◌*◌, ◌<◌, ◌≤◌, ◌⊎◌, length, IfOk, IfErr};
ghost use Rattle.std.specs.List.Sorted.{IsNonDecreasingBy};
ghost use Rattle.std.specs.Ordering.{ordering_index};
ghost use Rattle.vx_search.specs.Answers.{MemoryCause, standing};
ghost use Rattle.vx_search.specs.Places.{place, search_bound};
ghost use Rattle.std.specs.declared.cmp.Ordering.{Ordering};
ghost use Rattle.vx_search.specs.Closures.{AnswersBelow, RefusesBelow};
ghost use Rattle.vx_search.specs.Halving.{asked, asked_at, Ascends, CountsAgain, EdgeOf, IsBorder, IsPlaceBy, IsWhere, rounds};

use crate::by::search_both_by;
use crate::index_ord::IndexOrd;
use crate::result::{SearchResult, SearchSortedSide};
use std::cmp::Ordering;
use vx_base::{Ledger, Res, Steps};

/// What can be searched: every sequence whose elements can be compared with a value.
pub trait SearchSorted<T>: IndexOrd<T> + Sized {
    /// The place of a value in a sequence that is sorted: before the equal elements on the left side, behind them on the
    /// right, and where it belongs if there is none. Raises the steps by its comparisons alone, and refuses as they do.
    final fn search_sorted<L: Ledger>(
        &mut self,
        value: &T,
        side: SearchSortedSide,
        steps: &mut Steps<L>,
    ) -> Res<SearchResult>
        requires { IsNonDecreasingBy (λ x. ordering_index (Self.stands x value.now)) (Self.sequence self.old) }
        ensures ok { IfOk result (λ p. p ≡ place side (standing Self.stands (Self.sequence self.old) value.now)) }
        ensures err { IfErr result (MemoryCause (Self.takes_memory self.old)) }
        ensures rise { steps.new ≤ steps.old + search_bound (length (Self.sequence self.old)) * Self.cmp_cost self.old }
        ensures monotone { steps.old ≤ steps.new }
        ensures same { Self.sequence self.new ≡ Self.sequence self.old }
        ensures same_cost { Self.cmp_cost self.new ≡ Self.cmp_cost self.old }
        ensures same_memory { Self.takes_memory self.new ≡ Self.takes_memory self.old }
    {
        search_both(self, value, side, steps)
    }

    /// The place that two closures tell, which answer by the index alone. Where `find` answers Equal anywhere, it is the
    /// border of `side_find`, which answers Less below it and Greater from there on; else it is the number of indices at
    /// which `find` answers Less. Each question raises the steps by one, those of the second search too, and a refusal of a
    /// closure is passed on.
    final fn search_sorted_by<
        F: FnMut(usize) -> Res<Ordering>,
        N: FnMut(usize) -> Res<Ordering>,
        L: Ledger,
    >(
        &mut self,
        find: F,
        side_find: N,
        side: SearchSortedSide,
        steps: &mut Steps<L>,
    ) -> Res<SearchResult>
        requires find { let len = length (Self.sequence self.old) in AnswersBelow F.FnMut len (λ _ _. Unit {0}) (rounds len) find }
        requires side_find { let len = length (Self.sequence self.old) in AnswersBelow N.FnMut len (λ _ _. Unit {0}) (rounds len) side_find }
        ensures ok { let len = length (Self.sequence self.old) in (f s : ℕ → Ordering) (border : ℕ)
            → AnswersBelow F.FnMut len (λ k r. IfOk r (λ o. o ≡ f k)) (rounds len) find
            → AnswersBelow N.FnMut len (λ k r. IfOk r (λ o. o ≡ s k)) (rounds len) side_find
            → Ascends f len → IsBorder s len border → EdgeOf side f len border
            → IfOk result (IsPlaceBy f len border) }
        ensures err { let len = length (Self.sequence self.old) in
            IfErr result (λ e. RefusesBelow F.FnMut len (rounds len) find e ⊎ RefusesBelow N.FnMut len (rounds len) side_find e) }
        ensures rise { steps.new ≤ steps.old + search_bound (length (Self.sequence self.old)) }
        ensures least { IfOk result (λ _. steps.old + rounds (length (Self.sequence self.old)) ≤ steps.new) }
        ensures again { let len = length (Self.sequence self.old) in (f : ℕ → Ordering)
            → AnswersBelow F.FnMut len (λ k r. IfOk r (λ o. o ≡ f k)) (rounds len) find
            → Ascends f len → IfOk result (CountsAgain f side len steps.old steps.new) }
        ensures monotone { steps.old ≤ steps.new }
        ensures same { Self.sequence self.new ≡ Self.sequence self.old }
        ensures same_cost { Self.cmp_cost self.new ≡ Self.cmp_cost self.old }
        ensures same_memory { Self.takes_memory self.new ≡ Self.takes_memory self.old }
    {
        let len = self.index_len();
        search_both_by(find, side_find, side, len, steps)
    }
}

impl<S: IndexOrd<T>, T> SearchSorted<T> for S {}

/// Finds any equal element, and then the end of the equal ones on the side.
fn search_both<S: IndexOrd<T>, T, L: Ledger>(
    seq: &mut S,
    value: &T,
    side: SearchSortedSide,
    steps: &mut Steps<L>,
) -> Res<SearchResult>
    requires { IsNonDecreasingBy (λ x. ordering_index (S.stands x value.now)) (S.sequence seq.old) }
    ensures ok { IfOk result (λ p. p ≡ place side (standing S.stands (S.sequence seq.old) value.now)) }
    ensures err { IfErr result (MemoryCause (S.takes_memory seq.old)) }
    ensures rise { steps.new ≤ steps.old + search_bound (length (S.sequence seq.old)) * S.cmp_cost seq.old }
    ensures monotone { steps.old ≤ steps.new }
    ensures same { S.sequence seq.new ≡ S.sequence seq.old }
    ensures same_cost { S.cmp_cost seq.new ≡ S.cmp_cost seq.old }
    ensures same_memory { S.takes_memory seq.new ≡ S.takes_memory seq.old }
{
    let len = seq.index_len();
    let found = match halve(seq, value, Question::Whole, 0, len, steps)? {
        SearchResult::NotFound(place) => return Ok(SearchResult::NotFound(place)),
        SearchResult::Found(found) => found,
    };
    let edge = match side {
        SearchSortedSide::Left => halve(seq, value, Question::Below, 0, found, steps)?,
        SearchSortedSide::Right => halve(seq, value, Question::NotAbove, found, len, steps)?,
    };
    Ok(SearchResult::Found(edge.to_index()))
}

/// What is asked of each element.
#[derive(Clone, Copy)]
pub(crate) enum Question {
    /// How it stands to the value.
    Whole,
    /// `Less` where it is less, and else `Greater`.
    Below,
    /// `Greater` where it is greater, and else `Less`.
    NotAbove,
}

/// What the element at `idx` answers to the question.
fn ask<S: IndexOrd<T>, T, L: Ledger>(
    seq: &mut S,
    idx: usize,
    value: &T,
    question: Question,
    steps: &mut Steps<L>,
) -> Res<Ordering>
    requires { idx < length (S.sequence seq.old) }
    ensures ok { IfOk result (λ o. o ≡ asked_at question (standing S.stands (S.sequence seq.old) value.now) idx) }
    ensures err { IfErr result (MemoryCause (S.takes_memory seq.old)) }
    ensures rise { steps.new ≤ steps.old + S.cmp_cost seq.old }
    ensures monotone { steps.old ≤ steps.new }
    ensures same { S.sequence seq.new ≡ S.sequence seq.old }
    ensures same_cost { S.cmp_cost seq.new ≡ S.cmp_cost seq.old }
    ensures same_memory { S.takes_memory seq.new ≡ S.takes_memory seq.old }
{
    let order = seq.index_cmp(idx, value, steps)?.unwrap_or(Ordering::Less);
    Ok(answer(question, order))
}

/// The answer to the question, by how an element stands to the value.
fn answer(question: Question, order: Ordering) -> Ordering
    ensures { result ≡ asked question order }
{
    match (question, order) {
        (Question::Whole, order) => order,
        (Question::Below, Ordering::Less) => Ordering::Less,
        (Question::Below, _) => Ordering::Greater,
        (Question::NotAbove, Ordering::Greater) => Ordering::Greater,
        (Question::NotAbove, _) => Ordering::Less,
    }
}

/// Searches the places from `from` to below `to`, with no early end: each step halves what is left.
pub(crate) fn halve<S: IndexOrd<T>, T, L: Ledger>(
    seq: &mut S,
    value: &T,
    question: Question,
    from: usize,
    to: usize,
    steps: &mut Steps<L>,
) -> Res<SearchResult>
    requires ordered { from ≤ to }
    requires inside { to ≤ length (S.sequence seq.old) }
    requires ascends { Ascends (asked_at question (standing S.stands (S.sequence seq.old) value.now)) to }
    ensures ok { IfOk result (IsWhere (asked_at question (standing S.stands (S.sequence seq.old) value.now)) from to) }
    ensures err { IfErr result (MemoryCause (S.takes_memory seq.old)) }
    ensures rise { steps.new ≤ steps.old + rounds (to - from) * S.cmp_cost seq.old }
    ensures monotone { steps.old ≤ steps.new }
    ensures same { S.sequence seq.new ≡ S.sequence seq.old }
    ensures same_cost { S.cmp_cost seq.new ≡ S.cmp_cost seq.old }
    ensures same_memory { S.takes_memory seq.new ≡ S.takes_memory seq.old }
{
    let mut size = to - from;
    if size == 0 {
        return Ok(SearchResult::NotFound(from));
    }
    let mut base = from;
    while size > 1 {
        let half = size / 2;
        let middle = base + half;
        if ask(seq, middle, value, question, steps)? != Ordering::Greater {
            base = middle;
        }
        size -= half;
    }
    Ok(match ask(seq, base, value, question, steps)? {
        Ordering::Equal => SearchResult::Found(base),
        Ordering::Less => SearchResult::NotFound(base + 1),
        Ordering::Greater => SearchResult::NotFound(base),
    })
}
