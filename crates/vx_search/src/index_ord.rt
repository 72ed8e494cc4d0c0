//! What a sorted search asks.
ghost use Rattle.std.specs.Prelude.{◌≡◌, ℕ, ◌+◌, ◌*◌, ◌<◌, ◌≤◌, Bool, List, length, slice_get, IfOk, IfErr};
ghost use Rattle.std.specs.declared.cmp.Ordering.{Ordering};
ghost use Rattle.std.specs.Ordering.{is_lt, is_le, is_gt, is_ge, is_some_and};
ghost use Rattle.vx_search.specs.Answers.{MemoryCause, standing};

use std::cmp::Ordering;
use vx_base::{Ledger, Res, Steps};

/// A sequence each element of which can be compared with a value. A comparison may read, and then raises the steps; it
/// refuses `OutOfMemory` alone, and leaves the sequence and what it costs as they were, also where it refuses.
pub trait IndexOrd<V> {
    /// What the elements are, to contracts.
    ghost Element: { Type 0 };

    /// The elements, in order.
    ghost sequence: { Self → List Element };

    /// How an element stands to a value: before it, equal to it, or behind it.
    ghost stands: { Element → V → Ordering };

    /// The most that one comparison raises the steps by.
    ghost cmp_cost: { Self → ℕ };

    /// Whether a comparison may run out of memory.
    ghost takes_memory: { Self → Bool };

    /// The number of elements.
    fn index_len(&self) -> usize
        ensures { result ≡ length (sequence self.now) };

    /// How the element at `idx` stands to the value. It is always Some.
    fn index_cmp<L: Ledger>(
        &mut self,
        idx: usize,
        elem: &V,
        steps: &mut Steps<L>,
    ) -> Res<Option<Ordering>>
        requires { idx < length (sequence self.old) }
        ensures ok { IfOk result (λ o. o ≡ slice_get (standing stands (sequence self.old) elem.now) idx) }
        ensures err { IfErr result (MemoryCause (takes_memory self.old)) }
        ensures rise { steps.new ≤ steps.old + cmp_cost self.old }
        ensures monotone { steps.old ≤ steps.new }
        ensures same { sequence self.new ≡ sequence self.old }
        ensures same_cost { cmp_cost self.new ≡ cmp_cost self.old }
        ensures same_memory { takes_memory self.new ≡ takes_memory self.old };

    /// Whether the element at `idx` is less than the value.
    final fn index_lt<L: Ledger>(&mut self, idx: usize, elem: &V, steps: &mut Steps<L>) -> Res<bool>
        requires { idx < length (sequence self.old) }
        ensures ok { IfOk result (λ b. b ≡ is_some_and is_lt (slice_get (standing stands (sequence self.old) elem.now) idx)) }
        ensures err { IfErr result (MemoryCause (takes_memory self.old)) }
        ensures rise { steps.new ≤ steps.old + cmp_cost self.old }
        ensures monotone { steps.old ≤ steps.new }
        ensures same { sequence self.new ≡ sequence self.old }
        ensures same_cost { cmp_cost self.new ≡ cmp_cost self.old }
        ensures same_memory { takes_memory self.new ≡ takes_memory self.old }
    {
        Ok(matches!(self.index_cmp(idx, elem, steps)?, Some(Ordering::Less)))
    }

    /// Whether the element at `idx` is less than the value or equal to it.
    final fn index_le<L: Ledger>(&mut self, idx: usize, elem: &V, steps: &mut Steps<L>) -> Res<bool>
        requires { idx < length (sequence self.old) }
        ensures ok { IfOk result (λ b. b ≡ is_some_and is_le (slice_get (standing stands (sequence self.old) elem.now) idx)) }
        ensures err { IfErr result (MemoryCause (takes_memory self.old)) }
        ensures rise { steps.new ≤ steps.old + cmp_cost self.old }
        ensures monotone { steps.old ≤ steps.new }
        ensures same { sequence self.new ≡ sequence self.old }
        ensures same_cost { cmp_cost self.new ≡ cmp_cost self.old }
        ensures same_memory { takes_memory self.new ≡ takes_memory self.old }
    {
        Ok(matches!(
            self.index_cmp(idx, elem, steps)?,
            Some(Ordering::Less | Ordering::Equal)
        ))
    }

    /// Whether the element at `idx` is greater than the value.
    final fn index_gt<L: Ledger>(&mut self, idx: usize, elem: &V, steps: &mut Steps<L>) -> Res<bool>
        requires { idx < length (sequence self.old) }
        ensures ok { IfOk result (λ b. b ≡ is_some_and is_gt (slice_get (standing stands (sequence self.old) elem.now) idx)) }
        ensures err { IfErr result (MemoryCause (takes_memory self.old)) }
        ensures rise { steps.new ≤ steps.old + cmp_cost self.old }
        ensures monotone { steps.old ≤ steps.new }
        ensures same { sequence self.new ≡ sequence self.old }
        ensures same_cost { cmp_cost self.new ≡ cmp_cost self.old }
        ensures same_memory { takes_memory self.new ≡ takes_memory self.old }
    {
        Ok(matches!(self.index_cmp(idx, elem, steps)?, Some(Ordering::Greater)))
    }

    /// Whether the element at `idx` is greater than the value or equal to it.
    final fn index_ge<L: Ledger>(&mut self, idx: usize, elem: &V, steps: &mut Steps<L>) -> Res<bool>
        requires { idx < length (sequence self.old) }
        ensures ok { IfOk result (λ b. b ≡ is_some_and is_ge (slice_get (standing stands (sequence self.old) elem.now) idx)) }
        ensures err { IfErr result (MemoryCause (takes_memory self.old)) }
        ensures rise { steps.new ≤ steps.old + cmp_cost self.old }
        ensures monotone { steps.old ≤ steps.new }
        ensures same { sequence self.new ≡ sequence self.old }
        ensures same_cost { cmp_cost self.new ≡ cmp_cost self.old }
        ensures same_memory { takes_memory self.new ≡ takes_memory self.old }
    {
        Ok(matches!(
            self.index_cmp(idx, elem, steps)?,
            Some(Ordering::Greater | Ordering::Equal)
        ))
    }
}
