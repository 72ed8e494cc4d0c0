//! Searchers over slices.
ghost use Rattle.std.specs.Prelude.{◌≡◌};

use crate::index_ord::IndexOrd;
use std::cmp::Ordering;
use std::marker::Model;
use vx_base::{Ledger, Res, Steps};

/// A slice that is searched by its elements' own order. Contracts see the elements.
#[derive(Drop)]
pub struct SortedSlice<'a, T> {
    values: &'a [T],
}

impl<'a, T> Model for SortedSlice<'a, T> {
    ghost use Rattle.std.specs.Prelude.{List};

    ghost Value = { List T };

    ghost view = { λ s. s.values.now };
}

impl<'a, T: Ord> SortedSlice<'a, T> {
    /// A searcher over the slice. That it is sorted is asked by each search.
    pub fn new(values: &'a [T]) -> SortedSlice<'a, T>
        ensures { result ≡ values.now }
    {
        SortedSlice { values }
    }
}

impl<'a, T: Ord> IndexOrd<T> for SortedSlice<'a, T> {
    ghost use Rattle.std.specs.Prelude.{◌+◌, ◌<◌, ◌≤◌, false, length, slice_get, IfOk, IfErr};
    ghost use Rattle.vx_search.specs.Answers.{MemoryCause, standing};

    ghost Element = { T };

    ghost sequence = { λ values. values };

    ghost stands = { λ x v. T.cmp x v };

    ghost cmp_cost = { λ _. 1 };

    ghost takes_memory = { λ _. false };

    fn index_len(&self) -> usize {
        self.values.len()
    }

    fn index_cmp<L: Ledger>(
        &mut self,
        idx: usize,
        elem: &T,
        steps: &mut Steps<L>,
    ) -> Res<Option<Ordering>>
        requires { idx < length self.old }
        ensures ok { IfOk result (λ o. o ≡ slice_get (standing T.cmp self.old elem.now) idx) }
        ensures err { IfErr result (MemoryCause false) }
        ensures cost { steps.new ≡ steps.old + 1 }
        ensures rise { steps.new ≤ steps.old + 1 }
        ensures monotone { steps.old ≤ steps.new }
        ensures same { self.new ≡ self.old }
    {
        steps.tick();
        let values = self.values;
        Ok(Some(values[idx].cmp(elem)))
    }
}
