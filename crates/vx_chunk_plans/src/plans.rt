//! Plans of selections over chunks.
ghost use Rattle.std.specs.Prelude.{◌≡◌, ◌+◌, ◌*◌, ◌≤◌, List, ℕ, All, IfOk, IfErr, OnOk, IsOkUnless, true, count_by, is_some, length};
ghost use Rattle.vx_masks.specs.Bits.{places_of};
ghost use Rattle.vx_masks.specs.Masks.{bits_of};
ghost use Rattle.vx_chunks.specs.Bounds.{total};
ghost use Rattle.std.specs.List.{AllZip, list_all};
ghost use Rattle.vx_search.specs.Places.{search_bound};
ghost use Rattle.vx_chunk_plans.specs.Filters.{kept_rows, keeps_most, KeepsWithin, IsSuited};
ghost use Rattle.vx_chunk_plans.specs.Takes.{bucket_rows, in_order, never_falls, AreBelow, IsWithin, TakeCause};
ghost use Rattle.vx_chunk_plans.specs.Runs.{run_rows, piece_rows, in_runs, OrdersWithin, AreRunsOf, run_total, has_rows, IsInside, RunsCause};

use crate::filter::{ChunkFilter, chunk_filters};
use crate::runs::{RunsPlan, runs_plan};
use crate::take::{TakePlan, take_plan};
use std::alloc::Global;
use vx_base::{ColumnError, Ledger, Res, Seq, Steps};
use vx_chunks::Boundaries;
use vx_masks::Mask;

/// Plans of selections: which rows of which chunks the selected rows are.
pub trait SelectionPlans {
    /// The lengths of the chunks.
    ghost lengths: { Self → List ℕ };

    /// What a filter keeps of each chunk. The bits are gone through in order, and no boundary is searched.
    fn plan_filter<L: Ledger>(
        &self,
        alloc: Global,
        mask: &Mask,
        steps: &mut Steps<L>,
    ) -> Res<Seq<ChunkFilter>>
        requires { length (bits_of mask.now) ≡ total (lengths self.now) };

    /// Which places of which chunks the indices name. Refuses `OutOfBounds` exactly where one that is present is past the end.
    /// Indices that don't fall are split along the boundaries, and of others each is searched.
    fn plan_take<L: Ledger>(
        &self,
        alloc: Global,
        indices: &[Option<usize>],
        steps: &mut Steps<L>,
    ) -> Res<TakePlan>;

    /// Which runs of which chunks the runs name, `len` rows together. Refuses `LengthMismatch` exactly where their lengths have
    /// another sum, which is looked at first, and `OutOfBounds` exactly where one that isn't empty ends behind the rows. Where a
    /// run of no rows starts is not looked at.
    fn plan_runs<L: Ledger>(
        &self,
        alloc: Global,
        runs: &[(usize, usize)],
        len: usize,
        steps: &mut Steps<L>,
    ) -> Res<RunsPlan>;
}

impl SelectionPlans for Boundaries {
    ghost lengths = { λ lens. lens };

    fn plan_filter<L: Ledger>(
        &self,
        alloc: Global,
        mask: &Mask,
        steps: &mut Steps<L>,
    ) -> Res<Seq<ChunkFilter>>
        requires { length (bits_of mask.now) ≡ total self.now }
        ensures ok { IfOk result (λ filters. kept_rows self.now filters ≡ places_of (bits_of mask.now)) }
        ensures within { IfOk result (AllZip KeepsWithin self.now) }
        ensures suited { IfOk result (All (IsSuited (keeps_most (bits_of mask.now)))) }
        ensures err { IsOkUnless result ColumnError.OutOfMemory }
        ensures rise { steps.new ≡ steps.old }
    {
        // Bits are no rows of a column: there is nothing to count.
        let _ = steps;
        let filters = chunk_filters(self, alloc, mask)?;
        Ok(Seq::from_vec(filters))
    }

    fn plan_take<L: Ledger>(
        &self,
        alloc: Global,
        indices: &[Option<usize>],
        steps: &mut Steps<L>,
    ) -> Res<TakePlan>
        ensures ok { IfOk result (λ plan. in_order (bucket_rows self.now plan.buckets) plan.order ≡ indices.now) }
        ensures within { IfOk result (λ plan. AllZip AreBelow self.now plan.buckets) }
        ensures inside { OnOk result (All (IsWithin (total self.now)) indices.now) }
        ensures joined { IfOk result (λ plan.
            list_all is_some indices.now ≡ true → never_falls 0 indices.now ≡ true → plan.order ≡ None) }
        ensures err { IfErr result (TakeCause (total self.now) indices.now) }
        ensures rise { steps.new ≤ steps.old + count_by is_some indices.now * search_bound (length self.now + 1) }
        ensures walks { never_falls 0 indices.now ≡ true → steps.new ≡ steps.old }
        ensures monotone { steps.old ≤ steps.new }
    {
        take_plan(self, alloc, indices, steps)
    }

    fn plan_runs<L: Ledger>(
        &self,
        alloc: Global,
        runs: &[(usize, usize)],
        len: usize,
        steps: &mut Steps<L>,
    ) -> Res<RunsPlan>
        ensures ok { IfOk result (λ plan. in_runs (piece_rows self.now plan.pieces) plan.order ≡ run_rows runs.now) }
        ensures within { IfOk result (λ plan. AllZip AreRunsOf self.now plan.pieces) }
        ensures order { IfOk result (λ plan. OrdersWithin (length (piece_rows self.now plan.pieces)) plan.order) }
        ensures sum { OnOk result (run_total runs.now ≡ len) }
        ensures inside { OnOk result (All (IsInside (total self.now)) runs.now) }
        ensures err { IfErr result (RunsCause (total self.now) len runs.now) }
        ensures rise { steps.new ≤ steps.old + count_by has_rows runs.now * search_bound (length self.now + 1) }
        ensures monotone { steps.old ≤ steps.new }
    {
        runs_plan(self, alloc, runs, len, steps)
    }
}
