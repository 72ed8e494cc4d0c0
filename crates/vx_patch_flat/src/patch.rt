//! Flat columns whose rows exceptions replace.
ghost use Rattle.std.specs.Prelude.{◌≡◌, ◌+◌, ◌*◌, ◌≤◌, length, IfOk, OnOk, IfErr};
ghost use Rattle.vx_base.specs.Column.{Flat, flat};
ghost use Rattle.vx_bulk.specs.Selections.{overlaid};
ghost use Rattle.vx_patches.specs.Pairs.{pairs_of};
ghost use Rattle.vx_patch_flat.specs.Patching.{IsPatchable, PatchCause};

use crate::overlay::patched;
use std::alloc::Global;
use vx_base::{Ledger, Res, Steps};
use vx_bulk::{BoolArray, PrimitiveArray};
use vx_patches::Patches;

/// Flat columns of a known kind, whose rows exceptions replace.
pub trait PatchFlat {
    /// The column in which each exception replaces its row; a null does so too.
    fn patch<L: Ledger>(self, alloc: Global, patches: &Patches, steps: &mut Steps<L>) -> Res<Self>
    where
        Self: Sized;
}

impl PatchFlat for BoolArray {
    fn patch<L: Ledger>(
        self,
        alloc: Global,
        patches: &Patches,
        steps: &mut Steps<L>,
    ) -> Res<BoolArray>
        ensures ok { IfOk result (λ array. array ≡ flat self.dtype (overlaid self.rows (pairs_of patches.now))) }
        ensures fits { OnOk result (IsPatchable self patches.now) }
        ensures err { IfErr result (PatchCause self patches.now) }
        ensures rise { steps.new ≤ steps.old + (length self.rows + 2 * length (pairs_of patches.now)) }
        ensures monotone { steps.old ≤ steps.new }
    {
        let column = self.into_column();
        let column = patched(alloc, &column, patches, steps)?;
        match BoolArray::try_new(column) {
            Some(array) => Ok(array),
            // The type stays.
            None => unreachable!(),
        }
    }
}

impl PatchFlat for PrimitiveArray {
    fn patch<L: Ledger>(
        self,
        alloc: Global,
        patches: &Patches,
        steps: &mut Steps<L>,
    ) -> Res<PrimitiveArray>
        ensures ok { IfOk result (λ array. array ≡ flat self.dtype (overlaid self.rows (pairs_of patches.now))) }
        ensures fits { OnOk result (IsPatchable self patches.now) }
        ensures err { IfErr result (PatchCause self patches.now) }
        ensures rise { steps.new ≤ steps.old + (length self.rows + 2 * length (pairs_of patches.now)) }
        ensures monotone { steps.old ≤ steps.new }
    {
        let column = self.into_column();
        let column = patched(alloc, &column, patches, steps)?;
        match PrimitiveArray::try_new(column) {
            Some(array) => Ok(array),
            None => unreachable!(),
        }
    }
}
