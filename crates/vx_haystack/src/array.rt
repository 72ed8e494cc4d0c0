//! Haystacks: sets of the elements of a column.
ghost use Rattle.std.specs.Prelude.{◌≡◌, ◌+◌, ◌≤◌, IfOk, IfErr, OnOk, IsOkUnless, Err, map, length, is_some};
ghost use Rattle.vx_base.specs.Column.{Flat};
ghost use Rattle.vx_haystack.specs.Causes.{LookupCause};
ghost use Rattle.vx_masks.specs.Validities.{valid_bits, HasBits};
ghost use Rattle.vx_rows.specs.Types.{AlikeTypes};
ghost use Rattle.vx_scalars.specs.Membership.{is_member};

use crate::lookups::{look_up, members_of};
use crate::members::Members;
use std::alloc::Global;
use std::marker::Model;
use vx_base::{ColumnError, FlatColumn, Ledger, Nullability, Res, Seq, Steps};
use vx_masks::Validity;

/// A set of the elements of a column, made once and asked about many needles. It keeps a handle on the column, whose rows are shared
/// and not copied; contracts see that column.
pub struct ArrayHaystack {
    elements: FlatColumn,
    members: Members,
}

impl Drop for ArrayHaystack {
    fn drop(self) {
        let ArrayHaystack {
            elements: _,
            members: _,
        } = self;
    }
}

impl Model for ArrayHaystack {
    ghost use Rattle.vx_base.specs.Column.{Flat, flat_code};

    ghost Value = { Flat };

    ghost coded = { flat_code };

    ghost use Rattle.vx_haystack.specs.Haystacks.{elements_of, IsSound};

    ghost view = { elements_of };

    ghost invariant = { IsSound };
}

impl ArrayHaystack {
    /// The elements that are no null. Raises the steps by their number, nulls and all, at most.
    pub fn try_new<L: Ledger>(
        alloc: Global,
        elements: &FlatColumn,
        steps: &mut Steps<L>,
    ) -> Res<ArrayHaystack>
        ensures ok { IfOk result (λ set. set ≡ elements.now) }
        ensures err { IsOkUnless result ColumnError.OutOfMemory }
        ensures most { steps.new ≤ steps.old + length elements.now.rows }
        ensures rise { steps.old ≤ steps.new }
    {
        let members = members_of(alloc, elements, steps)?;
        let elements = elements.share()?;
        Ok(ArrayHaystack { elements, members })
    }

    /// A bit for each needle, true where it equals an element, and which needles are no null. Refuses `MismatchedTypes` exactly where
    /// the types differ by more than nullability. Raises the steps by the number of needles at most.
    pub fn contains<L: Ledger>(
        &self,
        alloc: Global,
        needles: &FlatColumn,
        steps: &mut Steps<L>,
    ) -> Res<(Seq<bool>, Validity)>
        ensures bits { IfOk result (λ found. found.0 ≡ map (is_member self.now.rows) needles.now.rows) }
        ensures valid { IfOk result (λ found. valid_bits found.1 (length needles.now.rows) ≡ map is_some needles.now.rows) }
        ensures has { IfOk result (λ found. HasBits found.1 (length needles.now.rows)) }
        ensures alike { OnOk result (AlikeTypes self.now.dtype needles.now.dtype) }
        ensures err { IfErr result (LookupCause self.now.dtype needles.now.dtype) }
        // Types that differ are told without taking memory.
        ensures mismatch { (AlikeTypes self.now.dtype needles.now.dtype → ⊥) → result ≡ Err ColumnError.MismatchedTypes }
        ensures most { steps.new ≤ steps.old + length needles.now.rows }
        ensures rise { steps.old ≤ steps.new }
    {
        if !self.elements.dtype().eq_ignore_nullability(needles.dtype()) {
            return Err(ColumnError::MismatchedTypes);
        }
        let (bits, valid) = look_up(&self.members, alloc, needles, steps)?;
        Ok((bits, validity_of(needles, valid)))
    }
}

/// Which needles are no null, of which these bits say so.
fn validity_of(needles: &FlatColumn, valid: Seq<bool>) -> Validity
    requires { valid ≡ map is_some needles.now.rows }
    ensures valid { valid_bits result (length needles.now.rows) ≡ map is_some needles.now.rows }
    ensures has { HasBits result (length needles.now.rows) }
{
    match needles.dtype().nullability() {
        Nullability::NonNullable => Validity::NonNullable,
        Nullability::Nullable => Validity::Array(valid),
    }
}
