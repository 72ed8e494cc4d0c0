//! Calls that work on each row of a flat column by itself.
ghost use Rattle.std.specs.Prelude.{◌≡◌, ◌+◌, ◌≤◌, IfOk, IfErr, OnOk, IsFalse, IsTrue, IsOkUnless, is_some, length};
ghost use Rattle.vx_base.specs.Column.{Flat, flat, IsFlat};
ghost use Rattle.vx_elementwise.specs.Causes.{CastCause};
ghost use Rattle.vx_rows.specs.Types.{AlikeTypes, is_nested};
ghost use Rattle.vx_scalars.specs.Elementwise.{chosen, chosen_type, filled, filled_type, compared, compared_type, IsInteger};

use crate::cast::cast_column;
use crate::compare::compare_column;
use crate::fill::fill_column;
use crate::zip::zip_columns;
use std::alloc::Global;
use vx_base::dtype::same_type;
use vx_base::{ColumnError, DType, FlatColumn, Ledger, Res, Steps};
use vx_scalars::{CompareOperator, Scalar};

/// Calls that work on each row by itself, and give flat columns. Each raises the steps by the number of rows, also of a constant,
/// and a refusal by no more.
pub trait Elementwise {
    /// The type and the rows.
    ghost flat_of: { Self → Flat };

    /// The rows of this column where the choice is true, and else those of the other.
    fn zip<L: Ledger>(
        &self,
        alloc: Global,
        other: &FlatColumn,
        choice: &[bool],
        steps: &mut Steps<L>,
    ) -> Res<FlatColumn>
        requires types { AlikeTypes (flat_of self.now).dtype other.now.dtype }
        requires rows { length other.now.rows ≡ length (flat_of self.now).rows }
        requires choice { length choice.now ≡ length (flat_of self.now).rows };

    /// The rows, with the value in place of each null.
    fn fill<L: Ledger>(
        &self,
        alloc: Global,
        value: &Scalar,
        steps: &mut Steps<L>,
    ) -> Res<FlatColumn>
        requires plain { IsFalse (is_nested (flat_of self.now).dtype) }
        requires types { AlikeTypes (flat_of self.now).dtype value.now.dtype }
        requires present { IsTrue (is_some value.now.row) };

    /// The same integers, of another type.
    fn cast<L: Ledger>(&self, alloc: Global, dtype: &DType, steps: &mut Steps<L>) -> Res<FlatColumn>
        requires own { IsInteger (flat_of self.now).dtype }
        requires target { IsInteger dtype.now };

    /// For each row whether the comparison of it with the value holds, and a null where one of the two is null.
    fn compare<L: Ledger>(
        &self,
        alloc: Global,
        op: CompareOperator,
        value: &Scalar,
        steps: &mut Steps<L>,
    ) -> Res<FlatColumn>
        requires plain { IsFalse (is_nested (flat_of self.now).dtype) }
        requires types { AlikeTypes (flat_of self.now).dtype value.now.dtype };
}

impl Elementwise for FlatColumn {
    ghost flat_of = { λ column. column };

    fn zip<L: Ledger>(
        &self,
        alloc: Global,
        other: &FlatColumn,
        choice: &[bool],
        steps: &mut Steps<L>,
    ) -> Res<FlatColumn>
        requires types { AlikeTypes self.now.dtype other.now.dtype }
        requires rows { length other.now.rows ≡ length self.now.rows }
        requires choice { length choice.now ≡ length self.now.rows }
        ensures ok { IfOk result (λ c.
            c ≡ flat (chosen_type self.now.dtype other.now.dtype) (chosen self.now.rows other.now.rows choice.now)) }
        ensures fits { IfOk result IsFlat }
        ensures err { IsOkUnless result ColumnError.OutOfMemory }
        ensures cost { OnOk result (steps.new ≡ steps.old + length self.now.rows) }
        ensures most { steps.new ≤ steps.old + length self.now.rows }
        ensures rise { steps.old ≤ steps.new }
    {
        zip_columns(self, alloc, other, choice, steps)
    }

    fn fill<L: Ledger>(
        &self,
        alloc: Global,
        value: &Scalar,
        steps: &mut Steps<L>,
    ) -> Res<FlatColumn>
        requires plain { IsFalse (is_nested self.now.dtype) }
        requires types { AlikeTypes self.now.dtype value.now.dtype }
        requires present { IsTrue (is_some value.now.row) }
        ensures ok { IfOk result (λ c. c ≡ flat (filled_type self.now.dtype) (filled value.now.row self.now.rows)) }
        ensures fits { IfOk result IsFlat }
        ensures err { IsOkUnless result ColumnError.OutOfMemory }
        ensures cost { OnOk result (steps.new ≡ steps.old + length self.now.rows) }
        ensures most { steps.new ≤ steps.old + length self.now.rows }
        ensures rise { steps.old ≤ steps.new }
    {
        if self.dtype().nullability().is_nullable() {
            return fill_column(self, alloc, value, steps);
        }
        // No row is null.
        steps.add(self.len());
        self.share()
    }

    fn cast<L: Ledger>(&self, alloc: Global, dtype: &DType, steps: &mut Steps<L>) -> Res<FlatColumn>
        requires own { IsInteger self.now.dtype }
        requires target { IsInteger dtype.now }
        ensures ok { IfOk result (λ c. c ≡ flat dtype.now self.now.rows) }
        ensures fits { IfOk result IsFlat }
        ensures err { IfErr result (CastCause dtype.now self.now.rows) }
        ensures cost { OnOk result (steps.new ≡ steps.old + length self.now.rows) }
        ensures most { steps.new ≤ steps.old + length self.now.rows }
        ensures rise { steps.old ≤ steps.new }
    {
        if !same_type(self.dtype(), dtype) {
            return cast_column(self, alloc, dtype, steps);
        }
        steps.add(self.len());
        self.share()
    }

    fn compare<L: Ledger>(
        &self,
        alloc: Global,
        op: CompareOperator,
        value: &Scalar,
        steps: &mut Steps<L>,
    ) -> Res<FlatColumn>
        requires plain { IsFalse (is_nested self.now.dtype) }
        requires types { AlikeTypes self.now.dtype value.now.dtype }
        ensures ok { IfOk result (λ c.
            c ≡ flat (compared_type self.now.dtype value.now.dtype) (compared op value.now.row self.now.rows)) }
        ensures fits { IfOk result IsFlat }
        ensures err { IsOkUnless result ColumnError.OutOfMemory }
        ensures cost { OnOk result (steps.new ≡ steps.old + length self.now.rows) }
        ensures most { steps.new ≤ steps.old + length self.now.rows }
        ensures rise { steps.old ≤ steps.new }
    {
        compare_column(self, alloc, op, value, steps)
    }
}
