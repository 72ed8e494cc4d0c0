//! The steps that make each row of another: of the row of this number, and of nothing else of the column.
ghost use Rattle.std.specs.Prelude.{◌≡◌, ◌≤◌, ◌⊎◌, IfOk, IfErr, OnOk, IsFalse, length, map};
ghost use Rattle.std.specs.List.{All, slice_get};
ghost use Rattle.vx_rows.specs.Types.{is_nested};
ghost use Rattle.vx_base.specs.Column.{flat};
ghost use Rattle.vx_bulk.specs.Selections.{masked};
ghost use Rattle.vx_bulk.specs.Types.{nullable};
ghost use Rattle.vx_scalars.specs.Elementwise.{filled, filled_type, compared, compared_type};
ghost use Rattle.vx_column.specs.Columns.{rows_of, len_of, type_of, flat_of, IsSound};
ghost use Rattle.vx_job.specs.Selections.{IsLengthError};
ghost use Rattle.vx_job.specs.Elementwise.{IsNestedError, IsTypeError, IsFillError, IsCastError, IsZipError, zipped};

use std::alloc::Global;
use vx_base::{ColumnError, DType, Ledger, Res, Steps};
use vx_column::Column;
use vx_scalars::{CompareOperator, Scalar};

/// The rows, with a null in place of each whose bit is false.
pub(crate) fn mask<L: Ledger>(
    alloc: Global,
    column: &Column,
    mask: &[bool],
    steps: &mut Steps<L>,
) -> Res<Column>
    requires { IsSound column.now }
    ensures sound { IfOk result IsSound }
    ensures ok { IfOk result (λ c. flat_of c ≡ flat (nullable (type_of column.now)) (masked (rows_of column.now) mask.now)) }
    ensures free { OnOk result ((e : ColumnError) → IsLengthError (len_of column.now) (length mask.now) e → ⊥) }
    ensures err { IfErr result (λ e. (e ≡ ColumnError.OutOfMemory) ⊎ IsLengthError (len_of column.now) (length mask.now) e) }
    ensures monotone { steps.old ≤ steps.new }
{
    vx_ops::mask(alloc, column, mask, steps)
}

/// The rows where the choice is true, and those of a source where it isn't. A source is a part as it was opened.
pub(crate) fn zip<L: Ledger>(
    alloc: Global,
    column: &Column,
    sources: &[Column],
    source: usize,
    choice: &[bool],
    steps: &mut Steps<L>,
) -> Res<Column>
    requires sound { IsSound column.now }
    requires sources { All IsSound sources.now }
    ensures sound { IfOk result IsSound }
    ensures ok { IfOk result (λ c. flat_of c ≡ zipped (flat_of column.now) (slice_get (map flat_of sources.now) source) choice.now) }
    ensures free { OnOk result ((e : ColumnError)
        → IsZipError source (slice_get (map flat_of sources.now) source) (flat_of column.now) (length choice.now) e → ⊥) }
    ensures err { IfErr result (λ e. (e ≡ ColumnError.OutOfMemory)
        ⊎ IsZipError source (slice_get (map flat_of sources.now) source) (flat_of column.now) (length choice.now) e) }
    ensures monotone { steps.old ≤ steps.new }
{
    match sources.get(source) {
        None => Err(ColumnError::UnknownColumn { number: source }),
        Some(other) => vx_ops::zip(alloc, column, other, choice, steps),
    }
}

/// The rows, with the value in place of each null. The step has this number in its plan.
pub(crate) fn fill<L: Ledger>(
    alloc: Global,
    number: usize,
    column: &Column,
    value: &Scalar,
    steps: &mut Steps<L>,
) -> Res<Column>
    requires { IsSound column.now }
    ensures sound { IfOk result IsSound }
    ensures ok { IfOk result (λ c. flat_of c ≡ flat (filled_type (type_of column.now)) (filled value.now.row (rows_of column.now))) }
    ensures free { OnOk result ((e : ColumnError) → IsNestedError number (type_of column.now) e ⊎ IsFillError (type_of column.now) value.now e → ⊥) }
    ensures err { IfErr result (λ e. (e ≡ ColumnError.OutOfMemory)
        ⊎ (IsNestedError number (type_of column.now) e ⊎ IsFillError (type_of column.now) value.now e)) }
    ensures monotone { steps.old ≤ steps.new }
{
    check_plain(number, column)?;
    vx_ops::fill(alloc, column, value, steps)
}

/// The same numbers as rows of another type of integers. The step has this number in its plan.
pub(crate) fn cast<L: Ledger>(
    alloc: Global,
    number: usize,
    column: &Column,
    target: &DType,
    steps: &mut Steps<L>,
) -> Res<Column>
    requires { IsSound column.now }
    ensures sound { IfOk result IsSound }
    ensures ok { IfOk result (λ c. flat_of c ≡ flat target.now (rows_of column.now)) }
    ensures free { OnOk result ((e : ColumnError)
        → IsNestedError number (type_of column.now) e ⊎ IsCastError (type_of column.now) (rows_of column.now) target.now e → ⊥) }
    ensures err { IfErr result (λ e. (e ≡ ColumnError.OutOfMemory)
        ⊎ (IsNestedError number (type_of column.now) e ⊎ IsCastError (type_of column.now) (rows_of column.now) target.now e)) }
    ensures monotone { steps.old ≤ steps.new }
{
    check_plain(number, column)?;
    vx_ops::cast(alloc, column, target, steps)
}

/// For each row whether the operator holds between it and the value. The step has this number in its plan.
pub(crate) fn compare<L: Ledger>(
    alloc: Global,
    number: usize,
    column: &Column,
    operator: CompareOperator,
    value: &Scalar,
    steps: &mut Steps<L>,
) -> Res<Column>
    requires { IsSound column.now }
    ensures sound { IfOk result IsSound }
    ensures ok { IfOk result (λ c. flat_of c
        ≡ flat (compared_type (type_of column.now) value.now.dtype) (compared operator value.now.row (rows_of column.now))) }
    ensures free { OnOk result ((e : ColumnError)
        → IsNestedError number (type_of column.now) e ⊎ IsTypeError (type_of column.now) value.now.dtype e → ⊥) }
    ensures err { IfErr result (λ e. (e ≡ ColumnError.OutOfMemory)
        ⊎ (IsNestedError number (type_of column.now) e ⊎ IsTypeError (type_of column.now) value.now.dtype e)) }
    ensures monotone { steps.old ≤ steps.new }
{
    check_plain(number, column)?;
    vx_ops::compare(alloc, column, operator, value, steps)
}

/// Refuses exactly the types whose rows hold rows, for the step of this number.
pub(crate) fn check_plain(number: usize, column: &Column) -> Res<()>
    requires { IsSound column.now }
    ensures plain { OnOk result (IsFalse (is_nested (type_of column.now))) }
    ensures err { IfErr result (IsNestedError number (type_of column.now)) }
{
    if column.dtype().is_nested() {
        return Err(ColumnError::UnsupportedStep { step: number });
    }
    Ok(())
}
