//! Columns of gathered rows, and whether there are such rows.
ghost use Rattle.std.specs.Prelude.{◌≡◌, ◌+◌, ◌*◌, ◌<◌, ◌≤◌, None, length, All, IfOk, IfErr, OnOk, IsOkUnless};
ghost use Rattle.vx_rows.specs.declared.error.ColumnError;
ghost use Rattle.vx_rows.specs.Fits.{is_nullable as takes_null};
ghost use Rattle.vx_rows.specs.Types.{nullability};
ghost use Rattle.vx_base.specs.Column.{Flat, IsFlat};
ghost use Rattle.vx_interleave.specs.Selections.{IsSelection, AreWithin, selection};
ghost use Rattle.vx_interleave.specs.Rules.{selector_fault};
ghost use Rattle.vx_interleave_gather.specs.Gathered.{AreAlike, GatherCause, gathered, gathered_type, lens_of, nullability_by, some_nullable, types_of};

use crate::rows::gathered_rows;
use std::alloc::Global;
use vx_base::{ColumnError, DType, FlatColumn, Ledger, Nullability, Res, Steps};
use vx_interleave::check_selectors;

/// A column of the rows that the selectors name.
pub(crate) fn gathered_column<L: Ledger>(
    alloc: Global,
    values: &[FlatColumn],
    array_indices: &FlatColumn,
    row_indices: &FlatColumn,
    steps: &mut Steps<L>,
) -> Res<FlatColumn>
    requires some { 0 < length values.now }
    requires alike { AreAlike (types_of values.now) }
    ensures ok { IfOk result (λ c. c ≡ gathered values.now (selection array_indices.now row_indices.now)) }
    ensures clean { OnOk result (selector_fault array_indices.now row_indices.now (lens_of values.now) ≡ None) }
    ensures err { IfErr result (GatherCause (selector_fault array_indices.now row_indices.now (lens_of values.now))) }
    ensures cost { OnOk result (steps.new ≡ steps.old + 3 * length array_indices.now.rows) }
    ensures most { steps.new ≤ steps.old + 3 * length array_indices.now.rows }
    ensures rise { steps.old ≤ steps.new }
{
    check(alloc, values, array_indices, row_indices)?;
    let dtype = gathered_type(values)?;
    let rows = gathered_rows(alloc, &dtype, values, array_indices, row_indices, steps)?;
    FlatColumn::from_buffer(alloc, dtype, rows)
}

/// Whether the selectors select rows of the values.
pub(crate) fn check(
    alloc: Global,
    values: &[FlatColumn],
    array_indices: &FlatColumn,
    row_indices: &FlatColumn,
) -> Res<()>
    ensures fits { OnOk result (All IsFlat values.now) }
    ensures within { OnOk result (AreWithin (selection array_indices.now row_indices.now) (lens_of values.now)) }
    ensures sound { OnOk result (IsSelection (selection array_indices.now row_indices.now)) }
    ensures clean { OnOk result (selector_fault array_indices.now row_indices.now (lens_of values.now) ≡ None) }
    ensures err { IfErr result (GatherCause (selector_fault array_indices.now row_indices.now (lens_of values.now))) }
{
    let lens = lens_of(alloc, values)?;
    check_selectors(alloc, array_indices, row_indices, lens.as_slice())
}

/// The lengths of the columns.
fn lens_of(alloc: Global, values: &[FlatColumn]) -> Res<Vec<usize>>
    ensures ok { IfOk result (λ lens. lens.items ≡ lens_of values.now) }
    ensures fits { OnOk result (All IsFlat values.now) }
    ensures err { IsOkUnless result ColumnError.OutOfMemory }
{
    let mut lens = Vec::new(alloc);
    for value in values {
        // Each row fits the type.
        let _ = value.dtype();
        lens.push(value.len())?;
    }
    Ok(lens)
}

/// The first column's type, nullable where the type of some column is.
fn gathered_type(values: &[FlatColumn]) -> Res<DType>
    requires { 0 < length values.now }
    ensures ok { IfOk result (λ dtype. dtype ≡ gathered_type (types_of values.now)) }
    ensures err { IsOkUnless result ColumnError.OutOfMemory }
{
    let dtype = values[0].dtype().copy()?;
    Ok(dtype.with_nullability(some_nullability(values)))
}

/// Nullable where the type of some column is.
fn some_nullability(values: &[FlatColumn]) -> Nullability
    ensures { result ≡ nullability_by (some_nullable (types_of values.now)) }
{
    for value in values {
        if is_nullable(value) {
            return Nullability::Nullable;
        }
    }
    Nullability::NonNullable
}

fn is_nullable(value: &FlatColumn) -> bool
    ensures { result ≡ takes_null (nullability value.now.dtype) }
{
    value.dtype().nullability().is_nullable()
}
