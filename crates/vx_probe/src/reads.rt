//! Reads of a row of a column, which test that there is one.
ghost use Rattle.std.specs.Prelude.{◌≡◌, ◌+◌, ◌≤◌, ◌<◌, get_or, None, IfOk, IfErr, OnOk, IsOk, IsFalse, is_some};
ghost use Rattle.vx_rows.specs.Sizes.{type_takes_memory};
ghost use Rattle.vx_column.specs.Columns.{type_of, rows_of, len_of, IsSound, IsPlain, point_cost};
ghost use Rattle.vx_probe.specs.Causes.{PointCause, BeyondCause};

use std::alloc::Global;
use vx_base::{ColumnError, Ledger, Res, Row, Steps};
use vx_column::Column;

/// The row at an index.
pub(crate) fn read_row<L: Ledger>(
    column: &Column,
    alloc: Global,
    index: usize,
    steps: &mut Steps<L>,
) -> Res<Row>
    requires { IsSound column.now }
    ensures ok { IfOk result (λ row. row ≡ get_or (rows_of column.now) index None) }
    ensures inside { OnOk result (index < len_of column.now) }
    ensures err { IfErr result (PointCause (len_of column.now) index) }
    ensures free { IsFalse (type_takes_memory (type_of column.now)) → index < len_of column.now → IsOk result }
    ensures rise { IsPlain column.now → steps.new ≤ steps.old + point_cost column.now }
    ensures monotone { steps.old ≤ steps.new }
{
    let len = column.len();
    if index >= len {
        return Err(ColumnError::OutOfBounds { index, len });
    }
    column.row(alloc, index, steps)
}

/// Whether the row at an index is a value.
pub(crate) fn read_valid<L: Ledger>(
    column: &Column,
    index: usize,
    steps: &mut Steps<L>,
) -> Res<bool>
    requires { IsSound column.now }
    ensures ok { IfOk result (λ valid. valid ≡ is_some (get_or (rows_of column.now) index None)) }
    ensures inside { OnOk result (index < len_of column.now) }
    ensures err { IfErr result (BeyondCause (len_of column.now) index) }
    ensures rise { IsPlain column.now → steps.new ≤ steps.old + point_cost column.now }
    ensures monotone { steps.old ≤ steps.new }
{
    let len = column.len();
    if index >= len {
        return Err(ColumnError::OutOfBounds { index, len });
    }
    Ok(column.is_valid(index, steps))
}
