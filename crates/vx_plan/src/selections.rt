//! The steps that select rows of a column.
ghost use Rattle.std.specs.Prelude.{◌≡◌, ◌+◌, ◌≤◌, ◌⊎◌, IfOk, IfErr, OnOk, length};
ghost use Rattle.vx_base.specs.Column.{flat};
ghost use Rattle.vx_masks.specs.Bits.{count_true};
ghost use Rattle.vx_bulk.specs.Selections.{kept, picked, joined_runs};
ghost use Rattle.vx_bulk.specs.Types.{taken_type};
ghost use Rattle.vx_column.specs.Columns.{rows_of, len_of, type_of, flat_of, IsSound, select_bound};
ghost use Rattle.vx_job.specs.Selections.{IsLengthError, IsTakeError, IsRunsError};
ghost use Rattle.vx_plan.specs.AnswersView.{CostsNoMore};

use std::alloc::Global;
use vx_base::{ColumnError, Ledger, Res, Steps};
use vx_column::Column;
use vx_masks::Mask;
use vx_select::Select;

/// The rows whose bit is true.
pub(crate) fn filter<L: Ledger>(
    alloc: Global,
    column: &Column,
    mask: &[bool],
    steps: &mut Steps<L>,
) -> Res<Column>
    requires { IsSound column.now }
    ensures sound { IfOk result IsSound }
    ensures ok { IfOk result (λ c. flat_of c ≡ flat (type_of column.now) (kept (rows_of column.now) mask.now)) }
    ensures costs { IfOk result (CostsNoMore column.now) }
    ensures free { OnOk result ((e : ColumnError) → IsLengthError (len_of column.now) (length mask.now) e → ⊥) }
    ensures err { IfErr result (λ e. (e ≡ ColumnError.OutOfMemory) ⊎ IsLengthError (len_of column.now) (length mask.now) e) }
    ensures rise { steps.new ≤ steps.old + select_bound column.now (count_true mask.now) }
    ensures monotone { steps.old ≤ steps.new }
{
    let mask = Mask::from_bits(alloc, mask)?;
    column.filter(alloc, &mask, steps)
}

/// The rows of the indices, in their order, and a null for each index that is absent.
pub(crate) fn take<L: Ledger>(
    alloc: Global,
    column: &Column,
    indices: &[Option<usize>],
    steps: &mut Steps<L>,
) -> Res<Column>
    requires { IsSound column.now }
    ensures sound { IfOk result IsSound }
    ensures ok { IfOk result (λ c. flat_of c ≡ flat (taken_type (type_of column.now) indices.now) (picked (rows_of column.now) indices.now)) }
    ensures costs { IfOk result (CostsNoMore column.now) }
    ensures free { OnOk result ((e : ColumnError) → IsTakeError (len_of column.now) indices.now e → ⊥) }
    ensures err { IfErr result (λ e. (e ≡ ColumnError.OutOfMemory) ⊎ IsTakeError (len_of column.now) indices.now e) }
    ensures rise { steps.new ≤ steps.old + select_bound column.now (length indices.now) }
    ensures monotone { steps.old ≤ steps.new }
{
    column.take(alloc, indices, steps)
}

/// The rows of runs, each of a start and a length, joined. They are `len` rows together.
pub(crate) fn join_runs<L: Ledger>(
    alloc: Global,
    column: &Column,
    runs: &[(usize, usize)],
    len: usize,
    steps: &mut Steps<L>,
) -> Res<Column>
    requires { IsSound column.now }
    ensures sound { IfOk result IsSound }
    ensures ok { IfOk result (λ c. flat_of c ≡ flat (type_of column.now) (joined_runs (rows_of column.now) runs.now)) }
    ensures costs { IfOk result (CostsNoMore column.now) }
    ensures free { OnOk result ((e : ColumnError) → IsRunsError (len_of column.now) len runs.now e → ⊥) }
    ensures err { IfErr result (λ e. (e ≡ ColumnError.OutOfMemory) ⊎ IsRunsError (len_of column.now) len runs.now e) }
    ensures rise { steps.new ≤ steps.old + select_bound column.now len }
    ensures monotone { steps.old ≤ steps.new }
{
    column.runs(alloc, runs, len, steps)
}
