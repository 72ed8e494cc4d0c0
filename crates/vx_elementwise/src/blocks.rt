//! Rows of a flat column, copied out a block at a time, so that what is copied is still at hand when it is worked on.
ghost use Rattle.std.specs.Prelude.{◌≡◌, ◌+◌, ◌-◌, ◌<◌, ◌≤◌, IfOk, IsOkUnless, length};
ghost use Rattle.std.specs.List.{slice_range};

use std::alloc::Global;
use std::ops::Range;
use vx_base::{ColumnError, FlatColumn, Ledger, Res, RowBuffer, Steps};

/// The most rows of a block.
const BLOCK: usize = 4096;

/// Where the block ends that starts at a row.
pub(crate) fn block_end(start: usize, len: usize) -> usize
    requires { start < len }
    ensures more { start < result }
    ensures inside { result ≤ len }
{
    start + BLOCK.min(len - start)
}

/// Copies of the rows of the range. Raises the steps by their number.
pub(crate) fn block_of<L: Ledger>(
    column: &FlatColumn,
    alloc: Global,
    range: Range<usize>,
    steps: &mut Steps<L>,
) -> Res<RowBuffer>
    requires order { range.start ≤ range.end }
    requires inside { range.end ≤ length column.now.rows }
    ensures ok { IfOk result (λ rows. rows ≡ slice_range column.now.rows range.start range.end) }
    ensures err { IsOkUnless result ColumnError.OutOfMemory }
    ensures cost { steps.new ≡ steps.old + (range.end - range.start) }
{
    let mut rows = RowBuffer::new(alloc, column.dtype());
    column.append_into(alloc, range, &mut rows, steps)?;
    Ok(rows)
}
