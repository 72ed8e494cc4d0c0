//! Rows of columns, copied out to be put into a set, or, a block at a time, to be looked up in one.
ghost use Rattle.std.specs.Prelude.{◌≡◌, ◌+◌, ◌-◌, ◌<◌, ◌≤◌, ◌++◌, Option, IfOk, OnOk, IsOkUnless, map, length, is_some};
ghost use Rattle.std.specs.List.{slice_range};
ghost use Rattle.vx_haystack.specs.Members.{members_have};
ghost use Rattle.vx_rows.specs.declared.value.Value.{Value as AnyValue};
ghost use Rattle.vx_scalars.specs.Membership.{is_member};

use crate::members::Members;
use std::alloc::Global;
use std::ops::Range;
use vx_base::{ColumnError, FlatColumn, Ledger, Res, RowBuffer, Seq, Steps};

/// The most rows of a block.
const BLOCK: usize = 4096;

/// A set of the elements. Raises the steps by their number.
pub(crate) fn members_of<L: Ledger>(
    alloc: Global,
    elements: &FlatColumn,
    steps: &mut Steps<L>,
) -> Res<Members>
    ensures ok { IfOk result (λ members. (row : Option AnyValue) → members_have members row ≡ is_member elements.now.rows row) }
    ensures err { IsOkUnless result ColumnError.OutOfMemory }
    ensures cost { steps.new ≡ steps.old + length elements.now.rows }
{
    let len = elements.len();
    let rows = copied(elements, alloc, 0..len, steps)?;
    Members::new(alloc, elements.dtype(), &rows)
}

/// For each needle whether it is a value of the set, and whether it is no null. Raises the steps by the number of needles at most.
pub(crate) fn look_up<L: Ledger>(
    members: &Members,
    alloc: Global,
    needles: &FlatColumn,
    steps: &mut Steps<L>,
) -> Res<(Seq<bool>, Seq<bool>)>
    ensures bits { IfOk result (λ found. found.0 ≡ map (members_have members.now) needles.now.rows) }
    ensures valid { IfOk result (λ found. found.1 ≡ map is_some needles.now.rows) }
    ensures err { IsOkUnless result ColumnError.OutOfMemory }
    ensures most { steps.new ≤ steps.old + length needles.now.rows }
    ensures rise { steps.old ≤ steps.new }
{
    let mut bits = Seq::new(alloc);
    let mut valid = Seq::new(alloc);
    let mut start = 0;
    while start < needles.len() {
        let end = block_end(start, needles.len());
        let block = copied(needles, alloc, start..end, steps)?;
        push_found(members, &block, &mut bits, &mut valid)?;
        start = end;
    }
    Ok((bits, valid))
}

/// Where the block ends that starts at a row.
fn block_end(start: usize, len: usize) -> usize
    requires { start < len }
    ensures more { start < result }
    ensures inside { result ≤ len }
{
    start + BLOCK.min(len - start)
}

/// Copies of the rows of the range. Raises the steps by their number.
fn copied<L: Ledger>(
    column: &FlatColumn,
    alloc: Global,
    range: Range<usize>,
    steps: &mut Steps<L>,
) -> Res<RowBuffer>
    requires order { range.start ≤ range.end }
    requires inside { range.end ≤ length column.now.rows }
    ensures ok { IfOk result (λ rows. rows ≡ slice_range column.now.rows range.start range.end) }
    ensures err { IsOkUnless result ColumnError.OutOfMemory }
    ensures cost { steps.new ≡ steps.old + (range.end - range.start) }
{
    let mut rows = RowBuffer::new(alloc, column.dtype());
    column.append_into(alloc, range, &mut rows, steps)?;
    Ok(rows)
}

/// Puts at the end for each row whether it is a value of the set, and whether it is no null.
fn push_found(
    members: &Members,
    rows: &RowBuffer,
    bits: &mut Seq<bool>,
    valid: &mut Seq<bool>,
) -> Res<()>
    ensures bits { OnOk result (bits.new ≡ bits.old ++ map (members_have members.now) rows.now) }
    ensures valid { OnOk result (valid.new ≡ valid.old ++ map is_some rows.now) }
    ensures err { IsOkUnless result ColumnError.OutOfMemory }
{
    for i in 0..rows.len() {
        let row = rows.get(i);
        bits.push(members.contains(row))?;
        valid.push(row.is_valid())?;
    }
    Ok(())
}
