//! The chunks of two columns in pairs.
ghost use Rattle.vx_column.specs.Columns.{IsSound};
ghost use Rattle.vx_column.specs.declared.column.Column.TheVariants.{Chunked as chunked_column};

use crate::reading::unsupported;
use std::alloc::Global;
use vx_base::{Ledger, Res, Seq, Steps};
use vx_cases::columns::rows_text;
use vx_column::{ChunkedArray, Column};
use vx_ops::{AlignedPair, PairedChunks, paired_chunks};

/// All rows.
pub(crate) fn rows<L: Ledger>(alloc: Global, column: &Column, steps: &mut Steps<L>) -> Res<String>
    requires { IsSound column.now }
{
    let mut rows = Seq::new(alloc);
    column.append_into(alloc, &mut rows, steps)?;
    Ok(rows_text(alloc, rows.as_slice())?)
}

/// The rows on the left, those on the right, and which ones they are.
fn pair_text<L: Ledger>(alloc: Global, pair: &AlignedPair, steps: &mut Steps<L>) -> Res<String>
    requires left { IsSound pair.now.left }
    requires right { IsSound pair.now.right }
{
    let left = rows(alloc, &pair.left, steps)?;
    let right = rows(alloc, &pair.right, steps)?;
    let pos = &pair.pos;
    Ok(format!(in alloc; "{left} {right} at {}..{}", pos.start, pos.end)?)
}

/// The text of the next pair; None after the last.
fn next_text<L: Ledger>(
    alloc: Global,
    pairs: &mut PairedChunks,
    steps: &mut Steps<L>,
) -> Res<Option<String>> {
    let next = pairs.next_pair(alloc, steps)?;
    match next {
        Some(pair) => Ok(Some(pair_text(alloc, &pair, steps)?)),
        None => Ok(None),
    }
}

/// Each pair of two columns.
fn paired<L: Ledger>(
    alloc: Global,
    left: &ChunkedArray,
    right: &ChunkedArray,
    steps: &mut Steps<L>,
) -> Res<String>
    requires left { IsSound (chunked_column left.now) }
    requires right { IsSound (chunked_column right.now) }
{
    let mut pairs = paired_chunks(alloc, left, right)?;
    let mut text = String::new(alloc);
    // A pair has at least one row.
    for _ in 0..left.len() {
        let Some(pair) = next_text(alloc, &mut pairs, steps)? else {
            break;
        };
        if !text.is_empty() {
            text.push_str(", ")?;
        }
        text.push_str(pair.as_str())?;
    }
    Ok(text)
}

/// Each pair of two columns of chunks.
pub(crate) fn told<L: Ledger>(
    alloc: Global,
    left: &Column,
    right: &Column,
    steps: &mut Steps<L>,
) -> Res<String>
    requires left { IsSound left.now }
    requires right { IsSound right.now }
{
    let Column::Chunked(left) = left else {
        return Err(unsupported(alloc));
    };
    let Column::Chunked(right) = right else {
        return Err(unsupported(alloc));
    };
    paired(alloc, left, right, steps)
}
