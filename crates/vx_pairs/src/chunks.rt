//! The chunks of two columns side by side.
ghost use Rattle.std.specs.Prelude.{◌≡◌, ◌+◌, ◌<◌, ◌≤◌, All, IfOk, IfErr, OnOk, OnErr, IsOkUnless, length, map, take, slice_index};
ghost use Rattle.vx_chunks.specs.Bounds.{total};
ghost use Rattle.vx_column.specs.Columns.{IsSound, IsSliceOf, len_of, chunks_of};
ghost use Rattle.vx_column.specs.declared.column.Column.TheVariants.{Chunked as chunked_column};
ghost use Rattle.vx_pairs.specs.Pairs.{ArePairs, IsPair};
ghost use Rattle.vx_pairs.specs.Chunks.{AreAllPairs, IsPairAt, IsNext};
ghost use Rattle.vx_pairs.specs.Causes.{PairCause};

use crate::paired::{PairedRange, PairedRanges, Pairing};
use std::alloc::Global;
use std::marker::Model;
use std::ops::Range;
use vx_base::{ColumnError, Ledger, Res, Steps};
use vx_column::{ChunkedArray, Column};

/// The same rows of two columns, which are part of one chunk of each.
pub struct AlignedPair {
    /// The rows on the left.
    pub left: Column,
    /// The rows on the right.
    pub right: Column,
    /// Which rows they are.
    pub pos: Range<usize>,
}

impl Drop for AlignedPair {
    fn drop(self) {
        let AlignedPair {
            left: _,
            right: _,
            pos: _,
        } = self;
    }
}

/// Pairs of slices of two chunked columns. Contracts see the columns, and the ranges that are still to come.
pub struct PairedChunks {
    left: ChunkedArray,
    right: ChunkedArray,
    ranges: PairedRanges,
}

impl Drop for PairedChunks {
    fn drop(self) {
        let PairedChunks {
            left: _,
            right: _,
            ranges: _,
        } = self;
    }
}

impl Model for PairedChunks {
    ghost use Rattle.std.specs.Prelude.{All, map};
    ghost use Rattle.vx_column.specs.Columns.{IsSound, len_of, chunks_of};
    ghost use Rattle.vx_column.specs.declared.column.Column.TheVariants.{Chunked as chunked_column};
    ghost use Rattle.vx_pairs.specs.Pairs.{IsPair};
    ghost use Rattle.vx_pairs.specs.Chunks.{ToCome, to_come, to_come_code};

    ghost Value = { ToCome };

    ghost coded = { to_come_code };

    ghost view = { λ s. to_come (chunked_column s.left) (chunked_column s.right) s.ranges };

    ghost invariant = { λ s. IsSound (chunked_column s.left) × IsSound (chunked_column s.right)
        × All (IsPair (map len_of (chunks_of s.left)) (map len_of (chunks_of s.right))) s.ranges };
}

/// The slices of the ranges of rows that lie in one chunk of both columns. No boundary is searched.
pub fn paired_chunks(alloc: Global, left: &ChunkedArray, right: &ChunkedArray) -> Res<PairedChunks>
    requires left { IsSound (chunked_column left.now) }
    requires right { IsSound (chunked_column right.now) }
    ensures ok { IfOk result (AreAllPairs left.now right.now) }
    ensures long { OnOk result (len_of (chunked_column right.now) ≡ len_of (chunked_column left.now)) }
    ensures err { IfErr result (PairCause (len_of (chunked_column left.now)) (len_of (chunked_column right.now))) }
{
    let expected = left.len();
    let found = right.len();
    if found != expected {
        return Err(ColumnError::LengthMismatch { expected, found });
    }
    let ranges = left.boundaries().paired(alloc, right.boundaries())?;
    pairs_of(left, right, ranges)
}

/// The slices of these ranges.
fn pairs_of(left: &ChunkedArray, right: &ChunkedArray, ranges: PairedRanges) -> Res<PairedChunks>
    requires left { IsSound (chunked_column left.now) }
    requires right { IsSound (chunked_column right.now) }
    requires ranges { ArePairs (map len_of (chunks_of left.now)) (map len_of (chunks_of right.now)) ranges }
    ensures ok { IfOk result (AreAllPairs left.now right.now) }
    ensures err { IsOkUnless result ColumnError.OutOfMemory }
{
    let left = left.share()?;
    let right = right.share()?;
    Ok(PairedChunks {
        left,
        right,
        ranges,
    })
}

impl PairedChunks {
    /// The next pair, and None after the last. A refusal leaves all pairs to come as they were.
    pub fn next_pair<L: Ledger>(
        &mut self,
        alloc: Global,
        steps: &mut Steps<L>,
    ) -> Res<Option<AlignedPair>>
        ensures ok { IfOk result (IsNext self.old self.new) }
        ensures left { OnErr result (self.new ≡ self.old) }
        ensures err { IsOkUnless result ColumnError.OutOfMemory }
        ensures monotone { steps.old ≤ steps.new }
    {
        match self.ranges.as_slice().first() {
            None => Ok(None),
            Some(range) => {
                let pair = slices_at(&self.left, &self.right, alloc, range, steps)?;
                let _ = self.ranges.next();
                Ok(Some(pair))
            }
        }
    }
}

/// The rows of a range, of both columns.
fn slices_at<L: Ledger>(
    left: &ChunkedArray,
    right: &ChunkedArray,
    alloc: Global,
    range: &PairedRange,
    steps: &mut Steps<L>,
) -> Res<AlignedPair>
    requires left { IsSound (chunked_column left.now) }
    requires right { IsSound (chunked_column right.now) }
    requires pair { IsPair (map len_of (chunks_of left.now)) (map len_of (chunks_of right.now)) range.now }
    ensures ok { IfOk result (IsPairAt (chunked_column left.now) (chunked_column right.now) range.now) }
    ensures err { IsOkUnless result ColumnError.OutOfMemory }
    ensures monotone { steps.old ≤ steps.new }
{
    let front = slice_in(left, alloc, range.left_chunk, &range.left, steps)?;
    let back = slice_in(right, alloc, range.right_chunk, &range.right, steps)?;
    Ok(AlignedPair {
        left: front,
        right: back,
        pos: range.pos.start..range.pos.end,
    })
}

/// The rows at these places of a chunk.
fn slice_in<L: Ledger>(
    array: &ChunkedArray,
    alloc: Global,
    chunk: usize,
    places: &Range<usize>,
    steps: &mut Steps<L>,
) -> Res<Column>
    requires sound { IsSound (chunked_column array.now) }
    requires there { chunk < length (chunks_of array.now) }
    requires some { places.now.start < places.now.end }
    requires inside { places.now.end ≤ slice_index (map len_of (chunks_of array.now)) chunk }
    ensures ok { IfOk result (λ part. IsSliceOf (chunked_column array.now) part
        (total (take chunk (map len_of (chunks_of array.now))) + places.now.start)
        (total (take chunk (map len_of (chunks_of array.now))) + places.now.end)) }
    ensures err { IsOkUnless result ColumnError.OutOfMemory }
    ensures monotone { steps.old ≤ steps.new }
{
    let chunks = array.children();
    chunks[chunk].slice(alloc, places.start..places.end, steps)
}
