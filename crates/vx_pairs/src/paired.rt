//! Ranges of rows that lie in one chunk of each of two chunked columns.
ghost use Rattle.std.specs.Prelude.{◌≡◌, ◌+◌, ◌<◌, ◌≤◌, ℕ, List, All, IfOk, IsOkUnless, length, take, slice_index};
ghost use Rattle.vx_chunks.specs.Bounds.{total};
ghost use Rattle.vx_pairs.specs.Pairs.{ArePairs, IsPair};

use std::alloc::Global;
use std::marker::Model;
use std::ops::Range;
use vx_base::{ColumnError, Res};
use vx_chunks::Boundaries;

/// Rows that are part of one chunk on both sides.
#[derive(Debug, Drop)]
pub struct PairedRange {
    /// The chunk on the left.
    pub left_chunk: usize,
    /// The places in it.
    pub left: Range<usize>,
    /// The chunk on the right.
    pub right_chunk: usize,
    /// The places in it.
    pub right: Range<usize>,
    /// The rows.
    pub pos: Range<usize>,
}

impl PairedRange {
    /// An equal one.
    fn copy(&self) -> PairedRange
        ensures { result ≡ self.now }
    {
        PairedRange {
            left_chunk: self.left_chunk,
            left: self.left.start..self.left.end,
            right_chunk: self.right_chunk,
            right: self.right.start..self.right.end,
            pos: self.pos.start..self.pos.end,
        }
    }
}

/// The ranges in order. Contracts see those that are still to come.
#[derive(Drop)]
pub struct PairedRanges {
    ranges: Vec<PairedRange>,
    next: usize,
}

impl Model for PairedRanges {
    ghost use Rattle.std.specs.Prelude.{◌≤◌, List, drop, length};
    ghost use Rattle.vx_pairs.specs.declared.paired.PairedRange.{PairedRange};

    ghost Value = { List PairedRange };

    ghost view = { λ s. drop s.next s.ranges.items };

    ghost invariant = { λ s. s.next ≤ length s.ranges.items };
}

impl PairedRanges {
    /// Those that are still to come.
    pub fn as_slice(&self) -> &[PairedRange]
        ensures { result.now ≡ self.now }
    {
        &self.ranges.as_slice()[self.next..]
    }
}

impl Iterator for PairedRanges {
    type Item = PairedRange;

    ghost use Rattle.std.specs.Iterator.{YieldsFirst, item_count};

    ghost next_gives = { YieldsFirst (λ s. s) };

    ghost remaining = { item_count (λ s. s) };

    fn next(&mut self) -> Option<PairedRange> {
        if self.next == self.ranges.len() {
            return None;
        }
        let range = self.ranges[self.next].copy();
        self.next += 1;
        Some(range)
    }
}

/// Pairs of chunks.
pub trait Pairing {
    /// The lengths of the chunks.
    ghost lengths: { Self → List ℕ };

    /// The ranges of rows that lie in one chunk of both, each as long as it can be. No boundary is searched.
    fn paired(&self, alloc: Global, other: &Boundaries) -> Res<PairedRanges>
        requires { total (lengths self.now) ≡ total other.now };
}

impl Pairing for Boundaries {
    ghost lengths = { λ lens. lens };

    fn paired(&self, alloc: Global, other: &Boundaries) -> Res<PairedRanges>
        requires { total self.now ≡ total other.now }
        ensures ok { IfOk result (ArePairs self.now other.now) }
        ensures err { IsOkUnless result ColumnError.OutOfMemory }
    {
        let ranges = ranges_of(alloc, self, other)?;
        Ok(PairedRanges { ranges, next: 0 })
    }
}

/// The ranges in order.
fn ranges_of(alloc: Global, left: &Boundaries, right: &Boundaries) -> Res<Vec<PairedRange>>
    requires { total left.now ≡ total right.now }
    ensures ok { IfOk result (λ ranges. ArePairs left.now right.now ranges.items) }
    ensures err { IsOkUnless result ColumnError.OutOfMemory }
{
    let len = left.len();
    let mut ranges = Vec::new(alloc);
    let mut left_chunk = 0;
    let mut right_chunk = 0;
    let mut row = 0;
    while row < len {
        left_chunk = chunk_from(left, left_chunk, row);
        right_chunk = chunk_from(right, right_chunk, row);
        let range = range_from(left, left_chunk, right, right_chunk, row);
        row = range.pos.end;
        ranges.push(range)?;
    }
    Ok(ranges)
}

/// The chunk that holds a row, from a chunk on that doesn't begin behind it. Walks along the boundaries.
fn chunk_from(boundaries: &Boundaries, chunk: usize, row: usize) -> usize
    requires start { total (take chunk boundaries.now) ≤ row }
    requires inside { row < total boundaries.now }
    ensures there { result < length boundaries.now }
    ensures start { total (take result boundaries.now) ≤ row }
    ensures end { row < total (take result boundaries.now) + slice_index boundaries.now result }
{
    let ends = boundaries.values();
    let mut chunk = chunk;
    while ends[chunk + 1] <= row {
        chunk += 1;
    }
    chunk
}

/// The rows from one on that lie in these chunks, which both hold it.
fn range_from(
    left: &Boundaries,
    left_chunk: usize,
    right: &Boundaries,
    right_chunk: usize,
    row: usize,
) -> PairedRange
    requires left_there { left_chunk < length left.now }
    requires left_start { total (take left_chunk left.now) ≤ row }
    requires left_end { row < total (take left_chunk left.now) + slice_index left.now left_chunk }
    requires right_there { right_chunk < length right.now }
    requires right_start { total (take right_chunk right.now) ≤ row }
    requires right_end { row < total (take right_chunk right.now) + slice_index right.now right_chunk }
    ensures pair { IsPair left.now right.now result }
    ensures from { result.pos.start ≡ row }
    ensures chunks { (result.left_chunk ≡ left_chunk) × (result.right_chunk ≡ right_chunk) }
{
    let left_ends = left.values();
    let right_ends = right.values();
    let end = left_ends[left_chunk + 1].min(right_ends[right_chunk + 1]);
    let left_start = left_ends[left_chunk];
    let right_start = right_ends[right_chunk];
    PairedRange {
        left_chunk,
        left: row - left_start..end - left_start,
        right_chunk,
        right: row - right_start..end - right_start,
        pos: row..end,
    }
}
