//! Which pieces of which chunks a range of rows is.
ghost use Rattle.std.specs.Prelude.{◌≡◌, ◌+◌, ◌*◌, ◌<◌, ◌≤◌, length, take, slice_index, cond, ◌==◌};
ghost use Rattle.vx_search.specs.Places.{search_bound};
ghost use Rattle.vx_base.specs.Ranges.{ends_cut};
ghost use Rattle.vx_chunks.specs.Bounds.{total};
ghost use Rattle.vx_chunks.specs.Plans.{IsPlanOf};

use crate::boundaries::Boundaries;
use std::ops::Range;
use vx_base::{Ledger, Steps};

/// The pieces of a slice. Starts and ends are places within the chunk named with them.
#[derive(Clone, Copy, Debug, PartialEq, Eq)]
pub enum SlicePlan {
    /// All rows.
    Whole,
    /// No row.
    Empty,
    /// Rows of one chunk.
    One {
        /// The chunk.
        chunk: usize,
        /// The place of the first row in it.
        start: usize,
        /// The place behind the last row in it.
        end: usize,
    },
    /// The end of one chunk, all chunks between, and the front of a later chunk.
    Many {
        /// The first chunk.
        first: usize,
        /// The place of the first row in it.
        first_start: usize,
        /// The last chunk.
        last: usize,
        /// The place behind the last row in it.
        last_end: usize,
    },
}

impl Boundaries {
    /// The pieces that rows `range.start` to below `range.end` are. A start of 0 and an end at the length are found
    /// without a search.
    pub fn plan_slice<L: Ledger>(&self, range: Range<usize>, steps: &mut Steps<L>) -> SlicePlan
        requires ordered { range.start ≤ range.end }
        requires inside { range.end ≤ total self.now }
        ensures plan { IsPlanOf self.now range.start range.end result }
        ensures rise { steps.new ≤ steps.old
            + ends_cut range.start range.end (total self.now) * search_bound (length self.now + 1) }
        ensures monotone { steps.old ≤ steps.new }
    {
        self.pieces(range, steps)
    }

    /// The same: the searches behind the call.
    fn pieces<L: Ledger>(&self, range: Range<usize>, steps: &mut Steps<L>) -> SlicePlan
        requires ordered { range.start ≤ range.end }
        requires inside { range.end ≤ total self.now }
        ensures plan { IsPlanOf self.now range.start range.end result }
        ensures rise { steps.new ≤ steps.old
            + ends_cut range.start range.end (total self.now) * search_bound (length self.now + 1) }
        ensures monotone { steps.old ≤ steps.new }
    {
        let Range { start, end } = range;
        if start == 0 && end == self.len() {
            return SlicePlan::Whole;
        }
        if start == end {
            return SlicePlan::Empty;
        }
        let (first, first_start) = self.front(start, steps);
        let (last, last_end) = self.back(end, steps);
        if first == last {
            return SlicePlan::One {
                chunk: first,
                start: first_start,
                end: last_end,
            };
        }
        SlicePlan::Many {
            first,
            first_start,
            last,
            last_end,
        }
    }

    /// The first chunk of rows from `start` on, and the place in it.
    fn front<L: Ledger>(&self, start: usize, steps: &mut Steps<L>) -> (usize, usize)
        requires { start < total self.now }
        ensures chunk { result.0 < length self.now }
        ensures place { result.1 ≤ slice_index self.now result.0 }
        ensures row { total (take result.0 self.now) + result.1 ≡ start }
        ensures rise { steps.new ≤ steps.old + cond (start == 0) 0 1 * search_bound (length self.now + 1) }
        ensures monotone { steps.old ≤ steps.new }
    {
        if start == 0 {
            return (0, 0);
        }
        self.find_chunk_idx(start, steps)
    }

    /// The last chunk of rows to below `end`, and the place there.
    fn back<L: Ledger>(&self, end: usize, steps: &mut Steps<L>) -> (usize, usize)
        requires some { 0 < end }
        requires inside { end ≤ total self.now }
        ensures chunk { result.0 < length self.now }
        ensures place { result.1 ≤ slice_index self.now result.0 }
        ensures row { total (take result.0 self.now) + result.1 ≡ end }
        ensures full { end ≡ total self.now → result.1 ≡ slice_index self.now result.0 }
        ensures rise { steps.new ≤ steps.old + cond (end == total self.now) 0 1 * search_bound (length self.now + 1) }
        ensures monotone { steps.old ≤ steps.new }
    {
        if end == self.len() {
            let last = self.nchunks() - 1;
            return (last, self.chunk_len(last));
        }
        let (last, place) = self.find_chunk_idx(end - 1, steps);
        (last, place + 1)
    }
}
