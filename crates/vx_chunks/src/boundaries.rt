//! Where chunks lie in their rows: 0 and the running sums of their lengths.
ghost use Rattle.std.specs.Prelude.{◌≡◌, ◌+◌, ◌-◌, ◌^◌, ◌<◌, ◌≤◌, length, take, map, slice_index};
ghost use Rattle.std.specs.Prelude.{IfOk, OnOk, IfErr, IsOkUnless};
ghost use Rattle.vx_base.specs.Column.{flat};
ghost use Rattle.vx_search.specs.Places as searched;
ghost use Rattle.vx_chunks.specs.Causes.{SumCause};
ghost use Rattle.vx_chunks.specs.Bounds.{total, running};
ghost use Rattle.vx_chunks.specs.Offsets.{offset_type, offset_row, offsets_of};

use std::alloc::Global;
use std::marker::Model;
use vx_base::{
    ColumnError, DType, FlatColumn, Ledger, Nullability, PType, Path, Res, Rule, Seq, Shared,
    Steps, Value,
};
use vx_search::{SearchSorted, SearchSortedSide, SortedSlice, search_bound};

/// Where chunks begin and end: 0 and the running sums of their lengths, as numbers and as a flat column, both shared
/// by all handles. Contracts see the lengths.
pub struct Boundaries {
    ends: Shared<Vec<usize>>,
    offsets: FlatColumn,
}

impl Drop for Boundaries {
    fn drop(self) {
        let Boundaries {
            ends: _,
            offsets: _,
        } = self;
    }
}

impl Model for Boundaries {
    ghost use Rattle.std.specs.Prelude.{◌≡◌, ℕ, List};
    ghost use Rattle.vx_chunks.specs.Bounds.{running, gaps};
    ghost use Rattle.vx_chunks.specs.Offsets.{offsets_of};

    ghost Value = { List ℕ };

    ghost view = { λ b. gaps b.ends.items };

    ghost invariant = { λ b. (b.ends.items ≡ running 0 (gaps b.ends.items))
        × (b.offsets ≡ offsets_of (gaps b.ends.items)) };
}

impl Boundaries {
    /// The boundaries of chunks of these lengths. Refuses `Malformed` with `TooLong` exactly where the sum is no
    /// `usize`.
    pub fn from_lengths(alloc: Global, lens: &[usize]) -> Res<Self>
        ensures ok { IfOk result (λ b. b ≡ lens.now) }
        ensures fits { OnOk result (total lens.now < 2 ^ 64) }
        ensures err { IfErr result (SumCause (total lens.now)) }
    {
        let mut ends = Vec::new(alloc);
        ends.push(0)?;
        let mut sum = 0usize;
        for len in lens {
            let Some(next) = sum.checked_add(*len) else {
                return Err(ColumnError::Malformed {
                    at: Path::empty(alloc),
                    rule: Rule::TooLong,
                });
            };
            sum = next;
            ends.push(sum)?;
        }
        let offsets = offsets_column(alloc, ends.as_slice())?;
        let ends = Shared::new(alloc, ends)?;
        Ok(Boundaries { ends, offsets })
    }

    /// The boundaries: 0 and the running sums, one more than there are chunks.
    pub fn values(&self) -> &[usize]
        ensures { result.now ≡ running 0 self.now }
    {
        self.ends.get().as_slice()
    }

    /// The boundaries as a column of `u64`.
    pub fn array(&self) -> &FlatColumn
        ensures { result.now ≡ offsets_of self.now }
    {
        &self.offsets
    }

    /// How many rows stand before a chunk.
    fn at(&self, chunk: usize) -> usize
        requires { chunk ≤ length self.now }
        ensures { result ≡ total (take chunk self.now) }
    {
        self.values()[chunk]
    }

    /// The number of rows of all chunks together.
    pub fn len(&self) -> usize
        ensures { result ≡ total self.now }
    {
        self.at(self.nchunks())
    }

    /// The number of chunks.
    pub fn nchunks(&self) -> usize
        ensures { result ≡ length self.now }
    {
        self.values().len() - 1
    }

    /// The length of a chunk.
    pub fn chunk_len(&self, chunk: usize) -> usize
        requires { chunk < length self.now }
        ensures { result ≡ slice_index self.now chunk }
    {
        let ends = self.values();
        ends[chunk + 1] - ends[chunk]
    }

    /// The chunk that holds a row, never an empty one, and the row's place in it. An index at the length names the last
    /// chunk and its length, or (0, 0) where there is no chunk. Takes no memory.
    pub fn find_chunk_idx<L: Ledger>(&self, index: usize, steps: &mut Steps<L>) -> (usize, usize)
        requires { index ≤ total self.now }
        ensures row { total (take result.0 self.now) + result.1 ≡ index }
        ensures inside { index < total self.now →
            (result.0 < length self.now) × (result.1 < slice_index self.now result.0) }
        ensures last { index ≡ total self.now →
            (result.0 ≡ length self.now - 1) × (result.1 ≡ slice_index self.now result.0) }
        ensures rise { steps.new ≤ steps.old + searched.search_bound (length self.now + 1) }
        ensures monotone { steps.old ≤ steps.new }
    {
        self.place_of(index, steps)
    }

    /// The same: the search behind the call.
    fn place_of<L: Ledger>(&self, index: usize, steps: &mut Steps<L>) -> (usize, usize)
        requires { index ≤ total self.now }
        ensures row { total (take result.0 self.now) + result.1 ≡ index }
        ensures inside { index < total self.now →
            (result.0 < length self.now) × (result.1 < slice_index self.now result.0) }
        ensures last { index ≡ total self.now →
            (result.0 ≡ length self.now - 1) × (result.1 ≡ slice_index self.now result.0) }
        ensures rise { steps.new ≤ steps.old + searched.search_bound (length self.now + 1) }
        ensures monotone { steps.old ≤ steps.new }
    {
        let after = self.chunk_after(index, steps);
        let chunk = after.min(self.nchunks()).saturating_sub(1);
        (chunk, index - self.at(chunk))
    }

    /// The number of the chunk behind the one that holds a row, and of boundaries for an index at the length.
    #[tactic(auto, using(crate::proofs::Sums::found_positive, crate::proofs::Sums::found_within, crate::proofs::Sums::found_none))]
    fn chunk_after<L: Ledger>(&self, index: usize, steps: &mut Steps<L>) -> usize
        requires { index ≤ total self.now }
        ensures positive { index < total self.now → 0 < result }
        ensures within { index < total self.now → result ≤ length self.now }
        ensures below { index < total self.now → total (take (result - 1) self.now) ≤ index }
        ensures above { index < total self.now → index < total (take result self.now) }
        ensures last { index ≡ total self.now → result ≡ length self.now + 1 }
        ensures rise { steps.new ≤ steps.old + searched.search_bound (length self.now + 1) }
        ensures monotone { steps.old ≤ steps.new }
    {
        self.bound_above(index, steps)
    }

    /// Where the first boundary above an index stands, or the number of boundaries where there is none.
    fn bound_above<L: Ledger>(&self, index: usize, steps: &mut Steps<L>) -> usize
        ensures within { result ≤ length self.now + 1 }
        ensures below { 0 < result → total (take (result - 1) self.now) ≤ index }
        ensures above { result < length self.now + 1 → index < total (take result self.now) }
        ensures rise { steps.new ≤ steps.old + searched.search_bound (length self.now + 1) }
        ensures monotone { steps.old ≤ steps.new }
    {
        let mut boundaries = SortedSlice::new(self.values());
        let place = boundaries.search_sorted(&index, SearchSortedSide::Right, steps);
        place.unwrap().to_index()
    }

    /// Another handle on the same boundaries.
    pub fn share(&self) -> Res<Self>
        ensures ok { IfOk result (λ b. b ≡ self.now) }
        ensures err { IsOkUnless result ColumnError.OutOfMemory }
    {
        let ends = self.ends.share()?;
        let offsets = self.offsets.share()?;
        Ok(Boundaries { ends, offsets })
    }

    /// The most comparisons that a search over the boundaries makes.
    pub fn search_cost(&self) -> u64
        ensures { result ≡ searched.search_bound (length self.now + 1) }
    {
        search_bound(self.values().len())
    }
}

/// Numbers as a column of `u64`.
fn offsets_column(alloc: Global, numbers: &[usize]) -> Res<FlatColumn>
    ensures ok { IfOk result (λ c. c ≡ flat offset_type (map offset_row numbers.now)) }
    ensures err { IsOkUnless result ColumnError.OutOfMemory }
{
    let mut rows = Vec::new(alloc);
    for number in numbers {
        rows.push(Some(Value::Int(*number as i128)))?;
    }
    let dtype = DType::Primitive(PType::U64, Nullability::NonNullable);
    FlatColumn::try_new(alloc, dtype, Seq::from_vec(rows))
}
