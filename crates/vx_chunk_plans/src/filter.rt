//! What a filter keeps of each chunk.
ghost use Rattle.std.specs.Prelude.{◌≡◌, ◌+◌, ◌-◌, ◌<◌, ◌≤◌, ◌^◌, ◌∷◌, ◌++◌, [], ℕ, All, IfOk, OnOk, IsTrue, IsOkUnless, true, false, cond, length, take, drop};
ghost use Rattle.std.specs.List.{AllZip, range_with_len};
ghost use Rattle.vx_masks.specs.Bits.{places_of};
ghost use Rattle.vx_masks.specs.Masks.{bits_of};
ghost use Rattle.vx_chunks.specs.Bounds.{total};
ghost use Rattle.vx_chunk_plans.specs.Filters.{slice_places, kept_places, kept_rows, keeps_most, IsSliceOf, KeepsWithin, IsSuited};

use std::alloc::Global;
use vx_base::{ColumnError, Res, Seq};
use vx_chunks::Boundaries;
use vx_masks::Mask;

/// What a filter keeps of a chunk. All numbers are places in the chunk.
pub enum ChunkFilter {
    /// All rows.
    All,
    /// No row.
    None,
    /// The rows from the start of each slice to below its end.
    Slices(Seq<(usize, usize)>),
    /// The rows at the indices.
    Indices(Seq<usize>),
}

impl Drop for ChunkFilter {
    fn drop(self) {
        match self {
            ChunkFilter::All => {}
            ChunkFilter::None => {}
            ChunkFilter::Slices(_slices) => {}
            ChunkFilter::Indices(_indices) => {}
        }
    }
}

/// What the mask keeps of each chunk.
pub(crate) fn chunk_filters(
    boundaries: &Boundaries,
    alloc: Global,
    mask: &Mask,
) -> Res<Vec<ChunkFilter>>
    requires { length (bits_of mask.now) ≡ total boundaries.now }
    ensures ok { IfOk result (λ filters. kept_rows boundaries.now filters.items ≡ places_of (bits_of mask.now)) }
    ensures within { IfOk result (λ filters. AllZip KeepsWithin boundaries.now filters.items) }
    ensures suited { IfOk result (λ filters. All (IsSuited (keeps_most (bits_of mask.now))) filters.items) }
    ensures err { IsOkUnless result ColumnError.OutOfMemory }
{
    // The chunks end at a number.
    let _ = mask.len();
    let most = keeps_most(mask);
    let mut filters = Vec::new(alloc);
    let mut start = 0;
    for chunk in 0..boundaries.nchunks() {
        let len = boundaries.chunk_len(chunk);
        filters.push(chunk_filter(alloc, mask, start, len, most)?)?;
        start += len;
    }
    Ok(filters)
}

/// Whether at least four of five bits are true. No product of the lengths is made, which may be too large.
#[tactic(auto, using(crate::proofs::Keeping::most_is))]
fn keeps_most(mask: &Mask) -> bool
    ensures { result ≡ keeps_most (bits_of mask.now) }
{
    mask.len() - mask.true_count() <= mask.len() / 5
}

/// What the mask keeps of the chunk of `len` rows from `start` on: slices where `most` rows of the whole are kept, and indices
/// where they aren't.
fn chunk_filter(
    alloc: Global,
    mask: &Mask,
    start: usize,
    len: usize,
    most: bool,
) -> Res<ChunkFilter>
    requires { start + len ≤ length (bits_of mask.now) }
    ensures ok { IfOk result (λ filter. kept_places len filter ≡ places_of (take len (drop start (bits_of mask.now)))) }
    ensures within { IfOk result (KeepsWithin len) }
    ensures suited { IfOk result (IsSuited most) }
    ensures err { IsOkUnless result ColumnError.OutOfMemory }
{
    if most {
        let slices = slices_in(alloc, mask, start, len)?;
        return Ok(by_slices(slices, len));
    }
    let indices = indices_in(alloc, mask, start, len)?;
    Ok(by_indices(indices, len))
}

/// The filter of these slices of `len` rows.
#[tactic(auto, using(crate::proofs::Keeping::one_slice))]
fn by_slices(slices: Vec<(usize, usize)>, len: usize) -> ChunkFilter
    requires { All (IsSliceOf len) slices.items }
    ensures places { kept_places len result ≡ slice_places slices.items }
    ensures within { KeepsWithin len result }
    ensures suited { IsSuited true result }
{
    if slices.is_empty() {
        return ChunkFilter::None;
    }
    if is_whole(slices.as_slice(), len) {
        return ChunkFilter::All;
    }
    ChunkFilter::Slices(Seq::from_vec(slices))
}

/// Whether these are one slice, of all rows.
fn is_whole(slices: &[(usize, usize)], len: usize) -> bool
    ensures { IsTrue result → slices.now ≡ (0, len) ∷ [] }
{
    match slices {
        [(start, end)] => *start == 0 && *end == len,
        _ => false,
    }
}

/// The filter of these indices of `len` rows, which rise strictly.
fn by_indices(indices: Vec<usize>, len: usize) -> ChunkFilter
    requires below { All (λ i. i < len) indices.items }
    requires whole { length indices.items ≡ len → indices.items ≡ range_with_len 0 len }
    ensures places { kept_places len result ≡ indices.items }
    ensures within { KeepsWithin len result }
    ensures suited { IsSuited false result }
{
    if indices.is_empty() {
        return ChunkFilter::None;
    }
    if indices.len() == len {
        return ChunkFilter::All;
    }
    ChunkFilter::Indices(Seq::from_vec(indices))
}

/// The places of the true bits among `len` from `start` on.
#[tactic(auto, using(crate::proofs::Keeping::next_yes, crate::proofs::Keeping::next_no))]
fn indices_in(alloc: Global, mask: &Mask, start: usize, len: usize) -> Res<Vec<usize>>
    requires { start + len ≤ length (bits_of mask.now) }
    ensures ok { IfOk result (λ indices. indices.items ≡ places_of (take len (drop start (bits_of mask.now)))) }
    ensures below { IfOk result (λ indices. All (λ i. i < len) indices.items) }
    ensures whole { IfOk result (λ indices. length indices.items ≡ len → indices.items ≡ range_with_len 0 len) }
    ensures err { IsOkUnless result ColumnError.OutOfMemory }
{
    // The chunk ends at a number.
    let _ = mask.len();
    let mut indices = Vec::new(alloc);
    for i in 0..len {
        if mask.value(start + i) {
            indices.push(i)?;
        }
    }
    Ok(indices)
}

/// The slices of true bits among `len` from `start` on.
fn slices_in(alloc: Global, mask: &Mask, start: usize, len: usize) -> Res<Vec<(usize, usize)>>
    requires { start + len ≤ length (bits_of mask.now) }
    ensures ok { IfOk result (λ slices. slice_places slices.items ≡ places_of (take len (drop start (bits_of mask.now)))) }
    ensures within { IfOk result (λ slices. All (IsSliceOf len) slices.items) }
    ensures err { IsOkUnless result ColumnError.OutOfMemory }
{
    // The chunk ends at a number.
    let _ = mask.len();
    let mut slices = Vec::new(alloc);
    let mut from = 0;
    for i in 0..len {
        from = step(&mut slices, mask.value(start + i), from, i)?;
    }
    close(&mut slices, from, len)?;
    Ok(slices)
}

/// One bit more, before which a slice from `from` on, which may be empty, is still to be added. It is added where the bit is
/// false, and the next one starts behind it. Gives the start of the slice.
#[tactic(auto, using(crate::proofs::Keeping::open_longer, crate::proofs::Keeping::open_added))]
fn step(slices: &mut Vec<(usize, usize)>, bit: bool, from: usize, i: usize) -> Res<usize>
    requires order { from ≤ i }
    requires fits { i + 1 < 2 ^ 64 }
    ensures start { IfOk result (λ next. next ≤ i + 1) }
    ensures ok { IfOk result (λ next. slice_places slices.new.items ++ range_with_len next (i + 1 - next)
        ≡ (slice_places slices.old.items ++ range_with_len from (i - from)) ++ cond bit (i ∷ []) []) }
    ensures within { (n : ℕ) → i < n → All (IsSliceOf n) slices.old.items → OnOk result (All (IsSliceOf n) slices.new.items) }
    ensures err { IsOkUnless result ColumnError.OutOfMemory }
{
    if bit {
        return Ok(from);
    }
    close(slices, from, i)?;
    Ok(i + 1)
}

/// Adds a slice, unless it is empty.
#[tactic(auto, using(crate::proofs::Keeping::slice_added, crate::proofs::Keeping::slice_none))]
fn close(slices: &mut Vec<(usize, usize)>, start: usize, end: usize) -> Res<()>
    requires { start ≤ end }
    ensures ok { OnOk result (slice_places slices.new.items
        ≡ slice_places slices.old.items ++ range_with_len start (end - start)) }
    ensures within { (n : ℕ) → end ≤ n → All (IsSliceOf n) slices.old.items → OnOk result (All (IsSliceOf n) slices.new.items) }
    ensures err { IsOkUnless result ColumnError.OutOfMemory }
{
    if start < end {
        slices.push((start, end))?;
    }
    Ok(())
}
