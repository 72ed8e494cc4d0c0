//! Chunks of decoded values, which exceptions are written into.
ghost use Rattle.std.specs.Prelude.{◌≡◌, ℕ, ◌+◌, ◌-◌, ◌*◌, ◌<◌, ◌≤◌, ◌^◌, length, map, slice_index, slice_set};
ghost use Rattle.vx_bulk.specs.Selections.{overlaid};
ghost use Rattle.vx_patch_flat.specs.Chunks.{chunk_start, chunk_end, place_at, place_behind, pairs_in, pairs_of_chunk, IsDecoded};

use std::ops::Range;
use vx_patches::PATCH_CHUNK_SIZE;

/// The unsigned integers that indices and chunk offsets are of.
pub trait UnsignedPType: Copy {
    /// The number.
    ghost number: { Self → ℕ };

    /// The same number.
    fn to_usize(self) -> usize
        ensures { result ≡ number self };
}

impl UnsignedPType for u8 {
    ghost number = { λ n. n };

    fn to_usize(self) -> usize {
        usize::from(self)
    }
}

impl UnsignedPType for u16 {
    ghost number = { λ n. n };

    fn to_usize(self) -> usize {
        usize::from(self)
    }
}

impl UnsignedPType for u32 {
    ghost number = { λ n. n };

    fn to_usize(self) -> usize {
        self as usize
    }
}

impl UnsignedPType for u64 {
    ghost number = { λ n. n };

    fn to_usize(self) -> usize {
        self as usize
    }
}

/// The rows of a chunk among `array_len` rows, of which the first is row `offset` of the whole.
pub fn chunk_range(chunk_idx: usize, offset: usize, array_len: usize) -> Range<usize>
    requires { (chunk_idx + 1) * 1024 < 2 ^ 64 }
    ensures start { result.start ≡ chunk_start chunk_idx offset }
    ensures end { result.end ≡ chunk_end chunk_idx offset array_len }
{
    let phase = offset % PATCH_CHUNK_SIZE;
    let start = (chunk_idx * PATCH_CHUNK_SIZE).saturating_sub(phase);
    let end = ((chunk_idx + 1) * PATCH_CHUNK_SIZE)
        .saturating_sub(phase)
        .min(array_len);
    start..end
}

/// Writes the exceptions of a chunk over its decoded values; all else stays. Takes no memory.
pub fn patch_chunk<T: Copy, I: UnsignedPType, C: UnsignedPType>(
    decoded_values: &mut [T],
    patches_indices: &[I],
    patches_values: &[T],
    patches_offset: usize,
    chunk_offsets_slice: &[C],
    chunk_idx: usize,
    offset_within_chunk: usize,
)
    requires alike { length patches_indices.now ≡ length patches_values.now }
    requires chunk { chunk_idx < length chunk_offsets_slice.now }
    requires fits { (chunk_idx + 1) * 1024 < 2 ^ 64 }
    requires decoded { let offsets = map C.number chunk_offsets_slice.now in let indices = map I.number patches_indices.now in
        (place : ℕ) → place_at offsets offset_within_chunk chunk_idx ≤ place → place < place_behind offsets offset_within_chunk chunk_idx (length indices)
        → IsDecoded patches_offset chunk_idx (length decoded_values.old) (slice_index indices place) }
    ensures { let offsets = map C.number chunk_offsets_slice.now in let pairs = pairs_in patches_offset chunk_idx (map I.number patches_indices.now) patches_values.now in
        decoded_values.new ≡ overlaid decoded_values.old (pairs_of_chunk offsets offset_within_chunk chunk_idx pairs) }
{
    let count = patches_indices.len();
    let (first, end) = chunk_places(chunk_offsets_slice, chunk_idx, offset_within_chunk, count);
    let start = chunk_range(chunk_idx, patches_offset, usize::MAX).start;
    for place in first..end {
        let index = patches_indices[place].to_usize();
        write(
            decoded_values,
            index,
            patches_values[place],
            patches_offset,
            start,
        );
    }
}

/// Writes a value over the decoded one of the row that has an index.
fn write<T: Copy>(decoded: &mut [T], index: usize, value: T, offset: usize, start: usize)
    requires from { offset + start ≤ index }
    requires below { index < offset + start + length decoded.old }
    ensures { decoded.new ≡ slice_set decoded.old (index - offset - start) value }
{
    let row = index - offset - start;
    decoded[row] = value;
}

/// From and to which place the exceptions of a chunk stand among `count`: those that `patch_chunk` writes.
pub fn chunk_places<C: UnsignedPType>(
    chunk_offsets: &[C],
    chunk_idx: usize,
    within: usize,
    count: usize,
) -> (usize, usize)
    requires { chunk_idx < length chunk_offsets.now }
    ensures first { result.0 ≡ place_at (map C.number chunk_offsets.now) within chunk_idx }
    ensures end { result.1 ≡ place_behind (map C.number chunk_offsets.now) within chunk_idx count }
{
    let first = place_at(chunk_offsets, chunk_idx, within);
    if chunk_idx == chunk_offsets.len() - 1 {
        return (first, count);
    }
    (
        first,
        place_at(chunk_offsets, chunk_idx + 1, within).min(count),
    )
}

/// The place that a chunk's entry says.
fn place_at<C: UnsignedPType>(chunk_offsets: &[C], chunk_idx: usize, within: usize) -> usize
    requires { chunk_idx < length chunk_offsets.now }
    ensures { result ≡ place_at (map C.number chunk_offsets.now) within chunk_idx }
{
    let base = chunk_offsets[0].to_usize();
    let entry = chunk_offsets[chunk_idx].to_usize();
    entry.saturating_sub(base).saturating_sub(within)
}
