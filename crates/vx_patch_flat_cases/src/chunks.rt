//! Chunks of decoded values that exceptions are written into.
//!
//! K is `{"zeros":n,"indices":[n],"values":[n],"offset":n,"chunk_offsets":[n],"chunk":n,"within":n}`: so many decoded zeros.
//! With `"narrow":true` the indices are read as of 16 bits and the chunk offsets as of 8, and else as of 64 and of 32. The
//! answer is the place and the value of each decoded value that isn't 0.
ghost use Rattle.std.specs.Prelude.{ℕ, ◌+◌, ◌<◌, ◌≤◌, IsTrue, length, map, slice_index};
ghost use Rattle.vx_patch_flat.specs.Chunks.{IsDecoded};

use serde_json::Value;
use std::alloc::{AllocError, Global};
use std::io;
use vx_cases::columns::{member, number};
use vx_patch_flat::{UnsignedPType, chunk_places, chunk_range, patch_chunk};

/// No case has so many chunks.
const MOST_CHUNKS: usize = 1000000;

/// The numbers of a list.
fn numbers_of(alloc: Global, value: &Value) -> io::Result<Vec<u64>> {
    let Some(values) = value.as_array() else {
        return Err(io::Error::other("there is no list of numbers"));
    };
    let mut numbers = Vec::new(alloc);
    for value in values {
        numbers.push(value.as_u64().unwrap_or(0))?;
    }
    Ok(numbers)
}

fn number_at(numbers: &[u64], at: usize) -> usize {
    match numbers.get(at) {
        Some(number) => *number as usize,
        None => 0,
    }
}

/// The rows of a chunk.
pub(crate) fn range_text(alloc: Global, value: &Value) -> io::Result<String> {
    let numbers = numbers_of(alloc, value)?;
    let chunk = number_at(numbers.as_slice(), 0);
    if chunk >= MOST_CHUNKS {
        return Ok(String::from_str(alloc, "not allowed")?);
    }
    let rows = chunk_range(
        chunk,
        number_at(numbers.as_slice(), 1),
        number_at(numbers.as_slice(), 2),
    );
    Ok(format!(in alloc; "{rows:?}")?)
}

/// The numbers, of a type of fewer bits; 0 where one doesn't fit.
fn in_16_bits(alloc: Global, numbers: &[u64]) -> Result<Vec<u16>, AllocError> {
    let mut narrow = Vec::new(alloc);
    for number in numbers {
        narrow.push(u16::try_from(*number).unwrap_or(0))?;
    }
    Ok(narrow)
}

fn in_8_bits(alloc: Global, numbers: &[u64]) -> Result<Vec<u8>, AllocError> {
    let mut narrow = Vec::new(alloc);
    for number in numbers {
        narrow.push(u8::try_from(*number).unwrap_or(0))?;
    }
    Ok(narrow)
}

fn in_32_bits(alloc: Global, numbers: &[u64]) -> Result<Vec<u32>, AllocError> {
    let mut narrow = Vec::new(alloc);
    for number in numbers {
        narrow.push(u32::try_from(*number).unwrap_or(0))?;
    }
    Ok(narrow)
}

/// The decoded values of a chunk with its exceptions in them.
pub(crate) fn chunk_text(alloc: Global, value: &Value) -> io::Result<String> {
    let indices = numbers_of(alloc, member(value, "indices")?)?;
    let chunk_offsets = numbers_of(alloc, member(value, "chunk_offsets")?)?;
    let decoded = if value.get("narrow").is_some() {
        let indices = in_16_bits(alloc, indices.as_slice())?;
        let chunk_offsets = in_8_bits(alloc, chunk_offsets.as_slice())?;
        decoded_of(alloc, value, indices.as_slice(), chunk_offsets.as_slice())?
    } else {
        let chunk_offsets = in_32_bits(alloc, chunk_offsets.as_slice())?;
        decoded_of(alloc, value, indices.as_slice(), chunk_offsets.as_slice())?
    };
    match decoded {
        Some(decoded) => Ok(written_text(alloc, decoded.as_slice())?),
        None => Ok(String::from_str(alloc, "not allowed")?),
    }
}

/// The decoded values of a case, where it may be asked.
fn decoded_of<I: UnsignedPType, C: UnsignedPType>(
    alloc: Global,
    value: &Value,
    indices: &[I],
    chunk_offsets: &[C],
) -> io::Result<Option<Vec<u64>>> {
    let values = numbers_of(alloc, member(value, "values")?)?;
    let offset = number(value, "offset")?;
    let chunk = number(value, "chunk")?;
    let within = number(value, "within")?;
    let mut decoded = zeros(alloc, number(value, "zeros")?)?;
    let is_written = write(
        decoded.as_mut_slice(),
        indices,
        values.as_slice(),
        offset,
        chunk_offsets,
        chunk,
        within,
    );
    Ok(if is_written { Some(decoded) } else { None })
}

fn zeros(alloc: Global, count: usize) -> Result<Vec<u64>, AllocError> {
    let mut zeros = Vec::new(alloc);
    for _ in 0..count {
        zeros.push(0)?;
    }
    Ok(zeros)
}

/// Writes the exceptions, where the call may be made.
fn write<I: UnsignedPType, C: UnsignedPType>(
    decoded: &mut [u64],
    indices: &[I],
    values: &[u64],
    offset: usize,
    chunk_offsets: &[C],
    chunk: usize,
    within: usize,
) -> bool {
    if indices.len() != values.len() || chunk >= chunk_offsets.len() || chunk >= MOST_CHUNKS {
        return false;
    }
    let (first, end) = chunk_places(chunk_offsets, chunk, within, indices.len());
    if !are_decoded(indices, offset, chunk, first, end, decoded.len()) {
        return false;
    }
    patch_chunk(
        decoded,
        indices,
        values,
        offset,
        chunk_offsets,
        chunk,
        within,
    );
    true
}

/// Whether the indices from a place to another are of decoded rows of the chunk.
fn are_decoded<I: UnsignedPType>(
    indices: &[I],
    offset: usize,
    chunk: usize,
    first: usize,
    end: usize,
    len: usize,
) -> bool
    requires chunk { chunk < 1000000 }
    requires inside { end ≤ length indices.now }
    ensures { IsTrue result → (place : ℕ) → first ≤ place → place < end → IsDecoded offset chunk len (slice_index (map I.number indices.now) place) }
{
    let start = chunk_range(chunk, offset, usize::MAX).start;
    for place in first..end {
        if !is_decoded(indices[place].to_usize(), offset, start, len) {
            return false;
        }
    }
    true
}

fn is_decoded(index: usize, offset: usize, start: usize, len: usize) -> bool
    ensures from { IsTrue result → offset + start ≤ index }
    ensures below { IsTrue result → index < offset + start + len }
{
    index >= offset && index - offset >= start && index - offset - start < len
}

/// The values that aren't 0, and their places.
fn written_text(alloc: Global, decoded: &[u64]) -> Result<String, AllocError> {
    let mut text = String::from_str(alloc, "written")?;
    for (place, value) in decoded.iter().enumerate() {
        if *value != 0 {
            let pair = format!(in alloc; " {place}:{value}")?;
            text.push_str(pair.as_str())?;
        }
    }
    Ok(text)
}
