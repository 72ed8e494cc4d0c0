//! The masks and the indices of calls.
use serde_json::Value;
use std::alloc::{AllocError, Global};
use vx_base::Res;
use vx_masks::Mask;

/// A mask of the bits of a text, as `"101"`.
pub(crate) fn mask_of(alloc: Global, text: &Value) -> Res<Mask> {
    let bits = bits_of(alloc, text.as_str().unwrap_or(""))?;
    Mask::from_bits(alloc, bits.as_slice())
}

fn bits_of(alloc: Global, text: &str) -> Result<Vec<bool>, AllocError> {
    let mut bits = Vec::new(alloc);
    for bit in text.bytes() {
        bits.push(bit == b'1')?;
    }
    Ok(bits)
}

/// Indices, of which `null` is absent.
pub(crate) fn indices_of(alloc: Global, value: &Value) -> Result<Vec<Option<usize>>, AllocError> {
    let mut indices = Vec::new(alloc);
    if let Some(items) = value.as_array() {
        for item in items {
            indices.push(index_of(item))?;
        }
    }
    Ok(indices)
}

fn index_of(value: &Value) -> Option<usize> {
    match value.as_u64() {
        Some(number) => Some(number as usize),
        None => None,
    }
}
