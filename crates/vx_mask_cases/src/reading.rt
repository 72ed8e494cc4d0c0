//! Bits and numbers of a case.
use serde_json::Value;
use std::alloc::{AllocError, Global};

/// A number; 0 where it is none.
pub(crate) fn number_of(value: Option<&Value>) -> usize {
    match value.and_then(Value::as_u64) {
        Some(number) => number as usize,
        None => 0,
    }
}

/// The numbers of a list; none where it is none.
pub(crate) fn numbers_of(alloc: Global, value: &Value) -> Result<Vec<usize>, AllocError> {
    let mut numbers = Vec::new(alloc);
    if let Some(values) = value.as_array() {
        for value in values {
            numbers.push(number_of(Some(value)))?;
        }
    }
    Ok(numbers)
}

/// The pairs of numbers of a list.
pub(crate) fn pairs_of(alloc: Global, value: &Value) -> Result<Vec<(usize, usize)>, AllocError> {
    let mut pairs = Vec::new(alloc);
    if let Some(values) = value.as_array() {
        for value in values {
            pairs.push((number_of(value.get(0)), number_of(value.get(1))))?;
        }
    }
    Ok(pairs)
}

/// Bits, of which `1` is a true one.
pub(crate) fn bits_of(alloc: Global, text: Option<&str>) -> Result<Vec<bool>, AllocError> {
    let mut bits = Vec::new(alloc);
    if let Some(text) = text {
        for byte in text.as_bytes() {
            bits.push(*byte == b'1')?;
        }
    }
    Ok(bits)
}

/// Bits as text.
pub(crate) fn bits_text(alloc: Global, bits: &[bool]) -> Result<String, AllocError> {
    if bits.is_empty() {
        return String::from_str(alloc, "no bits");
    }
    let mut text = String::new(alloc);
    for bit in bits {
        text.push(if *bit { '1' } else { '0' })?;
    }
    Ok(text)
}
