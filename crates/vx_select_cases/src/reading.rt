//! Parts, masks, indices and runs out of the JSON of a case.
use serde_json::Value;
use std::alloc::{AllocError, Global};
use std::io;
use vx_job::Part;
use vx_json::parts;
use vx_json_rows::Trail;

/// The part that a value says.
pub(crate) fn part_of(alloc: Global, value: &Value) -> io::Result<Part> {
    parts::part_of(alloc, value, &Trail::Whole(alloc)).map_err(|_| io::Error::other(
        "a part has no form",
    ))
}

/// The elements of a list; none where it is no list.
fn items(value: &Value) -> &[Value] {
    match value.as_array() {
        Some(values) => values,
        None => &[],
    }
}

/// The bits of a list.
pub(crate) fn bits_of(alloc: Global, value: &Value) -> Result<Vec<bool>, AllocError> {
    let mut bits = Vec::new(alloc);
    for value in items(value) {
        bits.push(value.as_bool() == Some(true))?;
    }
    Ok(bits)
}

/// The indices of a list; what is no number is absent.
pub(crate) fn indices_of(alloc: Global, value: &Value) -> Result<Vec<Option<usize>>, AllocError> {
    let mut indices = Vec::new(alloc);
    for value in items(value) {
        indices.push(index_of(value))?;
    }
    Ok(indices)
}

fn index_of(value: &Value) -> Option<usize> {
    match value.as_u64() {
        Some(number) => Some(number as usize),
        None => None,
    }
}

fn number_at(value: &Value, at: usize) -> usize {
    value.get(at).and_then(index_of).unwrap_or(0)
}

/// The runs of a list of pairs.
pub(crate) fn runs_of(alloc: Global, value: &Value) -> Result<Vec<(usize, usize)>, AllocError> {
    let mut runs = Vec::new(alloc);
    for value in items(value) {
        runs.push((number_at(value, 0), number_at(value, 1)))?;
    }
    Ok(runs)
}
