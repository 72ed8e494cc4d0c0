//! Parts, types and lengths out of the JSON of a case.
use serde_json::Value;
use std::alloc::Global;
use std::io;
use vx_base::DType;
use vx_job::Part;
use vx_json::parts;
use vx_json_rows::{Trail, types};

/// The part that a value says.
pub(crate) fn part_of(alloc: Global, value: &Value) -> io::Result<Part> {
    parts::part_of(alloc, value, &Trail::Whole(alloc)).map_err(|_| io::Error::other(
        "a part has no form",
    ))
}

/// The parts that a value says.
pub(crate) fn parts_of(alloc: Global, value: &Value) -> io::Result<Vec<Part>> {
    parts::parts_of(alloc, value, &Trail::Whole(alloc)).map_err(|_| io::Error::other(
        "parts have no form",
    ))
}

/// The type that a value says.
pub(crate) fn type_of(alloc: Global, value: &Value) -> io::Result<DType> {
    types::type_of(value, &Trail::Whole(alloc)).map_err(|_| io::Error::other("a type has no form"))
}

/// The numbers that a value says.
pub(crate) fn numbers_of(alloc: Global, value: &Value) -> io::Result<Vec<usize>> {
    let Some(values) = value.as_array() else {
        return Err(io::Error::other("numbers are no list"));
    };
    let mut numbers = Vec::new(alloc);
    for value in values {
        match value.as_u64() {
            Some(number) => numbers.push(number as usize)?,
            None => return Err(io::Error::other("a number is none")),
        }
    }
    Ok(numbers)
}
