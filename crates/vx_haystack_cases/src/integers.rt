//! Calls on sets of integers of one type: `i8`, `u64` or `i64`.
//!
//! - `["set",[N,..]]`: whether the set of the values is a bitmap or a sorted list, and which needles it has;
//! - `["offset",N,M]`: how far N is above M, or `none`.
use serde_json::Value;
use std::alloc::{AllocError, Global};
use std::io;
use vx_base::{Ledger, Res, Seq, Steps};
use vx_cases::{Asked, Call};
use vx_haystack::{IntegerSet, SetInteger};

/// The values of a set.
#[derive(Drop)]
pub(crate) enum Integers {
    I8(Vec<i8>),
    U64(Vec<u64>),
    I64(Vec<i64>),
}

fn small(value: &Value) -> i8 {
    match value.as_i64() {
        Some(number) => i8::try_from(number).unwrap_or(0),
        None => 0,
    }
}

fn long(value: &Value) -> u64 {
    value.as_u64().unwrap_or(0)
}

fn signed(value: &Value) -> i64 {
    value.as_i64().unwrap_or(0)
}

fn smalls(alloc: Global, value: &Value) -> Result<Vec<i8>, AllocError> {
    let mut numbers = Vec::new(alloc);
    if let Some(values) = value.as_array() {
        for value in values {
            numbers.push(small(value))?;
        }
    }
    Ok(numbers)
}

fn longs(alloc: Global, value: &Value) -> Result<Vec<u64>, AllocError> {
    let mut numbers = Vec::new(alloc);
    if let Some(values) = value.as_array() {
        for value in values {
            numbers.push(long(value))?;
        }
    }
    Ok(numbers)
}

fn signeds(alloc: Global, value: &Value) -> Result<Vec<i64>, AllocError> {
    let mut numbers = Vec::new(alloc);
    if let Some(values) = value.as_array() {
        for value in values {
            numbers.push(signed(value))?;
        }
    }
    Ok(numbers)
}

impl Integers {
    /// The values of the type of this name.
    pub(crate) fn new(alloc: Global, name: &str, values: &Value) -> io::Result<Integers> {
        match name {
            "i8" => Ok(Integers::I8(smalls(alloc, values)?)),
            "u64" => Ok(Integers::U64(longs(alloc, values)?)),
            "i64" => Ok(Integers::I64(signeds(alloc, values)?)),
            _ => Err(io::Error::other("no type of integers")),
        }
    }
}

/// What the set is, and which needles it has.
fn set_text<T: SetInteger>(alloc: Global, values: &[T], needles: &[T]) -> Res<String> {
    let set = IntegerSet::new(alloc, Seq::from_vec(Vec::from_slice(alloc, values)?))?;
    let kind = if set.is_bitmap() {
        "a bitmap:"
    } else {
        "a sorted list:"
    };
    let mut text = String::from_str(alloc, kind)?;
    for needle in needles {
        let word = if set.contains(*needle) {
            " true"
        } else {
            " false"
        };
        text.push_str(word)?;
    }
    Ok(text)
}

fn offset_text<T: SetInteger>(alloc: Global, number: T, min: T) -> Result<String, AllocError> {
    match number.offset_from(min) {
        Some(offset) => format!(in alloc; "{offset}"),
        None => String::from_str(alloc, "none"),
    }
}

fn set_answer(alloc: Global, values: &Integers, needles: &Value) -> Res<String> {
    match values {
        Integers::I8(values) => {
            let needles = smalls(alloc, needles)?;
            set_text(alloc, values.as_slice(), needles.as_slice())
        }
        Integers::U64(values) => {
            let needles = longs(alloc, needles)?;
            set_text(alloc, values.as_slice(), needles.as_slice())
        }
        Integers::I64(values) => {
            let needles = signeds(alloc, needles)?;
            set_text(alloc, values.as_slice(), needles.as_slice())
        }
    }
}

fn offset_answer(alloc: Global, values: &Integers, a: &Value, b: &Value) -> Res<String> {
    match values {
        Integers::I8(_) => Ok(offset_text(alloc, small(a), small(b))?),
        Integers::U64(_) => Ok(offset_text(alloc, long(a), long(b))?),
        Integers::I64(_) => Ok(offset_text(alloc, signed(a), signed(b))?),
    }
}

impl Asked for Integers {
    fn shape(&self, alloc: Global) -> Result<String, AllocError> {
        String::from_str(alloc, "integers")
    }

    fn makes(&self, _call: &Call<'_>) -> bool {
        false
    }

    fn made<L: Ledger>(
        &self,
        _alloc: Global,
        _call: &Call<'_>,
        _steps: &mut Steps<L>,
    ) -> Res<Option<Self>> {
        Ok(None)
    }

    fn answer<L: Ledger>(
        &self,
        alloc: Global,
        call: &Call<'_>,
        _steps: &mut Steps<L>,
    ) -> Res<String> {
        match call.name {
            "set" => set_answer(alloc, self, call.argument(1)),
            "offset" => offset_answer(alloc, self, call.argument(1), call.argument(2)),
            _ => Ok(self.shape(alloc)?),
        }
    }
}
