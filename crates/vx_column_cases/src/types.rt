//! Calls on what a chunked column says of itself beside its chunks.
use crate::reading::type_of;
use serde_json::Value;
use std::alloc::{AllocError, Global};
use std::io;
use vx_base::{DType, Ledger, Res, Steps};
use vx_cases::{Asked, Call};
use vx_chunks::ChunkedData;

/// The types of chunks.
pub(crate) struct ChunkTypes {
    types: Vec<DType>,
}

impl Drop for ChunkTypes {
    fn drop(self) {
        let ChunkTypes { types: _ } = self;
    }
}

/// The types that a value says.
pub(crate) fn types_of(alloc: Global, value: &Value) -> io::Result<ChunkTypes> {
    let Some(values) = value.as_array() else {
        return Err(io::Error::other("types are no list"));
    };
    let mut types = Vec::new(alloc);
    for value in values {
        types.push(type_of(alloc, value)?)?;
    }
    Ok(ChunkTypes { types })
}

impl ChunkTypes {
    fn is_valid(&self, alloc: Global, value: &Value) -> Res<String> {
        let Ok(dtype) = type_of(alloc, value) else {
            return Ok(String::from_str(alloc, "no type")?);
        };
        ChunkedData::validate(self.types.as_slice(), &dtype)?;
        Ok(String::from_str(alloc, "valid")?)
    }

    fn told(&self) -> ChunkedData {
        ChunkedData {
            nchunks: self.types.len(),
        }
    }
}

impl Asked for ChunkTypes {
    fn shape(&self, alloc: Global) -> Result<String, AllocError> {
        format!(in alloc; "{}", self.told())
    }

    fn makes(&self, _call: &Call<'_>) -> bool {
        false
    }

    fn made<L: Ledger>(
        &self,
        _alloc: Global,
        _call: &Call<'_>,
        _steps: &mut Steps<L>,
    ) -> Res<Option<Self>> {
        Ok(None)
    }

    fn answer<L: Ledger>(
        &self,
        alloc: Global,
        call: &Call<'_>,
        _steps: &mut Steps<L>,
    ) -> Res<String> {
        Ok(match call.name {
            "validate" => self.is_valid(alloc, call.argument(1))?,
            "shown" => self.shape(alloc)?,
            "equals" => {
                let nchunks = call.number(1);
                let is_equal = self.told() == ChunkedData { nchunks };
                format!(in alloc; "{is_equal}")?
            }
            _ => String::from_str(alloc, "no call of types")?,
        })
    }
}
