//! Calls on the types of chunks.
use serde_json::Value;
use std::alloc::{AllocError, Global};
use vx_base::{ColumnError, DType, Ledger, Path, Res, Steps};
use vx_cases::columns::dtype_of;
use vx_cases::{Asked, Call};
use vx_chunks::ChunkedData;

/// Whom calls on the types of chunks ask.
#[derive(Drop)]
pub(crate) struct Types {
    types: Vec<DType>,
}

/// The type of this name. One that isn't known is refused as `Unsupported`.
fn named(alloc: Global, value: &Value) -> Res<DType> {
    match value.as_str().and_then(dtype_of) {
        Some(dtype) => Ok(dtype),
        None => Err(ColumnError::Unsupported {
            at: Path::empty(alloc),
        }),
    }
}

pub(crate) fn types_of(alloc: Global, value: &Value) -> Res<Types> {
    let mut types = Vec::new(alloc);
    if let Some(names) = value.as_array() {
        for name in names {
            types.push(named(alloc, name)?)?;
        }
    }
    Ok(Types { types })
}

impl Asked for Types {
    fn shape(&self, alloc: Global) -> Result<String, AllocError> {
        format!(in alloc; "types {}", self.types.len())
    }

    fn makes(&self, _call: &Call<'_>) -> bool {
        false
    }

    fn made<L: Ledger>(
        &self,
        _alloc: Global,
        _call: &Call<'_>,
        _steps: &mut Steps<L>,
    ) -> Res<Option<Self>> {
        Ok(None)
    }

    fn answer<L: Ledger>(
        &self,
        alloc: Global,
        call: &Call<'_>,
        _steps: &mut Steps<L>,
    ) -> Res<String> {
        let dtype = named(alloc, call.argument(1))?;
        ChunkedData::validate(self.types.as_slice(), &dtype)?;
        Ok(String::from_str(alloc, "alike")?)
    }
}
