//! Calls on exceptions.
//!
//! - `["slice",start,end]` makes the exceptions of these rows;
//! - `["shape"]`: the numbers of rows and of exceptions, the offset, and how many exceptions of the first chunk are cut away;
//! - `["parts"]`: what the indices, the values and the chunk offsets are;
//! - `["search",row]`, `["get",row]`, `["min"]`, `["max"]`: the place of a row, its exception, and the first and the last
//!   row with one;
//! - `["entry",at]`: a chunk offset;
//! - `["into_indices"]`, `["into_values"]`: how many there are of those, taken out.
use crate::text::{number_text, place_text};
use serde_json::Value;
use std::alloc::{AllocError, Global};
use std::io;
use vx_base::{Ledger, Res, Row, Steps};
use vx_cases::columns::{column_of, column_or_null, member, number, row_text};
use vx_cases::{Asked, Call};
use vx_patches::Patches;

/// The exceptions that calls ask.
#[derive(Drop)]
pub(crate) struct AskedPatches {
    patches: Patches,
}

/// The exceptions that a case says.
pub(crate) fn patches_of(alloc: Global, value: &Value) -> io::Result<Res<AskedPatches>> {
    let len = number(value, "len")?;
    let offset = number(value, "offset")?;
    let indices = column_of(alloc, member(value, "indices")?)?;
    let values = column_of(alloc, member(value, "values")?)?;
    let chunk_offsets = column_or_null(alloc, member(value, "chunk_offsets")?)?;
    Ok(asked(Patches::new(alloc, len, offset, indices, values, chunk_offsets)))
}

fn asked(made: Res<Patches>) -> Res<AskedPatches> {
    Ok(AskedPatches { patches: made? })
}

/// An exception as text: a null is one too, and none is something else.
fn exception_text(alloc: Global, exception: &Option<Row>) -> Result<String, AllocError> {
    match exception {
        Some(row) => row_text(alloc, row),
        None => String::from_str(alloc, "none"),
    }
}

/// The exception of a row as text.
fn exception_at<L: Ledger>(
    patches: &Patches,
    alloc: Global,
    row: usize,
    steps: &mut Steps<L>,
) -> Res<String> {
    let exception = patches.get_patched(alloc, row, steps)?;
    Ok(exception_text(alloc, &exception)?)
}

fn parts_text(patches: &Patches, alloc: Global) -> Res<String> {
    Ok(format!(in alloc;
        "indices {} of {:?}, values {}, chunk offsets {}, nested {}",
        patches.indices().len(),
        patches.indices_ptype(),
        patches.values().len(),
        patches.chunk_offsets().is_some(),
        patches.dtype().is_nested()
    )?)
}

/// The same rows and values without chunk offsets, to be taken apart.
fn shared(patches: &Patches, alloc: Global) -> Res<Patches> {
    let indices = patches.indices().share()?;
    let values = patches.values().share()?;
    Patches::new(
        alloc,
        patches.array_len(),
        patches.offset(),
        indices,
        values,
        None,
    )
}

fn indices_text(patches: &Patches, alloc: Global) -> Res<String> {
    let indices = shared(patches, alloc)?.into_indices();
    number_text(alloc, indices.len())
}

fn values_text(patches: &Patches, alloc: Global) -> Res<String> {
    let values = shared(patches, alloc)?.into_values();
    number_text(alloc, values.len())
}

fn entry_text<L: Ledger>(
    patches: &Patches,
    alloc: Global,
    at: usize,
    steps: &mut Steps<L>,
) -> Res<String> {
    let entry = patches.chunk_offset_at(at, steps)?;
    number_text(alloc, entry)
}

impl Asked for AskedPatches {
    fn shape(&self, alloc: Global) -> Result<String, AllocError> {
        format!(in alloc;
            "rows {}, exceptions {}, offset {}, cut away {:?}",
            self.patches.array_len(),
            self.patches.num_patches(),
            self.patches.offset(),
            self.patches.offset_within_chunk()
        )
    }

    fn makes(&self, call: &Call<'_>) -> bool {
        call.name == "slice"
    }

    fn made<L: Ledger>(
        &self,
        _alloc: Global,
        call: &Call<'_>,
        steps: &mut Steps<L>,
    ) -> Res<Option<Self>> {
        match self.patches.slice(call.number(1)..call.number(2), steps)? {
            Some(patches) => Ok(Some(AskedPatches { patches })),
            None => Ok(None),
        }
    }

    fn answer<L: Ledger>(
        &self,
        alloc: Global,
        call: &Call<'_>,
        steps: &mut Steps<L>,
    ) -> Res<String> {
        let patches = &self.patches;
        match call.name {
            "shape" => Ok(self.shape(alloc)?),
            "parts" => parts_text(patches, alloc),
            "search" => place_text(alloc, patches.search_index(call.number(1), steps)),
            "get" => exception_at(patches, alloc, call.number(1), steps),
            "min" => number_text(alloc, patches.min_index(steps)),
            "max" => number_text(alloc, patches.max_index(steps)),
            "entry" => entry_text(patches, alloc, call.number(1), steps),
            "into_indices" => indices_text(patches, alloc),
            "into_values" => values_text(patches, alloc),
            _ => Ok(String::from_str(alloc, "no call of exceptions")?),
        }
    }
}
