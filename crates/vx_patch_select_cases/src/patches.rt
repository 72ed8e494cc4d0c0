//! Calls on exceptions. B are bits, as `"101"`.
//!
//! - `["filter",B]`, `["filter_cached",B]` make the exceptions of the rows whose bit is true, by a mask without cached indices
//!   and with them; `["mask",B]` makes those of the rows whose bit is false; `["slice",start,end]` makes those of these rows;
//! - `["take",F]`, `["take_with_nulls",F]` make those that indices name, and so do `["take_search",F,nulls]` and
//!   `["take_map",F,nulls]`;
//! - `["pairs"]`: each row with its exception;
//! - `["parts"]`: the type of the indices, the offset, and whether there are chunk offsets;
//! - `["nullable"]`: whether a null may be one of the values.
use crate::masks::mask_of;
use crate::takes::taken;
use serde_json::Value;
use std::alloc::{AllocError, Global};
use std::io;
use vx_base::{Ledger, Res, Steps};
use vx_cases::columns::{column_of, column_or_null, member, number, row_text};
use vx_cases::{Asked, Call};
use vx_patch_select::SelectPatches;
use vx_patches::Patches;

/// The exceptions that calls ask.
#[derive(Drop)]
pub(crate) struct AskedPatches {
    patches: Patches,
}

/// The exceptions that a case says.
pub(crate) fn patches_of(alloc: Global, value: &Value) -> io::Result<Res<AskedPatches>> {
    let len = number(value, "len")?;
    let offset = number(value, "offset")?;
    let indices = column_of(alloc, member(value, "indices")?)?;
    let values = column_of(alloc, member(value, "values")?)?;
    let chunk_offsets = column_or_null(alloc, member(value, "chunk_offsets")?)?;
    Ok(asked(Patches::new(alloc, len, offset, indices, values, chunk_offsets)))
}

fn asked(made: Res<Patches>) -> Res<AskedPatches> {
    Ok(AskedPatches { patches: made? })
}

/// What is left, where some is.
fn some_left(left: Option<Patches>) -> Option<AskedPatches> {
    match left {
        Some(patches) => Some(AskedPatches { patches }),
        None => None,
    }
}

fn filtered<L: Ledger>(
    patches: &Patches,
    alloc: Global,
    bits: &Value,
    steps: &mut Steps<L>,
) -> Res<Option<Patches>> {
    let mask = mask_of(alloc, bits)?;
    patches.filter(alloc, &mask, steps)
}

fn filtered_cached<L: Ledger>(
    patches: &Patches,
    alloc: Global,
    bits: &Value,
    steps: &mut Steps<L>,
) -> Res<Option<Patches>> {
    let mask = mask_of(alloc, bits)?.with_cached_indices(alloc)?;
    patches.filter(alloc, &mask, steps)
}

fn unmasked<L: Ledger>(
    patches: &Patches,
    alloc: Global,
    bits: &Value,
    steps: &mut Steps<L>,
) -> Res<Option<Patches>> {
    let mask = mask_of(alloc, bits)?;
    patches.mask(alloc, &mask, steps)
}

/// Adds a row and its exception.
fn push_pair<L: Ledger>(
    patches: &Patches,
    alloc: Global,
    row: usize,
    text: &mut String,
    steps: &mut Steps<L>,
) -> Res<()> {
    if let Some(exception) = patches.get_patched(alloc, row, steps)? {
        let value = row_text(alloc, &exception)?;
        let pair = format!(in alloc; "{row} to {value}; ")?;
        text.push_str(pair.as_str())?;
    }
    Ok(())
}

fn pairs_text<L: Ledger>(patches: &Patches, alloc: Global, steps: &mut Steps<L>) -> Res<String> {
    let mut text = format!(in alloc; "rows {}: ", patches.array_len())?;
    for row in 0..patches.array_len() {
        push_pair(patches, alloc, row, &mut text, steps)?;
    }
    Ok(text)
}

fn parts_text(patches: &Patches, alloc: Global) -> Res<String> {
    Ok(format!(in alloc;
        "indices of {:?}, offset {}, chunk offsets {}",
        patches.indices_ptype(),
        patches.offset(),
        patches.chunk_offsets().is_some()
    )?)
}

fn nullable_text(patches: &Patches, alloc: Global) -> Res<String> {
    let nullable = patches.dtype().nullability().is_nullable();
    Ok(format!(in alloc; "{nullable}")?)
}

impl Asked for AskedPatches {
    fn shape(&self, alloc: Global) -> Result<String, AllocError> {
        format!(in alloc;
            "rows {}, exceptions {}",
            self.patches.array_len(),
            self.patches.num_patches()
        )
    }

    fn makes(&self, call: &Call<'_>) -> bool {
        matches!(
            call.name,
            "filter"
                | "filter_cached"
                | "mask"
                | "slice"
                | "take"
                | "take_with_nulls"
                | "take_search"
                | "take_map"
        )
    }

    fn made<L: Ledger>(
        &self,
        alloc: Global,
        call: &Call<'_>,
        steps: &mut Steps<L>,
    ) -> Res<Option<Self>> {
        let left = match call.name {
            "filter" => filtered(&self.patches, alloc, call.argument(1), steps)?,
            "filter_cached" => filtered_cached(&self.patches, alloc, call.argument(1), steps)?,
            "mask" => unmasked(&self.patches, alloc, call.argument(1), steps)?,
            "slice" => self.patches.slice(call.number(1)..call.number(2), steps)?,
            _ => taken(&self.patches, alloc, call, steps)?,
        };
        Ok(some_left(left))
    }

    fn answer<L: Ledger>(
        &self,
        alloc: Global,
        call: &Call<'_>,
        steps: &mut Steps<L>,
    ) -> Res<String> {
        match call.name {
            "pairs" => pairs_text(&self.patches, alloc, steps),
            "parts" => parts_text(&self.patches, alloc),
            "nullable" => nullable_text(&self.patches, alloc),
            _ => Ok(String::from_str(alloc, "no call of exceptions")?),
        }
    }
}
