//! Rows of flat columns that exceptions replace.
use serde_json::Value;
use std::alloc::Global;
use std::io;
use vx_base::{FlatColumn, Ledger, Res, Seq, Steps};
use vx_bulk::{BoolArray, PrimitiveArray};
use vx_cases::columns::{column_of, column_or_null, member, number, rows_text};
use vx_patch_flat::PatchFlat;
use vx_patches::Patches;

/// The exceptions that a case says.
fn patches_of(alloc: Global, value: &Value) -> io::Result<Res<Patches>> {
    let len = number(value, "len")?;
    let offset = number(value, "offset")?;
    let indices = column_of(alloc, member(value, "indices")?)?;
    let values = column_of(alloc, member(value, "values")?)?;
    let chunk_offsets = column_or_null(alloc, member(value, "chunk_offsets")?)?;
    Ok(Patches::new(alloc, len, offset, indices, values, chunk_offsets))
}

/// The rows of a case's base, of which its exceptions replace some.
pub(crate) fn patched_text<L: Ledger>(
    alloc: Global,
    case: &Value,
    steps: &mut Steps<L>,
) -> io::Result<Res<String>> {
    let base = column_of(alloc, member(case, "base")?)?;
    let patches = patches_of(alloc, member(case, "patches")?)?;
    Ok(replaced(alloc, base, patches, steps))
}

fn replaced<L: Ledger>(
    alloc: Global,
    base: FlatColumn,
    patches: Res<Patches>,
    steps: &mut Steps<L>,
) -> Res<String> {
    let patches = patches?;
    let shared = base.share()?;
    if let Some(bools) = BoolArray::try_new(base) {
        let column = bools.patch(alloc, &patches, steps)?.into_column();
        return column_text(alloc, &column, steps);
    }
    if let Some(integers) = PrimitiveArray::try_new(shared) {
        let column = integers.patch(alloc, &patches, steps)?.into_column();
        return column_text(alloc, &column, steps);
    }
    Ok(String::from_str(alloc, "no array")?)
}

/// The rows, and whether they may be null.
fn column_text<L: Ledger>(alloc: Global, column: &FlatColumn, steps: &mut Steps<L>) -> Res<String> {
    let mut rows = Seq::new(alloc);
    column.copy_into(alloc, 0..column.len(), &mut rows, steps)?;
    let mut text = rows_text(alloc, rows.as_slice())?;
    if column.dtype().nullability().is_nullable() {
        text.push_str(", nullable")?;
    }
    Ok(text)
}
