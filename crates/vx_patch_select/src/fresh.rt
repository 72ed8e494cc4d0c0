//! Exceptions that are made of new indices.
ghost use Rattle.std.specs.Prelude.{◌≡◌, ◌-◌, ◌<◌, length, map, slice_index, IfOk, IsOkUnless};
ghost use Rattle.std.specs.List.Sorted.{IsStrictlyIncreasing};
ghost use Rattle.vx_rows.specs.declared.error.ColumnError.TheVariants.{OutOfMemory};
ghost use Rattle.vx_patch_select.specs.Patched.{numbers_flat, fresh};

use std::alloc::Global;
use vx_base::{DType, FlatColumn, Nullability, PType, Res, Seq, Value};
use vx_patches::Patches;

/// Exceptions of so many rows at these indices. Refuses want of memory alone.
pub(crate) fn fresh(
    alloc: Global,
    row_count: usize,
    indices: &[u64],
    values: FlatColumn,
) -> Res<Patches>
    requires some { 0 < length indices.now }
    requires rising { IsStrictlyIncreasing indices.now }
    requires below { slice_index indices.now (length indices.now - 1) < row_count }
    requires values { length values.rows ≡ length indices.now }
    ensures ok { IfOk result (λ p. p ≡ fresh row_count indices.now values) }
    ensures err { IsOkUnless result OutOfMemory }
{
    let column = index_column(alloc, indices)?;
    Patches::new(alloc, row_count, 0, column, values, None)
}

/// Numbers as a column of `u64`.
fn index_column(alloc: Global, numbers: &[u64]) -> Res<FlatColumn>
    ensures ok { IfOk result (λ c. c ≡ numbers_flat numbers.now) }
    ensures err { IsOkUnless result OutOfMemory }
{
    let mut rows = Vec::new(alloc);
    for number in numbers {
        rows.push(Some(Value::Int(*number as i128)))?;
    }
    let dtype = DType::Primitive(PType::U64, Nullability::NonNullable);
    FlatColumn::try_new(alloc, dtype, Seq::from_vec(rows))
}
