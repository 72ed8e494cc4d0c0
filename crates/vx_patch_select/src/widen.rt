//! Values of which a null may be one.
ghost use Rattle.std.specs.Prelude.{◌≡◌, ◌+◌, ◌≤◌, length, replicate, true, IfOk, IsOkUnless};
ghost use Rattle.vx_rows.specs.declared.error.ColumnError.TheVariants.{OutOfMemory};
ghost use Rattle.vx_base.specs.Column.{flat};
ghost use Rattle.vx_bulk.specs.Types.{nullable};

use std::alloc::Global;
use vx_base::{FlatColumn, Ledger, Res, Steps};
use vx_bulk::Bulk;

/// The same values, of which a null may be one. Where one may be already, no row is copied.
pub(crate) fn widened_values<L: Ledger>(
    values: &FlatColumn,
    alloc: Global,
    steps: &mut Steps<L>,
) -> Res<FlatColumn>
    ensures ok { IfOk result (λ c. c ≡ flat (nullable values.now.dtype) values.now.rows) }
    ensures err { IsOkUnless result OutOfMemory }
    ensures rise { steps.new ≤ steps.old + length values.now.rows }
    ensures monotone { steps.old ≤ steps.new }
{
    if values.dtype().nullability().is_nullable() {
        return values.share();
    }
    let keep = all_kept(alloc, values.len())?;
    values.mask(alloc, keep.as_slice(), steps)
}

/// So many true bits.
fn all_kept(alloc: Global, len: usize) -> Res<Vec<bool>>
    ensures ok { IfOk result (λ bits. bits.items ≡ replicate len true) }
    ensures err { IsOkUnless result OutOfMemory }
{
    Ok(vec![in alloc; true; len]?)
}
