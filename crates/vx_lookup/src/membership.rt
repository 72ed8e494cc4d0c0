//! Membership of the rows of a column in those of another.
ghost use Rattle.std.specs.Prelude.{◌≡◌, ◌≤◌, ◌⊎◌, IfOk, OnOk, IfErr, IsOkUnless, Some, None, cond, map, length};
ghost use Rattle.vx_rows.specs.Types.{AlikeTypes};
ghost use Rattle.vx_scalars.specs.Membership.{memberships};
ghost use Rattle.vx_job.specs.Elementwise.{IsTypeError};
ghost use Rattle.vx_column.specs.Columns.{IsSound, type_of, rows_of};
ghost use Rattle.vx_lookup.specs.Bits.{bits_where};
ghost use Rattle.vx_lookup.specs.Causes.{ContainsCause};

use std::alloc::Global;
use vx_base::{ColumnError, Ledger, Res, Seq, Steps};
use vx_column::Column;
use vx_haystack::ArrayHaystack;
use vx_pairs::flat_rows;

/// For each row of the column whether some row of the set is equal to it, and null where the row is null. Reads each row
/// of both at most once, beside what it takes to lay them flat.
pub fn contains<L: Ledger>(
    alloc: Global,
    column: &Column,
    set: &Column,
    steps: &mut Steps<L>,
) -> Res<Seq<Option<bool>>>
    requires column { IsSound column.now }
    requires set { IsSound set.now }
    ensures ok { IfOk result (λ bits. bits ≡ memberships (rows_of set.now) (rows_of column.now)) }
    ensures alike { OnOk result (AlikeTypes (type_of column.now) (type_of set.now)) }
    ensures err { IfErr result (ContainsCause (type_of column.now) (type_of set.now)) }
    ensures monotone { steps.old ≤ steps.new }
{
    if !column.dtype().eq_ignore_nullability(set.dtype()) {
        return Err(ColumnError::MismatchedTypes);
    }
    let elements = flat_rows(alloc, set, steps)?;
    let haystack = ArrayHaystack::try_new(alloc, &elements, steps)?;
    let needles = flat_rows(alloc, column, steps)?;
    let (bits, validity) = haystack.contains(alloc, &needles, steps)?;
    let present = validity.to_bits(alloc, bits.len())?;
    joined(alloc, bits.as_slice(), present.as_slice())
}

/// The bits of the rows that are there, and null for the others.
fn joined(alloc: Global, bits: &[bool], present: &[bool]) -> Res<Seq<Option<bool>>>
    requires { length bits.now ≡ length present.now }
    ensures ok { IfOk result (λ all. all ≡ bits_where bits.now present.now) }
    ensures err { IsOkUnless result ColumnError.OutOfMemory }
{
    let mut all = Vec::with_capacity(alloc, bits.len())?;
    for i in 0..bits.len() {
        all.push(entry(bits[i], present[i]))?;
    }
    Ok(Seq::from_vec(all))
}

fn entry(bit: bool, is_present: bool) -> Option<bool>
    ensures { result ≡ cond is_present (Some bit) None }
{
    if is_present { Some(bit) } else { None }
}
