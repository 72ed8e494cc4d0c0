//! Sets of the unscaled numbers of decimals.
ghost use Rattle.std.specs.Prelude.{◌≡◌, ◌++◌, Option, Some, IfOk, OnOk, IsOkUnless, IsTrue, true};
ghost use Rattle.std.specs.Option.{option_to_list};
ghost use Rattle.std.specs.List.{list_all};
ghost use Rattle.vx_buffers.specs.Refs.{row_of_ref};
ghost use Rattle.vx_scalars.specs.Membership.{is_member};
ghost use Rattle.vx_haystack.specs.Keys.{fits_key, keys_of, row_decimal};
ghost use Rattle.vx_haystack.specs.Sets.{has_decimal};
ghost use Rattle.vx_rows.specs.declared.value.Value.{Value as AnyValue};

use crate::integer::SetInteger;
use crate::numbers::IntegerSet;
use std::alloc::Global;
use vx_buffers::{RowBuffer, RowRef};
use vx_rows::{ColumnError, Res, Seq, Value};

/// The unscaled numbers of decimals, of which all have one scale.
pub struct DecimalSet<T: SetInteger> {
    numbers: IntegerSet<T>,
}

impl<T: SetInteger> Drop for DecimalSet<T> {
    fn drop(self) {
        let DecimalSet { numbers: _ } = self;
    }
}

impl DecimalSet<i128> {
    /// The rows, of which each is a decimal or a null.
    pub(crate) fn new(alloc: Global, rows: &RowBuffer) -> Res<DecimalSet<i128>>
        requires { IsTrue (list_all (fits_key (λ z. true) row_decimal) rows.now) }
        ensures ok { IfOk result (λ set. (row : Option AnyValue) → has_decimal set row ≡ is_member rows.now row) }
        ensures err { IsOkUnless result ColumnError.OutOfMemory }
    {
        let values = unscaled_values(alloc, rows)?;
        let numbers = IntegerSet::new(alloc, values)?;
        Ok(DecimalSet { numbers })
    }

    /// Whether the row is a decimal of the set.
    pub(crate) fn contains(&self, row: RowRef<'_>) -> bool
        ensures { result ≡ has_decimal self.now (row_of_ref row.entry) }
    {
        match unscaled(row) {
            None => false,
            Some(unscaled) => self.numbers.contains(unscaled),
        }
    }
}

/// The unscaled number of a decimal.
fn unscaled(row: RowRef<'_>) -> Option<i128>
    ensures { result ≡ row_decimal (row_of_ref row.entry) }
{
    match row {
        RowRef::Decimal(unscaled) => Some(unscaled),
        RowRef::Value(value) => unscaled_of(value),
        _ => None,
    }
}

fn unscaled_of(value: &Value) -> Option<i128>
    ensures { result ≡ row_decimal (Some value.now) }
{
    match value {
        Value::Decimal(unscaled) => Some(*unscaled),
        _ => None,
    }
}

/// The unscaled numbers of the decimals among the rows.
fn unscaled_values(alloc: Global, rows: &RowBuffer) -> Res<Seq<i128>>
    ensures ok { IfOk result (λ values. values ≡ keys_of row_decimal rows.now) }
    ensures err { IsOkUnless result ColumnError.OutOfMemory }
{
    let mut values = Seq::new(alloc);
    for i in 0..rows.len() {
        push_some(&mut values, unscaled(rows.get(i)))?;
    }
    Ok(values)
}

/// Puts the number at the end, where there is one.
fn push_some(values: &mut Seq<i128>, unscaled: Option<i128>) -> Res<()>
    ensures ok { OnOk result (values.new ≡ values.old ++ option_to_list unscaled) }
    ensures err { IsOkUnless result ColumnError.OutOfMemory }
{
    match unscaled {
        None => Ok(()),
        Some(unscaled) => Ok(values.push(unscaled)?),
    }
}
