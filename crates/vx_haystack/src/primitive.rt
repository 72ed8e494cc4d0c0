//! Sets of the integers of rows.
ghost use Rattle.std.specs.Prelude.{◌≡◌, ◌++◌, ◌&&◌, Option, IfOk, OnOk, IsOkUnless, IsTrue, map};
ghost use Rattle.std.specs.Option.{option_map};
ghost use Rattle.std.specs.List.{list_all};
ghost use Rattle.vx_buffers.specs.Numbers.{row_int};
ghost use Rattle.vx_buffers.specs.Refs.{row_of_ref};
ghost use Rattle.vx_scalars.specs.Membership.{is_member};
ghost use Rattle.vx_haystack.specs.Keys.{fits_key, only, passing, passing_key};
ghost use Rattle.vx_haystack.specs.Numbers.{has_number};
ghost use Rattle.vx_haystack.specs.Sets.{has_int};
ghost use Rattle.vx_rows.specs.Fits.{is_in_range};
ghost use Rattle.vx_rows.specs.declared.kinds.PType.{PType};
ghost use Rattle.vx_rows.specs.declared.value.Value.{Value as AnyValue};
ghost use Rattle.vx_rows.specs.declared.kinds.PType.TheVariants.{U8, U16, U32, U64, I8, I16, I32, I64};

use crate::integer::SetInteger;
use crate::numbers::IntegerSet;
use std::alloc::Global;
use vx_buffers::{RowBuffer, RowRef};
use vx_rows::{ColumnError, Res, Seq};

/// An integer type that a column may have.
pub(crate) trait Native: SetInteger {
    /// The column's type of these integers.
    ghost ptype: { PType };

    /// The value that a number is, where it is one of the type.
    fn narrow(wide: i128) -> Option<Self>
        ensures { option_map Self.number result ≡ only (is_in_range ptype) wide };
}

impl Native for u8 {
    ghost ptype = { U8 };

    fn narrow(wide: i128) -> Option<u8> {
        u8::try_from(wide).ok()
    }
}

impl Native for u16 {
    ghost ptype = { U16 };

    fn narrow(wide: i128) -> Option<u16> {
        u16::try_from(wide).ok()
    }
}

impl Native for u32 {
    ghost ptype = { U32 };

    fn narrow(wide: i128) -> Option<u32> {
        u32::try_from(wide).ok()
    }
}

impl Native for u64 {
    ghost ptype = { U64 };

    fn narrow(wide: i128) -> Option<u64> {
        u64::try_from(wide).ok()
    }
}

impl Native for i8 {
    ghost ptype = { I8 };

    fn narrow(wide: i128) -> Option<i8> {
        i8::try_from(wide).ok()
    }
}

impl Native for i16 {
    ghost ptype = { I16 };

    fn narrow(wide: i128) -> Option<i16> {
        i16::try_from(wide).ok()
    }
}

impl Native for i32 {
    ghost ptype = { I32 };

    fn narrow(wide: i128) -> Option<i32> {
        i32::try_from(wide).ok()
    }
}

impl Native for i64 {
    ghost ptype = { I64 };

    fn narrow(wide: i128) -> Option<i64> {
        i64::try_from(wide).ok()
    }
}

/// The integers of rows.
pub struct PrimitiveSet<T: SetInteger> {
    numbers: IntegerSet<T>,
}

impl<T: SetInteger> Drop for PrimitiveSet<T> {
    fn drop(self) {
        let PrimitiveSet { numbers: _ } = self;
    }
}

impl<T: Native> PrimitiveSet<T> {
    /// The rows, of which each is an integer of the type or a null.
    pub(crate) fn new(alloc: Global, rows: &RowBuffer) -> Res<PrimitiveSet<T>>
        requires { IsTrue (list_all (fits_key (is_in_range T.ptype) row_int) rows.now) }
        ensures ok { IfOk result (λ set. (row : Option AnyValue) → has_int (is_in_range T.ptype) T.number set row ≡ is_member rows.now row) }
        ensures err { IsOkUnless result ColumnError.OutOfMemory }
    {
        let values = native_values(alloc, rows)?;
        let numbers = IntegerSet::new(alloc, values)?;
        Ok(PrimitiveSet { numbers })
    }

    /// Whether the row is an integer of the set.
    pub(crate) fn contains(&self, row: RowRef<'_>) -> bool
        ensures { result ≡ has_int (is_in_range T.ptype) T.number self.now (row_of_ref row.entry) }
    {
        match row.int() {
            None => false,
            Some(wide) => self.contains_number(wide),
        }
    }

    fn contains_number(&self, wide: i128) -> bool
        ensures { result ≡ (is_in_range T.ptype wide && has_number T.number self.now.numbers wide) }
    {
        match T::narrow(wide) {
            None => false,
            Some(number) => self.numbers.contains(number),
        }
    }
}

/// The integers of the rows that are one of the type.
fn native_values<T: Native>(alloc: Global, rows: &RowBuffer) -> Res<Seq<T>>
    ensures ok { IfOk result (λ values. map T.number values ≡ passing (is_in_range T.ptype) row_int rows.now) }
    ensures err { IsOkUnless result ColumnError.OutOfMemory }
{
    let mut values = Seq::new(alloc);
    for i in 0..rows.len() {
        push_native(&mut values, rows.int(i))?;
    }
    Ok(values)
}

/// Puts the value that the number is at the end, where there is one of the type.
fn push_native<T: Native>(values: &mut Seq<T>, wide: Option<i128>) -> Res<()>
    ensures ok { OnOk result (map T.number values.new ≡ map T.number values.old ++ passing_key (is_in_range T.ptype) wide) }
    ensures err { IsOkUnless result ColumnError.OutOfMemory }
{
    let Some(wide) = wide else {
        return Ok(());
    };
    match T::narrow(wide) {
        None => Ok(()),
        Some(value) => Ok(values.push(value)?),
    }
}
