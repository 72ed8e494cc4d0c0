//! The four kinds of sets, by the type of their elements.
ghost use Rattle.std.specs.Prelude.{◌≡◌, Option, IfOk, IsOkUnless, IsTrue, true};
ghost use Rattle.std.specs.List.{list_all};
ghost use Rattle.vx_buffers.specs.Numbers.{row_int};
ghost use Rattle.vx_buffers.specs.Refs.{row_of_ref};
ghost use Rattle.vx_haystack.specs.Members.{members_have};
ghost use Rattle.vx_haystack.specs.Keys.{fits_key, row_text, row_binary};
ghost use Rattle.vx_rows.specs.Fits.{is_in_range, rows_fit};
ghost use Rattle.vx_rows.specs.declared.value.Value.{Value as AnyValue};
ghost use Rattle.vx_scalars.specs.Membership.{is_member};

use crate::bytes::BytesSet;
use crate::decimal::DecimalSet;
use crate::primitive::PrimitiveSet;
use crate::rows::RowSet;
use std::alloc::Global;
use vx_base::{ColumnError, DType, PType, Res, RowBuffer, RowRef};

/// A set of rows, of the kind that serves their type.
pub(crate) enum Members {
    U8(PrimitiveSet<u8>),
    U16(PrimitiveSet<u16>),
    U32(PrimitiveSet<u32>),
    U64(PrimitiveSet<u64>),
    I8(PrimitiveSet<i8>),
    I16(PrimitiveSet<i16>),
    I32(PrimitiveSet<i32>),
    I64(PrimitiveSet<i64>),
    Decimals(DecimalSet<i128>),
    Texts(BytesSet),
    Binaries(BytesSet),
    /// Booleans, lists and structs.
    Rows(RowSet),
}

impl Drop for Members {
    fn drop(self) {
        match self {
            Members::U8(_set) => {}
            Members::U16(_set) => {}
            Members::U32(_set) => {}
            Members::U64(_set) => {}
            Members::I8(_set) => {}
            Members::I16(_set) => {}
            Members::I32(_set) => {}
            Members::I64(_set) => {}
            Members::Decimals(_set) => {}
            Members::Texts(_set) => {}
            Members::Binaries(_set) => {}
            Members::Rows(_set) => {}
        }
    }
}

impl Members {
    /// The rows, of this type, that are values.
    pub(crate) fn new(alloc: Global, dtype: &DType, rows: &RowBuffer) -> Res<Members>
        requires { IsTrue (rows_fit dtype.now rows.now) }
        ensures ok { IfOk result (λ members. (row : Option AnyValue) → members_have members row ≡ is_member rows.now row) }
        ensures err { IsOkUnless result ColumnError.OutOfMemory }
    {
        match dtype {
            DType::Primitive(ptype, _) => Members::of_integers(alloc, *ptype, rows),
            DType::Decimal(_, _) => Ok(Members::Decimals(DecimalSet::new(alloc, rows)?)),
            DType::Utf8(_) => Members::of_texts(alloc, rows),
            DType::Binary(_) => Members::of_binaries(alloc, rows),
            _ => Ok(Members::Rows(RowSet::new(alloc, rows)?)),
        }
    }

    fn of_integers(alloc: Global, ptype: PType, rows: &RowBuffer) -> Res<Members>
        requires { IsTrue (list_all (fits_key (is_in_range ptype) row_int) rows.now) }
        ensures ok { IfOk result (λ members. (row : Option AnyValue) → members_have members row ≡ is_member rows.now row) }
        ensures err { IsOkUnless result ColumnError.OutOfMemory }
    {
        match ptype {
            PType::U8 => Ok(Members::U8(PrimitiveSet::new(alloc, rows)?)),
            PType::U16 => Ok(Members::U16(PrimitiveSet::new(alloc, rows)?)),
            PType::U32 => Ok(Members::U32(PrimitiveSet::new(alloc, rows)?)),
            PType::U64 => Ok(Members::U64(PrimitiveSet::new(alloc, rows)?)),
            PType::I8 => Ok(Members::I8(PrimitiveSet::new(alloc, rows)?)),
            PType::I16 => Ok(Members::I16(PrimitiveSet::new(alloc, rows)?)),
            PType::I32 => Ok(Members::I32(PrimitiveSet::new(alloc, rows)?)),
            PType::I64 => Ok(Members::I64(PrimitiveSet::new(alloc, rows)?)),
        }
    }

    fn of_texts(alloc: Global, rows: &RowBuffer) -> Res<Members>
        requires { IsTrue (list_all (fits_key (λ b. true) row_text) rows.now) }
        ensures ok { IfOk result (λ members. (row : Option AnyValue) → members_have members row ≡ is_member rows.now row) }
        ensures err { IsOkUnless result ColumnError.OutOfMemory }
    {
        Ok(Members::Texts(BytesSet::new(alloc, rows)?))
    }

    fn of_binaries(alloc: Global, rows: &RowBuffer) -> Res<Members>
        requires { IsTrue (list_all (fits_key (λ b. true) row_binary) rows.now) }
        ensures ok { IfOk result (λ members. (row : Option AnyValue) → members_have members row ≡ is_member rows.now row) }
        ensures err { IsOkUnless result ColumnError.OutOfMemory }
    {
        Ok(Members::Binaries(BytesSet::new(alloc, rows)?))
    }

    /// Whether the row is a value of the set.
    pub(crate) fn contains(&self, row: RowRef<'_>) -> bool
        ensures { result ≡ members_have self.now (row_of_ref row.entry) }
    {
        match self {
            Members::U8(set) => set.contains(row),
            Members::U16(set) => set.contains(row),
            Members::U32(set) => set.contains(row),
            Members::U64(set) => set.contains(row),
            Members::I8(set) => set.contains(row),
            Members::I16(set) => set.contains(row),
            Members::I32(set) => set.contains(row),
            Members::I64(set) => set.contains(row),
            Members::Decimals(set) => set.contains(row),
            Members::Texts(set) => set.contains_text(row),
            Members::Binaries(set) => set.contains_binary(row),
            Members::Rows(set) => set.contains(row),
        }
    }
}
