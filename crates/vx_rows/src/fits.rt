//! Which rows fit which types.
ghost use Rattle.std.specs.Prelude.{◌≡◌, ℕ};
ghost use Rattle.vx_rows.specs.Fits as spec;

use crate::dtype::DType;
use crate::kinds::{Nullability, PType};
use crate::name::Name;
use crate::value::{Row, Value};

impl Nullability {
    /// Whether a null is a row.
    pub fn is_nullable(self) -> bool
        ensures { result ≡ spec.is_nullable self }
    {
        self == Nullability::Nullable
    }
}

impl PType {
    /// The least number of the type.
    pub fn min(self) -> i128
        ensures { result ≡ spec.ptype_min self }
    {
        match self {
            PType::U8 | PType::U16 | PType::U32 | PType::U64 => 0,
            PType::I8 => -128,
            PType::I16 => -32768,
            PType::I32 => -2147483648,
            PType::I64 => -9223372036854775808,
        }
    }

    /// The greatest number of the type.
    pub fn max(self) -> i128
        ensures { result ≡ spec.ptype_max self }
    {
        match self {
            PType::U8 => 255,
            PType::U16 => 65535,
            PType::U32 => 4294967295,
            PType::U64 => 18446744073709551615,
            PType::I8 => 127,
            PType::I16 => 32767,
            PType::I32 => 2147483647,
            PType::I64 => 9223372036854775807,
        }
    }
}

/// Whether the row fits: a null a nullable type, and a value a type of its kind that it lies within.
pub fn row_fits(dtype: &DType, row: &Row) -> bool
    ensures { result ≡ spec.row_fits dtype.now row.now }
{
    match row {
        None => dtype.nullability().is_nullable(),
        Some(value) => value_fits(value, dtype),
    }
}

/// Whether the value is of the type's kind and lies within it.
#[cycle(fits)]
#[tactic(auto, using(crate::proofs::Fitting::fits_list, crate::proofs::Fitting::fits_fixed, crate::proofs::Fitting::fits_struct))]
pub fn value_fits(value: &Value, dtype: &DType) -> bool
    ensures { result ≡ spec.value_fits value.now dtype.now }
{
    match (value, dtype) {
        (Value::Bool(_), DType::Bool(_)) => true,
        (Value::Int(z), DType::Primitive(p, _)) => p.min() <= *z && *z <= p.max(),
        (Value::Decimal(z), DType::Decimal(d, _)) => d.holds(*z),
        (Value::Utf8(_), DType::Utf8(_)) => true,
        (Value::Binary(_), DType::Binary(_)) => true,
        (Value::List(rows), DType::List(element, _)) => rows_fit(rows.as_slice(), element.get()),
        (Value::List(rows), DType::FixedSizeList(element, size, _)) => {
            rows.len() == *size as usize && rows_fit(rows.as_slice(), element.get())
        }
        (Value::Struct(rows), DType::Struct(fields, _)) => {
            each_fits(rows.as_slice(), fields.get().list())
        }
        _ => false,
    }
}

/// Whether each row fits the type.
#[cycle(fits)]
pub fn rows_fit(rows: &[Row], dtype: &DType) -> bool
    ensures { result ≡ spec.rows_fit dtype.now rows.now }
{
    for row in rows {
        let fits = match row {
            None => dtype.nullability().is_nullable(),
            Some(value) => value_fits(value, dtype),
        };
        if !fits {
            return false;
        }
    }
    true
}

#[cycle(fits)]
#[tactic(auto, using(crate::proofs::Fitting::each_fits_length))]
fn each_fits(rows: &[Row], fields: &[(Name, DType)]) -> bool
    ensures { result ≡ spec.each_fits spec.value_fits fields.now rows.now }
{
    if rows.len() != fields.len() {
        return false;
    }
    for (i, row) in rows.iter().enumerate() {
        let (_, dtype) = &fields[i];
        let fits = match row {
            None => dtype.nullability().is_nullable(),
            Some(value) => value_fits(value, dtype),
        };
        if !fits {
            return false;
        }
    }
    true
}
