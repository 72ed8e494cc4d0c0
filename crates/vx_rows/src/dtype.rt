//! The types of columns.
ghost use Rattle.std.specs.Prelude.{◌≡◌, ◌↔◌, IsTrue, IsFalse, IfOk, IsOk, IsOkUnless};
ghost use Rattle.vx_rows.specs.Types as spec;

use crate::error::{ColumnError, Res};
use crate::kinds::{DecimalDType, Nullability, PType};
use crate::name::Name;
use crate::seq::Seq;
use crate::shared::Shared;

/// The type of a column. Types share what they hold.
#[cycle(dtype)]
pub enum DType {
    Bool(Nullability),
    Primitive(PType, Nullability),
    Decimal(DecimalDType, Nullability),
    Utf8(Nullability),
    Binary(Nullability),
    List(Shared<DType>, Nullability),
    FixedSizeList(Shared<DType>, u32, Nullability),
    Struct(Shared<Fields>, Nullability),
}

/// The fields of a struct type: names and types, in order.
#[cycle(dtype)]
#[derive(Drop)]
pub struct Fields {
    list: Seq<(Name, DType)>,
}

impl Drop for DType {
    #[cycle(drop)]
    fn drop(self) {
        match self {
            DType::Bool(_nullability) => {}
            DType::Primitive(_number, _nullability) => {}
            DType::Decimal(_number, _nullability) => {}
            DType::Utf8(_nullability) => {}
            DType::Binary(_nullability) => {}
            DType::List(_item, _nullability) => {}
            DType::FixedSizeList(_item, _size, _nullability) => {}
            DType::Struct(_fields, _nullability) => {}
        }
    }
}

impl DType {
    /// Whether a null is a row of the type.
    pub fn nullability(&self) -> Nullability
        ensures { result ≡ spec.nullability self.now }
    {
        match self {
            DType::Bool(n)
            | DType::Primitive(_, n)
            | DType::Decimal(_, n)
            | DType::Utf8(n)
            | DType::Binary(n)
            | DType::List(_, n)
            | DType::FixedSizeList(_, _, n)
            | DType::Struct(_, n) => *n,
        }
    }

    /// The same type, with this outermost nullability.
    pub fn with_nullability(self, nullability: Nullability) -> DType
        ensures { result ≡ spec.with_nullability self nullability }
    {
        match self {
            DType::Bool(_) => DType::Bool(nullability),
            DType::Primitive(p, _) => DType::Primitive(p, nullability),
            DType::Decimal(d, _) => DType::Decimal(d, nullability),
            DType::Utf8(_) => DType::Utf8(nullability),
            DType::Binary(_) => DType::Binary(nullability),
            DType::List(t, _) => DType::List(t, nullability),
            DType::FixedSizeList(t, size, _) => DType::FixedSizeList(t, size, nullability),
            DType::Struct(fields, _) => DType::Struct(fields, nullability),
        }
    }

    /// Whether the rows hold rows: lists, lists of fixed size and structs.
    pub fn is_nested(&self) -> bool
        ensures { result ≡ spec.is_nested self.now }
    {
        matches!(
            self,
            DType::List(_, _) | DType::FixedSizeList(_, _, _) | DType::Struct(_, _)
        )
    }

    /// Whether the two differ at most in the outermost nullability.
    pub fn eq_ignore_nullability(&self, other: &DType) -> bool
        ensures { IsTrue result ↔ spec.AlikeTypes self.now other.now }
    {
        match (self, other) {
            (DType::Bool(_), DType::Bool(_)) => true,
            (DType::Primitive(p, _), DType::Primitive(q, _)) => p == q,
            (DType::Decimal(c, _), DType::Decimal(d, _)) => c == d,
            (DType::Utf8(_), DType::Utf8(_)) => true,
            (DType::Binary(_), DType::Binary(_)) => true,
            (DType::List(s, _), DType::List(t, _)) => same_type(s.get(), t.get()),
            (DType::FixedSizeList(s, j, _), DType::FixedSizeList(t, k, _)) => {
                j == k && same_type(s.get(), t.get())
            }
            (DType::Struct(s, _), DType::Struct(t, _)) => same_fields(s.get(), t.get()),
            _ => false,
        }
    }

    /// An equal type, which shares what is inside. Only a nested type can want memory.
    pub fn copy(&self) -> Res<DType>
        ensures ok { IfOk result (λ t. t ≡ self.now) }
        ensures err { IsOkUnless result ColumnError.OutOfMemory }
        ensures free { IsFalse (spec.is_nested self.now) → IsOk result }
    {
        match self {
            DType::Bool(n) => Ok(DType::Bool(*n)),
            DType::Primitive(p, n) => Ok(DType::Primitive(*p, *n)),
            DType::Decimal(d, n) => Ok(DType::Decimal(*d, *n)),
            DType::Utf8(n) => Ok(DType::Utf8(*n)),
            DType::Binary(n) => Ok(DType::Binary(*n)),
            DType::List(t, n) => Ok(DType::List(t.share()?, *n)),
            DType::FixedSizeList(t, size, n) => Ok(DType::FixedSizeList(t.share()?, *size, *n)),
            DType::Struct(fields, n) => Ok(DType::Struct(fields.share()?, *n)),
        }
    }
}

impl Fields {
    /// The fields in this order. Names may be repeated.
    pub fn new(list: Vec<(Name, DType)>) -> Fields
        ensures { spec.fields_of result ≡ list.items }
    {
        Fields {
            list: Seq::from_vec(list),
        }
    }

    /// The fields, lent.
    pub fn list(&self) -> &[(Name, DType)]
        ensures { result.now ≡ spec.fields_of self.now }
    {
        self.list.as_slice()
    }
}

/// Whether the two types are equal, nullability and all.
#[cycle(same)]
pub fn same_type(a: &DType, b: &DType) -> bool
    ensures { IsTrue result ↔ (a.now ≡ b.now) }
{
    match (a, b) {
        (DType::Bool(m), DType::Bool(n)) => m == n,
        (DType::Primitive(p, m), DType::Primitive(q, n)) => p == q && m == n,
        (DType::Decimal(c, m), DType::Decimal(d, n)) => c == d && m == n,
        (DType::Utf8(m), DType::Utf8(n)) => m == n,
        (DType::Binary(m), DType::Binary(n)) => m == n,
        (DType::List(s, m), DType::List(t, n)) => m == n && same_type(s.get(), t.get()),
        (DType::FixedSizeList(s, j, m), DType::FixedSizeList(t, k, n)) => {
            j == k && m == n && same_type(s.get(), t.get())
        }
        (DType::Struct(s, m), DType::Struct(t, n)) => m == n && same_fields(s.get(), t.get()),
        _ => false,
    }
}

#[cycle(same)]
fn same_fields(a: &Fields, b: &Fields) -> bool
    ensures { IsTrue result ↔ (a.now ≡ b.now) }
{
    let a = a.list.as_slice();
    let b = b.list.as_slice();
    if a.len() != b.len() {
        return false;
    }
    for (i, (name, dtype)) in a.iter().enumerate() {
        let (other_name, other) = &b[i];
        if name.as_str() != other_name.as_str() || !same_type(dtype, other) {
            return false;
        }
    }
    true
}
