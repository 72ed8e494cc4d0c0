//! The rows of columns.
use crate::seq::Seq;
use crate::text::Text;

/// A value, by its kind.
pub enum Value {
    /// True or false.
    Bool(bool),
    /// A whole number, of a primitive type.
    Int(i128),
    /// The unscaled number of a decimal.
    Decimal(i128),
    /// A text.
    Utf8(Text),
    /// Bytes.
    Binary(Seq<u8>),
    /// The rows of a list, or of a list of fixed size.
    List(Seq<Row>),
    /// One row for each field, in the order of the fields.
    Struct(Seq<Row>),
}

impl Drop for Value {
    fn drop(self) {
        match self {
            Value::Bool(_truth) => {}
            Value::Int(_number) => {}
            Value::Decimal(_number) => {}
            Value::Utf8(_text) => {}
            Value::Binary(_bytes) => {}
            Value::List(_rows) => {}
            Value::Struct(_rows) => {}
        }
    }
}

/// A row: a null, or a value.
pub type Row = Option<Value>;
