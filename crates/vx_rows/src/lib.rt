//! Rows, their types and the errors of the project: plain data that the layers above speak of.
#![tactic(auto)]

pub mod copy;
pub mod dtype;
pub mod error;
pub mod fits;
pub mod kinds;
pub mod name;
pub mod order;
pub mod path;
pub mod seq;
pub mod shared;
pub mod text;
pub mod value;

pub use dtype::{DType, Fields};
pub use error::{ColumnError, Res, Rule, WireFault};
pub use kinds::{DecimalDType, Nullability, PType};
pub use name::Name;
pub use path::Path;
pub use seq::Seq;
pub use shared::Shared;
pub use text::Text;
pub use value::{Row, Value};
