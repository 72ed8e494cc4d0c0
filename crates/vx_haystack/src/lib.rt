//! Sets of rows, made once and asked often: which of many needles are among the elements of a column.
#![tactic(auto)]

pub mod array;
mod bits;
mod bytes;
mod decimal;
pub mod integer;
mod lookups;
mod members;
pub mod numbers;
mod primitive;
mod rows;
mod sorted;

pub use array::ArrayHaystack;
pub use bytes::BytesSet;
pub use decimal::DecimalSet;
pub use integer::SetInteger;
pub use numbers::IntegerSet;
pub use primitive::PrimitiveSet;
pub use rows::RowSet;
