//! Single rows that know their type, what compares and computes them one by one, and what the calls mean that work on each row
//! of a column by itself.
#![tactic(auto)]

pub mod operator;
pub mod order;
pub mod row_fn;
pub mod scalar;

pub use operator::CompareOperator;
pub use row_fn::RowFn;
pub use scalar::Scalar;
