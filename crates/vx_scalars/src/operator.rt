//! The operators by which two rows are compared.
ghost use Rattle.std.specs.Prelude.{◌≡◌};
ghost use Rattle.vx_scalars.specs.Operators.{op_holds};

use std::cmp::Ordering;

/// A comparison of a row with a value.
#[derive(Clone, Copy, Debug, PartialEq, Eq)]
pub enum CompareOperator {
    /// The row equals the value.
    Eq,
    /// The row doesn't equal the value.
    NotEq,
    /// The row is greater than the value.
    Gt,
    /// The row is greater than the value or equal to it.
    Gte,
    /// The row is less than the value.
    Lt,
    /// The row is less than the value or equal to it.
    Lte,
}

impl CompareOperator {
    /// Whether the comparison holds of a row that stands so to the value.
    pub fn holds(self, ordering: Ordering) -> bool
        ensures { result ≡ op_holds self ordering }
    {
        match self {
            CompareOperator::Eq => ordering.is_eq(),
            CompareOperator::NotEq => ordering.is_ne(),
            CompareOperator::Gt => ordering.is_gt(),
            CompareOperator::Gte => ordering.is_ge(),
            CompareOperator::Lt => ordering.is_lt(),
            CompareOperator::Lte => ordering.is_le(),
        }
    }
}
