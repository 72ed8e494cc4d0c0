//! Functions of single rows.
ghost use Rattle.std.specs.Prelude.{◌≡◌, List, Option, IsTrue, IfOk, IfSome, IsOkUnless, is_some};
ghost use Rattle.vx_rows.specs.declared.dtype.DType.{DType};
ghost use Rattle.vx_rows.specs.declared.value.Value.{Value};
ghost use Rattle.vx_rows.specs.Fits.{row_fits};
ghost use Rattle.vx_scalars.specs.Scalars.{ScalarView};

use crate::scalar::Scalar;
use std::alloc::Global;
use vx_rows::{ColumnError, DType, Res, Row};

/// A function of a row, and of siblings that are the same for each row. What it answers is told by the type or the row and by
/// the siblings, and by nothing else.
pub trait RowFn {
    /// The type of what it gives for rows of a type, and None where it has nothing to give for them.
    ghost out_of: { Self → DType → List ScalarView → Option DType };

    /// What it gives for a row.
    ghost value_of: { Self → Option Value → List ScalarView → Option Value };

    /// The type of what it gives for rows of the type, and None where it has nothing to give for them.
    fn out_type(&self, alloc: Global, dtype: &DType, siblings: &[Scalar]) -> Res<Option<DType>>
        ensures ok { IfOk result (λ t. t ≡ out_of self.now dtype.now siblings.now) }
        ensures err { IsOkUnless result ColumnError.OutOfMemory };

    /// What it gives for a row of the type. That fits the type that `out_type` tells.
    fn apply(&self, alloc: Global, dtype: &DType, row: &Row, siblings: &[Scalar]) -> Res<Row>
        requires typed { IsTrue (is_some (out_of self.now dtype.now siblings.now)) }
        requires fits { IsTrue (row_fits dtype.now row.now) }
        ensures ok { IfOk result (λ r. r ≡ value_of self.now row.now siblings.now) }
        ensures fits { IfOk result (λ r. IfSome (out_of self.now dtype.now siblings.now) (λ t. IsTrue (row_fits t r))) }
        ensures err { IsOkUnless result ColumnError.OutOfMemory };
}
