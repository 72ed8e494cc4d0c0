//! Scalars: a type, and a row that fits it.
ghost use Rattle.std.specs.Prelude.{◌≡◌, [], IsTrue, IsFalse, IfOk, IfErr, IsOkUnless};
ghost use Rattle.vx_rows.specs.Fits.{row_fits};
ghost use Rattle.vx_scalars.specs.Scalars.{scalar, IsScalar};

use std::alloc::Global;
use std::marker::Model;
use vx_rows::copy::copy_row;
use vx_rows::fits::row_fits;
use vx_rows::{ColumnError, DType, Path, Res, Row, Rule};

/// A row with a type that it fits. Contracts see the two.
pub struct Scalar {
    dtype: DType,
    row: Row,
}

impl Drop for Scalar {
    fn drop(self) {
        let Scalar { dtype: _, row: _ } = self;
    }
}

impl Model for Scalar {
    ghost use Rattle.vx_rows.specs.Fits.{row_fits};
    ghost use Rattle.std.specs.Prelude.{IsTrue};
    ghost use Rattle.vx_scalars.specs.Scalars.{ScalarView, scalar, scalar_code};

    ghost Value = { ScalarView };

    ghost coded = { scalar_code };

    ghost view = { λ s. scalar s.dtype s.row };

    ghost invariant = { λ s. IsTrue (row_fits s.dtype s.row) };
}

impl Scalar {
    /// The row with its type. Refuses exactly where it doesn't fit, and takes no memory.
    pub fn try_new(alloc: Global, dtype: DType, row: Row) -> Res<Scalar>
        ensures ok { IfOk result (λ s. (s ≡ scalar dtype row) × IsTrue (row_fits dtype row)) }
        ensures err { IfErr result (λ e. (e ≡ ColumnError.Malformed [] Rule.RowType) × IsFalse (row_fits dtype row)) }
    {
        if row_fits(&dtype, &row) {
            return Ok(Scalar { dtype, row });
        }
        Err(ColumnError::Malformed {
            at: Path::empty(alloc),
            rule: Rule::RowType,
        })
    }

    /// The type, which the row fits.
    pub fn dtype(&self) -> &DType
        ensures dtype { result.now ≡ self.now.dtype }
        ensures fits { IsScalar self.now }
    {
        &self.dtype
    }

    /// The row, which fits the type.
    pub fn row(&self) -> &Row
        ensures row { result.now ≡ self.now.row }
        ensures fits { IsScalar self.now }
    {
        &self.row
    }

    /// An equal scalar.
    pub fn copy(&self, alloc: Global) -> Res<Scalar>
        ensures ok { IfOk result (λ s. s ≡ self.now) }
        ensures fits { IfOk result IsScalar }
        ensures err { IsOkUnless result ColumnError.OutOfMemory }
    {
        Ok(Scalar {
            dtype: self.dtype.copy()?,
            row: copy_row(alloc, &self.row)?,
        })
    }
}
