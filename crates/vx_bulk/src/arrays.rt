//! Flat columns whose kind is known by their type.
ghost use Rattle.std.specs.Prelude.{◌≡◌, cond, IsTrue, Some, None};
ghost use Rattle.vx_base.specs.Numbers.{is_integer};
ghost use Rattle.vx_buffers.specs.Fits.{is_bool};

use std::marker::Model;
use vx_base::{DType, FlatColumn};

/// A flat column of booleans. Contracts see the column.
pub struct BoolArray {
    column: FlatColumn,
}

impl Drop for BoolArray {
    fn drop(self) {
        let BoolArray { column: _ } = self;
    }
}

impl Model for BoolArray {
    ghost use Rattle.std.specs.Prelude.{IsTrue};
    ghost use Rattle.vx_base.specs.Column.{Flat, flat_code};
    ghost use Rattle.vx_buffers.specs.Fits.{is_bool};

    ghost Value = { Flat };

    ghost coded = { flat_code };

    ghost view = { λ array. array.column };

    ghost invariant = { λ array. IsTrue (is_bool array.column.dtype) };
}

impl BoolArray {
    /// The column as an array, exactly where its type is boolean.
    pub fn try_new(column: FlatColumn) -> Option<BoolArray>
        ensures { result ≡ cond (is_bool column.dtype) (Some column) None }
    {
        if !matches!(column.dtype(), DType::Bool(_)) {
            return None;
        }
        Some(BoolArray { column })
    }

    /// The column, lent.
    pub fn column(&self) -> &FlatColumn
        ensures column { result.now ≡ self.now }
        ensures bools { IsTrue (is_bool self.now.dtype) }
    {
        &self.column
    }

    /// The column, taken out.
    pub fn into_column(self) -> FlatColumn
        ensures column { result ≡ self }
        ensures bools { IsTrue (is_bool self.dtype) }
    {
        let BoolArray { column } = self;
        column
    }
}

/// A flat column of integers. Contracts see the column.
pub struct PrimitiveArray {
    column: FlatColumn,
}

impl Drop for PrimitiveArray {
    fn drop(self) {
        let PrimitiveArray { column: _ } = self;
    }
}

impl Model for PrimitiveArray {
    ghost use Rattle.std.specs.Prelude.{IsTrue};
    ghost use Rattle.vx_base.specs.Column.{Flat, flat_code};
    ghost use Rattle.vx_base.specs.Numbers.{is_integer};

    ghost Value = { Flat };

    ghost coded = { flat_code };

    ghost view = { λ array. array.column };

    ghost invariant = { λ array. IsTrue (is_integer array.column.dtype) };
}

impl PrimitiveArray {
    /// The column as an array, exactly where its type is one of integers.
    pub fn try_new(column: FlatColumn) -> Option<PrimitiveArray>
        ensures { result ≡ cond (is_integer column.dtype) (Some column) None }
    {
        if !matches!(column.dtype(), DType::Primitive(_, _)) {
            return None;
        }
        Some(PrimitiveArray { column })
    }

    /// The column, lent.
    pub fn column(&self) -> &FlatColumn
        ensures column { result.now ≡ self.now }
        ensures integers { IsTrue (is_integer self.now.dtype) }
    {
        &self.column
    }

    /// The column, taken out.
    pub fn into_column(self) -> FlatColumn
        ensures column { result ≡ self }
        ensures integers { IsTrue (is_integer self.dtype) }
    {
        let PrimitiveArray { column } = self;
        column
    }
}
