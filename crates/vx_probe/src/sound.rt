//! A column that is sound, lent.
ghost use Rattle.std.specs.Prelude.{◌≡◌};
ghost use Rattle.vx_column.specs.Columns.{IsSound};

use std::marker::Model;
use vx_column::Column;

/// A column that is lent, and sound for as long. What holds it needs no condition on its reads, and none on what is
/// written beside it.
#[derive(Drop)]
pub struct SoundColumn<'a> {
    column: &'a Column,
}

impl<'a> Model for SoundColumn<'a> {
    ghost use Rattle.vx_column.specs.Columns.{IsSound};
    ghost use Rattle.vx_column.specs.declared.column.Column.{Column};
    ghost use Rattle.vx_column.specs.contracts.column.Column as column_row;

    ghost Value = { Column };

    ghost coded = { column_row.the_row.coded };

    ghost view = { λ s. s.column.now };

    ghost invariant = { λ s. IsSound s.column.now };
}

impl<'a> SoundColumn<'a> {
    /// This column.
    pub(crate) fn new(column: &'a Column) -> SoundColumn<'a>
        requires { IsSound column.now }
        ensures { result ≡ column.now }
    {
        SoundColumn { column }
    }

    /// The column.
    pub(crate) fn column(&self) -> &'a Column
        ensures value { result.now ≡ self.now }
        ensures sound { IsSound result.now }
    {
        self.column
    }
}
