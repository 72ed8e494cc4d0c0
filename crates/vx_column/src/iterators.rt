//! Walks over the chunks of a chunked column.
ghost use Rattle.std.specs.Prelude.{◌≡◌, All};
ghost use Rattle.vx_column.specs.Columns.{IsSound};
ghost use Rattle.vx_column.specs.Chunks.{filled};

use crate::column::Column;
use std::marker::Model;
use std::slice;

/// The chunks in order.
pub type ChunkIter<'a> = slice::Iter<'a, Column>;

/// The chunks that have a row, in order. Contracts see those that are still to come.
#[derive(Drop)]
pub struct NonEmptyChunks<'a> {
    rest: &'a [Column],
}

impl<'a> Model for NonEmptyChunks<'a> {
    ghost use Rattle.std.specs.Prelude.{List, All};
    ghost use Rattle.vx_column.specs.Columns.{IsSound};
    ghost use Rattle.vx_column.specs.Chunks.{filled};
    ghost use Rattle.vx_column.specs.declared.column.Column.{Column};
    ghost use Rattle.vx_column.specs.contracts.column.Column as column_row;
    ghost use Rattle.std.specs.Coded.{coded_list};

    ghost Value = { List Column };

    ghost coded = { coded_list column_row.the_row.coded };

    ghost view = { λ s. filled s.rest.now };

    ghost invariant = { λ s. All IsSound s.rest.now };
}

impl<'a> NonEmptyChunks<'a> {
    /// Over these columns.
    pub(crate) fn new(columns: &'a [Column]) -> Self
        requires { All IsSound columns.now }
        ensures { result ≡ filled columns.now }
    {
        NonEmptyChunks { rest: columns }
    }
}

impl<'a> Iterator for NonEmptyChunks<'a> {
    type Item = &'a Column;

    ghost use Rattle.std.specs.Iterator.{YieldsFirstRef, item_count};

    ghost next_gives = { YieldsFirstRef (λ s. s) };

    ghost remaining = { item_count (λ s. s) };

    fn next(&mut self) -> Option<&'a Column> {
        let mut rest = self.rest;
        while let Some((first, others)) = rest.split_first() {
            rest = others;
            if first.len() > 0 {
                self.rest = rest;
                return Some(first);
            }
        }
        self.rest = rest;
        None
    }
}
