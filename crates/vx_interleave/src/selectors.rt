//! Checked selectors, their pairs and windows.
ghost use Rattle.std.specs.Prelude.{◌≡◌, ◌+◌, ◌<◌, ◌≤◌, None, IfOk, OnOk, IfErr, IsOkUnless};
ghost use Rattle.vx_rows.specs.declared.error.ColumnError;
ghost use Rattle.vx_base.specs.Rules.{Refuses};
ghost use Rattle.vx_interleave.specs.Selections.{IsSelection, AreWithin, selection, len_of, array_of, row_of, window_of};
ghost use Rattle.vx_interleave.specs.Rules.{selector_fault};

use crate::rules;
use std::alloc::Global;
use std::marker::Model;
use std::ops::Range;
use vx_base::{ColumnError, FlatColumn, Ledger, Path, Res, Steps};

/// For each row the number of a value, and the number of a row in it. Row `i` of a column that is interleaved of several
/// is row `row_indices[i]` of value `array_indices[i]`.
pub struct Selectors {
    array_indices: FlatColumn,
    row_indices: FlatColumn,
}

// Written out, so that letting selectors go is one call: what is derived is written at each way out of each function that
// holds some, column by column.
impl Drop for Selectors {
    fn drop(self) {
        let Selectors {
            array_indices: _,
            row_indices: _,
        } = self;
    }
}

impl Model for Selectors {
    ghost use Rattle.vx_interleave.specs.Selections.{Selection, IsSelection, selection, selection_code};

    ghost Value = { Selection };

    ghost coded = { selection_code };

    ghost view = { λ s. selection s.array_indices s.row_indices };

    ghost invariant = { λ s. IsSelection (selection s.array_indices s.row_indices) };
}

/// Whether these select rows of values of these lengths. Refuses `Malformed` by the first rule that is broken, and takes
/// no memory.
pub fn check_selectors(
    alloc: Global,
    array_indices: &FlatColumn,
    row_indices: &FlatColumn,
    lens: &[usize],
) -> Res<()>
    ensures within { OnOk result (AreWithin (selection array_indices.now row_indices.now) lens.now) }
    ensures sound { OnOk result (IsSelection (selection array_indices.now row_indices.now)) }
    ensures clean { OnOk result (selector_fault array_indices.now row_indices.now lens.now ≡ None) }
    ensures err { IfErr result (Refuses (selector_fault array_indices.now row_indices.now lens.now)) }
{
    match rules::selector_fault(array_indices, row_indices, lens) {
        Some(rule) => Err(ColumnError::Malformed {
            at: Path::empty(alloc),
            rule,
        }),
        None => Ok(()),
    }
}

impl Selectors {
    /// Checked selectors of values of these lengths. Refuses as `check_selectors` does, and takes no memory.
    pub fn try_new(
        alloc: Global,
        array_indices: FlatColumn,
        row_indices: FlatColumn,
        lens: &[usize],
    ) -> Res<Selectors>
        ensures ok { IfOk result (λ s. s ≡ selection array_indices row_indices) }
        ensures within { IfOk result (λ s. AreWithin s lens.now) }
        ensures sound { IfOk result IsSelection }
        ensures clean { OnOk result (selector_fault array_indices row_indices lens.now ≡ None) }
        ensures err { IfErr result (Refuses (selector_fault array_indices row_indices lens.now)) }
    {
        check_selectors(alloc, &array_indices, &row_indices, lens)?;
        Ok(Selectors {
            array_indices,
            row_indices,
        })
    }

    /// The number of rows.
    pub fn len(&self) -> usize
        ensures len { result ≡ len_of self.now }
        ensures sound { IsSelection self.now }
    {
        self.array_indices.len()
    }

    /// The number of a value for each row.
    pub fn array_indices(&self) -> &FlatColumn
        ensures indices { result.now ≡ self.now.array_indices }
        ensures sound { IsSelection self.now }
    {
        &self.array_indices
    }

    /// The number of a row in that value.
    pub fn row_indices(&self) -> &FlatColumn
        ensures indices { result.now ≡ self.now.row_indices }
        ensures sound { IsSelection self.now }
    {
        &self.row_indices
    }

    /// Another handle on the same selectors.
    pub fn share(&self) -> Res<Selectors>
        ensures ok { IfOk result (λ s. s ≡ self.now) }
        ensures err { IsOkUnless result ColumnError.OutOfMemory }
        ensures sound { IsSelection self.now }
    {
        Ok(Selectors {
            array_indices: self.array_indices.share()?,
            row_indices: self.row_indices.share()?,
        })
    }

    /// The two numbers of row `i`: of its value, and of its row there. Raises the steps by two.
    pub fn pair_at<L: Ledger>(&self, i: usize, steps: &mut Steps<L>) -> (usize, usize)
        requires { i < len_of self.now }
        ensures array { result.0 ≡ array_of self.now i }
        ensures row { result.1 ≡ row_of self.now i }
        ensures cost { steps.new ≡ steps.old + 2 }
        ensures sound { IsSelection self.now }
    {
        let array = self.array_indices().number_at(i, steps);
        let row = self.row_indices().number_at(i, steps);
        (array, row)
    }

    /// The selectors of the rows of the range. Copies no row.
    pub fn window(&self, range: Range<usize>) -> Res<Selectors>
        requires ordered { range.start ≤ range.end }
        requires inside { range.end ≤ len_of self.now }
        ensures ok { IfOk result (λ s. s ≡ window_of self.now range.start range.end) }
        ensures err { IsOkUnless result ColumnError.OutOfMemory }
        ensures sound { IsSelection self.now }
    {
        self.rows_between(range.start, range.end)
    }

    /// The selectors from row `start` to below row `end`.
    #[tactic(auto, unfolding(crate::specs::Selections::window_of))]
    fn rows_between(&self, start: usize, end: usize) -> Res<Selectors>
        requires ordered { start ≤ end }
        requires inside { end ≤ len_of self.now }
        ensures ok { IfOk result (λ s. s ≡ window_of self.now start end) }
        ensures err { IsOkUnless result ColumnError.OutOfMemory }
        ensures sound { IsSelection self.now }
    {
        Ok(Selectors {
            array_indices: self.array_indices().window(start..end)?,
            row_indices: self.row_indices().window(start..end)?,
        })
    }
}
