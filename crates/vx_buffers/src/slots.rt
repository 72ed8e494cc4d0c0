//! Packed lists of values and nulls.
ghost use Rattle.std.specs.Prelude.{◌≡◌, ◌<◌, ◌≤◌, [], ◌∷◌, ◌++◌, length, reverse, take, get_or, Some, None, true, IfOk, OnOk, OnErr};
ghost use Rattle.std.specs.List.{slice_range};

use std::alloc::{AllocError, Global};
use std::marker::Model;
use std::ops::Range;

/// A list whose elements are values or nulls. A null costs a value that stands for it and a mark, and values that no
/// null follows cost no mark. Contracts see the list.
pub struct Slots<T> {
    items: Vec<T>,
    marks: Vec<bool>,
}

impl<T: Drop> Drop for Slots<T> {
    fn drop(self) {
        let Slots { items: _, marks: _ } = self;
    }
}

impl<T> Model for Slots<T> {
    ghost use Rattle.std.specs.Prelude.{List, Option};
    ghost use Rattle.std.specs.Coded.{coded_list, coded_option};
    ghost use Rattle.vx_buffers.specs.Cells.{cells};

    ghost Value = { List (Option T) };

    ghost coded = { coded_list (coded_option T.code) };

    ghost view = { λ s. cells s.marks.items s.items.items };
}

impl<T> Slots<T> {
    /// No elements, which take no memory.
    pub fn new(alloc: Global) -> Slots<T>
        ensures { result ≡ [] }
    {
        Slots {
            items: Vec::new(alloc),
            marks: Vec::new(alloc),
        }
    }

    /// No elements, and room for so many values.
    pub fn with_capacity(alloc: Global, count: usize) -> Result<Slots<T>, AllocError>
        ensures { IfOk result (λ s. s ≡ []) }
    {
        let items = Vec::with_capacity(alloc, count)?;
        Ok(Slots {
            items,
            marks: Vec::new(alloc),
        })
    }

    /// The number of elements.
    #[tactic(auto, using(crate::proofs::Cells::length_cells))]
    pub fn len(&self) -> usize
        ensures { result ≡ length self.now }
    {
        self.items.len()
    }
}

impl<T: Copy> Slots<T> {
    /// Element `i`.
    #[tactic(auto, using(crate::proofs::Cells::length_cells))]
    pub fn get(&self, i: usize) -> Option<T>
        requires { i < length self.now }
        ensures { result ≡ get_or self.now i None }
    {
        let items = self.items.as_slice();
        let marks = self.marks.as_slice();
        if is_marked(marks, i) {
            Some(items[i])
        } else {
            None
        }
    }

    /// Puts a value at the end. A refusal leaves the list as it was.
    pub fn push(&mut self, item: T) -> Result<(), AllocError>
        ensures ok { OnOk result (self.new ≡ self.old ++ Some item ∷ []) }
        ensures err { OnErr result (self.new ≡ self.old) }
    {
        let n = self.len();
        self.marks.truncate(n);
        self.items.push(item)?;
        Ok(())
    }

    /// Puts a null at the end, for which any value stands. A refusal leaves the list as it was.
    pub fn push_null(&mut self, filler: T) -> Result<(), AllocError>
        ensures ok { OnOk result (self.new ≡ self.old ++ None ∷ []) }
        ensures err { OnErr result (self.new ≡ self.old) }
    {
        let n = self.len();
        self.marks.resize(n, true)?;
        self.marks.push(false)?;
        self.items.push(filler)?;
        Ok(())
    }

    /// Keeps the first elements, at most so many.
    #[tactic(auto, using(crate::proofs::Cells::take_cells))]
    pub fn truncate(&mut self, count: usize)
        ensures { self.new ≡ take count self.old }
    {
        self.items.truncate(count);
    }

    /// Turns the order round. A refusal leaves the list as it was.
    pub fn reverse(&mut self) -> Result<(), AllocError>
        ensures ok { OnOk result (self.new ≡ reverse self.old) }
        ensures err { OnErr result (self.new ≡ self.old) }
    {
        let n = self.len();
        self.marks.resize(n, true)?;
        self.marks.reverse();
        self.items.reverse();
        Ok(())
    }

    /// Appends a range of the other list. A refusal leaves this one as it was.
    #[tactic(auto, using(crate::proofs::Cells::length_cells))]
    pub fn extend(&mut self, other: &Slots<T>, range: Range<usize>) -> Result<(), AllocError>
        requires order { range.start ≤ range.end }
        requires inside { range.end ≤ length other.now }
        ensures ok { OnOk result (self.new ≡ self.old ++ slice_range other.now range.start range.end) }
        ensures err { OnErr result (self.new ≡ self.old) }
    {
        let marks = other.marks.as_slice();
        let items = other.items.as_slice();
        let n = self.len();
        let marked = marks.len().min(range.end);
        if range.start < marked {
            self.marks.resize(n, true)?;
            self.marks.extend_from_slice(&marks[range.start..marked])?;
            self.items
                .extend_from_slice(&items[range.start..range.end])?;
        } else {
            self.marks.truncate(n);
            self.items
                .extend_from_slice(&items[range.start..range.end])?;
        }
        Ok(())
    }
}

/// Whether a value stands at `i`, and no null.
fn is_marked(marks: &[bool], i: usize) -> bool
    ensures { result ≡ get_or marks.now i true }
{
    i >= marks.len() || marks[i]
}
