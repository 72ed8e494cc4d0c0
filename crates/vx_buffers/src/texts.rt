//! Packed lists of texts and nulls.
ghost use Rattle.std.specs.Prelude.{◌≡◌, ◌<◌, ◌≤◌, [], ◌∷◌, ◌++◌, length, reverse, take, get_or, Some, None, is_some, option_map, IfOk, OnOk, OnErr};
ghost use Rattle.std.specs.List.{slice_range};

use crate::binaries::Binaries;
use std::alloc::{AllocError, Global};
use std::marker::Model;
use std::ops::Range;

/// A list whose elements are texts or nulls, packed as byte strings are. Contracts see the list of the bytes of texts.
pub struct Texts {
    pieces: Binaries,
}

impl Drop for Texts {
    fn drop(self) {
        let Texts { pieces: _ } = self;
    }
}

impl Model for Texts {
    ghost use Rattle.std.specs.Prelude.{List, ℕ, Option};

    ghost Value = { List (Option (List ℕ)) };

    ghost view = { λ t. t.pieces };

    ghost use Rattle.vx_buffers.specs.Spans.{AreTexts};

    ghost invariant = { λ t. AreTexts t.pieces };
}

impl Texts {
    /// No elements, which take no memory.
    pub fn new(alloc: Global) -> Texts
        ensures { result ≡ [] }
    {
        Texts {
            pieces: Binaries::new(alloc),
        }
    }

    /// No elements, and room for so many beside their bytes.
    pub fn with_capacity(alloc: Global, count: usize) -> Result<Texts, AllocError>
        ensures { IfOk result (λ t. t ≡ []) }
    {
        let pieces = Binaries::with_capacity(alloc, count)?;
        Ok(Texts { pieces })
    }

    /// The number of elements.
    pub fn len(&self) -> usize
        ensures { result ≡ length self.now }
    {
        self.pieces.len()
    }

    /// Element `i`, lent.
    pub fn get(&self, i: usize) -> Option<&str>
        requires { i < length self.now }
        ensures { option_map (λ s. s.now) result ≡ get_or self.now i None }
    {
        match self.pieces.get(i) {
            None => None,
            // Each piece came in as a text.
            Some(bytes) => Some(unsafe { str::from_utf8_unchecked(bytes) }),
        }
    }

    /// Whether element `i` is a text.
    pub fn is_valid(&self, i: usize) -> bool
        requires { i < length self.now }
        ensures { result ≡ is_some (get_or self.now i None) }
    {
        self.pieces.is_valid(i)
    }

    /// Puts a copy of the text at the end. A refusal leaves the list as it was.
    pub fn push(&mut self, text: &str) -> Result<(), AllocError>
        ensures ok { OnOk result (self.new ≡ self.old ++ Some text.now ∷ []) }
        ensures err { OnErr result (self.new ≡ self.old) }
    {
        self.pieces.push(text.as_bytes())?;
        Ok(())
    }

    /// Puts a null at the end. A refusal leaves the list as it was.
    pub fn push_null(&mut self) -> Result<(), AllocError>
        ensures ok { OnOk result (self.new ≡ self.old ++ None ∷ []) }
        ensures err { OnErr result (self.new ≡ self.old) }
    {
        self.pieces.push_null()?;
        Ok(())
    }

    /// Keeps the first elements, at most so many.
    pub fn truncate(&mut self, count: usize)
        ensures { self.new ≡ take count self.old }
    {
        self.pieces.truncate(count);
    }

    /// Turns the order round. A refusal leaves the list as it was.
    pub fn reverse(&mut self) -> Result<(), AllocError>
        ensures ok { OnOk result (self.new ≡ reverse self.old) }
        ensures err { OnErr result (self.new ≡ self.old) }
    {
        self.pieces.reverse()?;
        Ok(())
    }

    /// Appends a range of the other list. A refusal leaves this one as it was.
    pub fn extend(&mut self, other: &Texts, range: Range<usize>) -> Result<(), AllocError>
        requires order { range.start ≤ range.end }
        requires inside { range.end ≤ length other.now }
        ensures ok { OnOk result (self.new ≡ self.old ++ slice_range other.now range.start range.end) }
        ensures err { OnErr result (self.new ≡ self.old) }
    {
        self.pieces.extend(&other.pieces, range)?;
        Ok(())
    }
}
