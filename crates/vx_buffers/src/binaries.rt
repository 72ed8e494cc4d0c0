//! Packed lists of byte strings and nulls.
ghost use Rattle.std.specs.Prelude.{◌≡◌, ◌<◌, ◌≤◌, [], ◌∷◌, ◌++◌, length, reverse, take, get_or, Some, None, is_some, option_copied, IfOk, OnOk, OnErr};
ghost use Rattle.std.specs.List.{slice_range};

use crate::slots::Slots;
use std::alloc::{AllocError, Global};
use std::marker::Model;
use std::ops::Range;

/// Where a byte string begins and ends.
#[derive(Clone, Copy)]
pub(crate) struct Span {
    start: usize,
    end: usize,
}

/// A list whose elements are byte strings or nulls, behind one another in one run of bytes, of which a null takes none. Contracts
/// see the list.
pub struct Binaries {
    bytes: Vec<u8>,
    spans: Slots<Span>,
}

impl Drop for Binaries {
    fn drop(self) {
        let Binaries { bytes: _, spans: _ } = self;
    }
}

impl Model for Binaries {
    ghost use Rattle.std.specs.Prelude.{List, ℕ, Option};

    ghost Value = { List (Option (List ℕ)) };

    ghost use Rattle.vx_buffers.specs.Spans.{pieces, IsSound};

    ghost view = { λ b. pieces b.bytes.items b.spans };

    ghost invariant = { λ b. IsSound b.bytes.items b.spans };
}

impl Binaries {
    /// No elements, which take no memory.
    pub fn new(alloc: Global) -> Binaries
        ensures { result ≡ [] }
    {
        Binaries {
            bytes: Vec::new(alloc),
            spans: Slots::new(alloc),
        }
    }

    /// No elements, and room for so many beside their bytes.
    pub fn with_capacity(alloc: Global, count: usize) -> Result<Binaries, AllocError>
        ensures { IfOk result (λ b. b ≡ []) }
    {
        let spans = Slots::with_capacity(alloc, count)?;
        Ok(Binaries {
            bytes: Vec::new(alloc),
            spans,
        })
    }

    /// The number of elements.
    #[tactic(auto, using(crate::proofs::Spans::length_pieces))]
    pub fn len(&self) -> usize
        ensures { result ≡ length self.now }
    {
        self.spans.len()
    }

    /// Element `i`, lent.
    pub fn get(&self, i: usize) -> Option<&[u8]>
        requires { i < length self.now }
        ensures { option_copied result ≡ get_or self.now i None }
    {
        match self.spans.get(i) {
            None => None,
            Some(span) => Some(&self.bytes.as_slice()[span.start..span.end]),
        }
    }

    /// Whether element `i` is a byte string.
    pub fn is_valid(&self, i: usize) -> bool
        requires { i < length self.now }
        ensures { result ≡ is_some (get_or self.now i None) }
    {
        self.spans.get(i).is_some()
    }

    /// Puts a copy of the bytes at the end. A refusal leaves the list as it was.
    pub fn push(&mut self, bytes: &[u8]) -> Result<(), AllocError>
        ensures ok { OnOk result (self.new ≡ self.old ++ Some bytes.now ∷ []) }
        ensures err { OnErr result (self.new ≡ self.old) }
    {
        let start = self.bytes.len();
        self.bytes.extend_from_slice(bytes)?;
        let end = self.bytes.len();
        self.spans.push(Span { start, end })?;
        Ok(())
    }

    /// Puts a null at the end. A refusal leaves the list as it was.
    pub fn push_null(&mut self) -> Result<(), AllocError>
        ensures ok { OnOk result (self.new ≡ self.old ++ None ∷ []) }
        ensures err { OnErr result (self.new ≡ self.old) }
    {
        self.spans.push_null(Span { start: 0, end: 0 })?;
        Ok(())
    }

    /// Keeps the first elements, at most so many.
    pub fn truncate(&mut self, count: usize)
        ensures { self.new ≡ take count self.old }
    {
        self.spans.truncate(count);
    }

    /// Turns the order round, without a move of the bytes. A refusal leaves the list as it was.
    pub fn reverse(&mut self) -> Result<(), AllocError>
        ensures ok { OnOk result (self.new ≡ reverse self.old) }
        ensures err { OnErr result (self.new ≡ self.old) }
    {
        self.spans.reverse()?;
        Ok(())
    }

    /// Appends a range of the other list. A refusal leaves this one as it was.
    pub fn extend(&mut self, other: &Binaries, range: Range<usize>) -> Result<(), AllocError>
        requires order { range.start ≤ range.end }
        requires inside { range.end ≤ length other.now }
        ensures ok { OnOk result (self.new ≡ self.old ++ slice_range other.now range.start range.end) }
        ensures err { OnErr result (self.new ≡ self.old) }
    {
        let before = self.len();
        let result = push_range(self, other, range);
        if result.is_err() {
            self.truncate(before);
        }
        result
    }
}

/// Appends a range of the other list, of which a refusal may leave some.
#[tactic(auto, using(crate::proofs::Rows::range_more))]
fn push_range(into: &mut Binaries, other: &Binaries, range: Range<usize>) -> Result<(), AllocError>
    requires order { range.start ≤ range.end }
    requires inside { range.end ≤ length other.now }
    ensures ok { OnOk result (into.new ≡ into.old ++ slice_range other.now range.start range.end) }
    ensures err { OnErr result (take (length into.old) into.new ≡ into.old) }
{
    for i in range.start..range.end {
        push_piece(into, other.get(i))?;
    }
    Ok(())
}

fn push_piece(into: &mut Binaries, piece: Option<&[u8]>) -> Result<(), AllocError>
    ensures ok { OnOk result (into.new ≡ into.old ++ option_copied piece.entry ∷ []) }
    ensures err { OnErr result (into.new ≡ into.old) }
{
    match piece {
        None => into.push_null(),
        Some(bytes) => into.push(bytes),
    }
}
