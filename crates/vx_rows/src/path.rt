//! The place of a fault in a tree of parts.
ghost use Rattle.std.specs.Prelude.{◌≡◌, [], IfOk, IsOk, IsOkUnless};

use crate::error::{ColumnError, Res};
use smallvec::SmallVec;
use std::alloc::Global;
use std::marker::Model;

/// Child numbers, outermost first, which contracts see as a list. Up to eight of them take no memory.
#[derive(Debug, Drop)]
pub struct Path {
    numbers: SmallVec<usize, 8>,
}

impl Model for Path {
    ghost use Rattle.std.specs.Prelude.{List, ℕ};

    ghost Value = { List ℕ };

    ghost view = { λ p. p.numbers.items };
}

impl Path {
    /// The empty path, that of a whole part.
    pub fn empty(alloc: Global) -> Path
        ensures { result ≡ [] }
    {
        Path {
            numbers: SmallVec::new(alloc),
        }
    }

    /// A copy of the numbers.
    pub fn from_slice(alloc: Global, numbers: &[usize]) -> Res<Path>
        ensures ok { IfOk result (λ p. p ≡ numbers.now) }
        ensures err { IsOkUnless result ColumnError.OutOfMemory }
        ensures none { numbers.now ≡ [] → IsOk result }
    {
        if numbers.is_empty() {
            return Ok(Path::empty(alloc));
        }
        Ok(Path {
            numbers: SmallVec::from_slice(alloc, numbers)?,
        })
    }

    /// The numbers, lent.
    pub fn as_slice(&self) -> &[usize]
        ensures { result.now ≡ self.now }
    {
        self.numbers.as_slice()
    }
}
