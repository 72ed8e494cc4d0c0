//! What a chunked array says of itself beside its children.
ghost use Rattle.std.specs.Prelude.{◌≡◌, All, OnOk, IfErr};
ghost use Rattle.vx_chunks.specs.Causes.{TypesCause};

use std::fmt;
use std::hash::{Hash, Hasher};
use vx_base::dtype::same_type;
use vx_base::{ColumnError, DType, Res};

/// The number of chunks. Any two are equal and hash alike: arrays are told apart by their children.
#[derive(Clone, Drop)]
pub struct ChunkedData {
    /// How many chunks there are.
    pub nchunks: usize,
}

impl ChunkedData {
    /// Refuses `MismatchedTypes` exactly where a chunk is of another type. Takes no memory.
    pub fn validate(chunk_types: &[DType], dtype: &DType) -> Res<()>
        ensures ok { OnOk result (All (λ t. t ≡ dtype.now) chunk_types.now) }
        ensures err { IfErr result (TypesCause chunk_types.now dtype.now) }
    {
        for chunk_type in chunk_types {
            if !same_type(chunk_type, dtype) {
                return Err(ColumnError::MismatchedTypes);
            }
        }
        Ok(())
    }
}

impl fmt::Display for ChunkedData {
    ghost use Rattle.std.specs.Prelude.{Some, codes, ◌++◌};
    ghost use Rattle.std.specs.Fmt.{decimal};

    ghost output = { λ chunked. Some (codes "nchunks: " ++ decimal chunked.nchunks) };

    fn fmt<W: fmt::Write>(&self, f: &mut fmt::Formatter<W>) -> fmt::Result {
        let nchunks = self.nchunks;
        write!(f, "nchunks: {nchunks}")
    }
}

impl PartialEq for ChunkedData {
    ghost use Rattle.std.specs.Prelude.{true};
    ghost use Rattle.std.proofs.Common.{rules};
    ghost use Rattle.std.specs.Cmp.Rules.{comparing};

    ghost eq = { λ _ _. true };

    ghost laws = { Prim.search (comparing, rules) };

    fn eq(&self, _other: &ChunkedData) -> bool {
        true
    }
}

impl Eq for ChunkedData {
    ghost use Rattle.std.proofs.Common.{rules};
    ghost use Rattle.std.specs.Cmp.Rules.{comparing};

    ghost laws = { Prim.search (comparing, rules) };
}

impl Hash for ChunkedData {
    ghost use Rattle.std.specs.Prelude.{[]};
    ghost use Rattle.std.proofs.Common.{rules};
    ghost use Rattle.std.specs.Cmp.Rules.{hashing};

    ghost hash_input = { λ _. [] };

    ghost respects_eq = { Prim.search (hashing, rules) };

    fn hash<H: Hasher>(&self, _state: &mut H) {}
}
