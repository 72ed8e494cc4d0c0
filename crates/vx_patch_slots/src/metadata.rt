//! What metadata says of exceptions.
ghost use Rattle.std.specs.Prelude.{◌≡◌, ◌≤◌, ◌<◌, length, IfOk, OnOk, IfErr};
ghost use Rattle.std.specs.Option.{option_map};
ghost use Rattle.vx_search.specs.Numbers.{ptype_of};
ghost use Rattle.vx_patches.specs.Pairs.{pairs_of};
ghost use Rattle.vx_patch_slots.specs.Metadata.{metadata_of, offsets_ptype, MetadataCause};

use vx_base::dtype::same_type;
use vx_base::{ColumnError, DType, FlatColumn, PType, Res};
use vx_patches::Patches;
use vx_wire::PatchesMetadata;

/// What metadata says of exceptions.
pub trait ToMetadata {
    /// The metadata of exceptions among `len` rows, whose values are of this type. Takes no memory.
    fn to_metadata(&self, len: usize, dtype: &DType) -> Res<PatchesMetadata>;
}

impl ToMetadata for Patches {
    fn to_metadata(&self, len: usize, dtype: &DType) -> Res<PatchesMetadata>
        ensures ok { IfOk result (λ metadata. metadata ≡ metadata_of self.now) }
        ensures few { OnOk result (length (pairs_of self.now) ≤ len) }
        ensures same { OnOk result (self.now.values.dtype ≡ dtype.now) }
        ensures err { IfErr result (MetadataCause self.now len dtype.now) }
    {
        let count = self.num_patches();
        if count > len {
            return Err(ColumnError::LengthMismatch {
                expected: len,
                found: count,
            });
        }
        if !same_type(self.dtype(), dtype) {
            return Err(ColumnError::MismatchedTypes);
        }
        let chunk_offsets = self.chunk_offsets();
        Ok(PatchesMetadata::new(
            count,
            self.offset(),
            self.indices_ptype(),
            offsets_len(chunk_offsets),
            offsets_ptype(chunk_offsets),
            self.offset_within_chunk(),
        ))
    }
}

/// The number of chunk offsets, where there are some.
fn offsets_len(chunk_offsets: &Option<FlatColumn>) -> Option<usize>
    ensures { result ≡ option_map (λ offsets. length offsets.rows) chunk_offsets.now }
{
    match chunk_offsets {
        Some(offsets) => Some(offsets.len()),
        None => None,
    }
}

/// Their type, where it is one of integers.
fn offsets_ptype(chunk_offsets: &Option<FlatColumn>) -> Option<PType>
    ensures { result ≡ offsets_ptype chunk_offsets.now }
{
    match chunk_offsets {
        Some(offsets) => ptype(offsets.dtype()),
        None => None,
    }
}

/// Which integers a type is of.
fn ptype(dtype: &DType) -> Option<PType>
    ensures { result ≡ ptype_of dtype.now }
{
    match dtype {
        DType::Primitive(ptype, _) => Some(*ptype),
        _ => None,
    }
}
