//! What describes patches.
ghost use Rattle.std.specs.Prelude.{◌≡◌, ◌↔◌, Ok, Err, IfOk, IfErr, IsOkUnless, IsTrue};
ghost use Rattle.std.specs.Option.{option_map};
ghost use Rattle.vx_wire.specs.Faults.{FirstFault};
ghost use Rattle.vx_wire.specs.Messages.{Patches, SaysPatches, patches_bytes, size_in};
ghost use Rattle.vx_wire.specs.TypeNumbers.{number_of_type, dtype_of_number, unsigned_of_number, optional_dtype};

use crate::field::last_numbers;
use crate::types::{
    dtype, number_of_ptype, read_type, size, unsigned_dtype, written_optional_type, written_type,
};
use crate::writing::{push_optional, push_plain};
use std::alloc::Global;
use std::marker::Model;
use vx_base::{ColumnError, DType, PType, Res, Seq, WireFault};

/// How many patches there are, from which row on, and what their indices and chunk offsets are. The types stand as
/// the numbers that were read, which may be those of no type.
#[derive(Clone, Copy, Debug, Default, PartialEq, Eq)]
pub struct PatchesMetadata {
    len: u64,
    offset: u64,
    indices_ptype: i32,
    chunk_offsets_len: Option<u64>,
    chunk_offsets_ptype: Option<i32>,
    offset_within_chunk: Option<u64>,
}

impl Model for PatchesMetadata {
    ghost use Rattle.vx_wire.specs.Messages.{Patches};

    ghost Value = { Patches };

    ghost view = { λ m. record {
      len = m.len;
      offset = m.offset;
      indices_type = m.indices_ptype;
      chunk_offsets_len = m.chunk_offsets_len;
      chunk_offsets_type = m.chunk_offsets_ptype;
      offset_within_chunk = m.offset_within_chunk;
    } };

    ghost inverse = { λ v. record {
      len = v.len;
      offset = v.offset;
      indices_ptype = v.indices_type;
      chunk_offsets_len = v.chunk_offsets_len;
      chunk_offsets_ptype = v.chunk_offsets_type;
      offset_within_chunk = v.offset_within_chunk;
    } };
}

impl PatchesMetadata {
    pub fn new(
        len: usize,
        offset: usize,
        indices_ptype: PType,
        chunk_offsets_len: Option<usize>,
        chunk_offsets_ptype: Option<PType>,
        offset_within_chunk: Option<usize>,
    ) -> PatchesMetadata
        ensures { result ≡ record {
          len = len;
          offset = offset;
          indices_type = number_of_type indices_ptype;
          chunk_offsets_len = chunk_offsets_len;
          chunk_offsets_type = option_map number_of_type chunk_offsets_ptype;
          offset_within_chunk = offset_within_chunk;
        } }
    {
        PatchesMetadata {
            len: len as u64,
            offset: offset as u64,
            indices_ptype: number_of_ptype(indices_ptype),
            chunk_offsets_len: chunk_offsets_len.map(|len| len as u64),
            chunk_offsets_ptype: chunk_offsets_ptype.map(number_of_ptype),
            offset_within_chunk: offset_within_chunk.map(|offset| offset as u64),
        }
    }

    /// The number of patches.
    pub fn len(&self) -> Result<usize, WireFault>
        ensures { result ≡ size_in self.now.len }
    {
        size(self.len)
    }

    /// Whether there is no patch.
    pub fn is_empty(&self) -> bool
        ensures { IsTrue result ↔ (self.now.len ≡ 0) }
    {
        self.len == 0
    }

    /// What is taken off each index.
    pub fn offset(&self) -> Result<usize, WireFault>
        ensures { result ≡ size_in self.now.offset }
    {
        size(self.offset)
    }

    /// The type of the indices, if it is one of unsigned integers.
    pub fn indices_dtype(&self) -> Result<DType, WireFault>
        ensures { result ≡ unsigned_of_number self.now.indices_type }
    {
        unsigned_dtype(self.indices_ptype)
    }

    /// The type of the chunk offsets, None where it is absent.
    pub fn chunk_offsets_dtype(&self) -> Result<Option<DType>, WireFault>
        ensures { result ≡ optional_dtype self.now.chunk_offsets_type }
    {
        match self.chunk_offsets_ptype {
            Some(number) => Ok(Some(dtype(number)?)),
            None => Ok(None),
        }
    }

    /// The number of chunk offsets.
    pub fn chunk_offsets_len(&self) -> Option<u64>
        ensures { result ≡ self.now.chunk_offsets_len }
    {
        self.chunk_offsets_len
    }

    /// How many patches of the first chunk stand before the first one.
    pub fn offset_within_chunk(&self) -> Option<u64>
        ensures { result ≡ self.now.offset_within_chunk }
    {
        self.offset_within_chunk
    }

    /// The bytes of the message: each plain number that isn't 0 and each optional one that is present, in the fewest
    /// bytes.
    pub fn encode(&self, alloc: Global) -> Res<Seq<u8>>
        ensures ok { IfOk result (λ bytes. bytes ≡ patches_bytes self.now) }
        // So `decode` gives the message back.
        ensures says { IfOk result (λ bytes. SaysPatches bytes self.now) }
        ensures err { IsOkUnless result ColumnError.OutOfMemory }
    {
        let mut out = Vec::new(alloc);
        push_plain(&mut out, 1, self.len)?;
        push_plain(&mut out, 2, self.offset)?;
        push_plain(&mut out, 3, written_type(self.indices_ptype))?;
        push_optional(&mut out, 4, self.chunk_offsets_len)?;
        push_optional(&mut out, 5, written_optional_type(self.chunk_offsets_ptype))?;
        push_optional(&mut out, 6, self.offset_within_chunk)?;
        Ok(Seq::from_vec(out))
    }

    /// What the bytes say. It takes no memory. More spellings are read than `encode` writes: numbers in more bytes
    /// than they need, fields in any order, fields again, of which the last one stands, zeros, and fields of unknown
    /// tags, which are passed over.
    pub fn decode(bytes: &[u8]) -> Result<PatchesMetadata, WireFault>
        ensures ok { IfOk result (SaysPatches bytes.now) }
        // Whatever says a message is read.
        ensures all { (m : Patches) → SaysPatches bytes.now m → result ≡ Ok m }

        // The fault is the first one in reading order.
        ensures err { IfErr result (FirstFault 6 bytes.now) }
        ensures first { (fault : WireFault) → FirstFault 6 bytes.now fault → result ≡ Err fault }
    {
        PatchesMetadata::read(bytes)
    }

    /// The last content of each tag, as the message holds it.
    fn read(bytes: &[u8]) -> Result<PatchesMetadata, WireFault>
        ensures ok { IfOk result (SaysPatches bytes.now) }
        ensures err { IfErr result (FirstFault 6 bytes.now) }
    {
        let last = last_numbers(bytes, 6)?;
        Ok(PatchesMetadata {
            len: last[1].unwrap_or(0),
            offset: last[2].unwrap_or(0),
            indices_ptype: read_type(last[3].unwrap_or(0)),
            chunk_offsets_len: last[4],
            chunk_offsets_ptype: last[5].map(read_type),
            offset_within_chunk: last[6],
        })
    }
}
