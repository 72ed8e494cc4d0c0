//! Chunked arrays in their serialized form.
ghost use Rattle.std.specs.Prelude.{◌≡◌, ◌+◌, ◌≤◌, ◌↔◌, length, IfOk, OnOk, IfErr, IsTrue, All};
ghost use Rattle.vx_column.specs.Columns.{IsSound, IsOf, len_of, chunks_of, declared_type};
ghost use Rattle.vx_column.specs.declared.chunked.Chunked.{Chunked};
ghost use Rattle.vx_column.specs.declared.column.Column.{Column};
ghost use Rattle.vx_column.specs.declared.column.Column.TheVariants.{Chunked as chunked_column};
ghost use Rattle.vx_metadata.specs.Chunked.{chunked_bytes, IsChunkedFault, IsChunkedForm, ChunkedCause, IsChunkedFormOf, IsChunkedBack};

use crate::boundaries::boundary_fault;
use std::alloc::Global;
use vx_base::dtype::same_type;
use vx_base::{ColumnError, DType, FlatColumn, Ledger, Path, Res, Seq, Steps, WireFault};
use vx_column::{Chunked, ChunkedArray, Column};

/// The serialized form of a chunked array: its type, its length, its boundaries and its chunks, beside which no bytes stand.
pub trait SerializeChunked: Sized {
    /// The metadata, which has no bytes. Takes no memory.
    fn serialize(&self, alloc: Global) -> Seq<u8>;

    /// The array of these chunks, which have to lie between the boundaries in `len` rows. Refuses `BadMetadata` with
    /// `NotEmpty` where there is any metadata; `Malformed` by the first boundary rule that is broken; `MismatchedTypes` where a
    /// chunk is of another type. Memory is wanted only where none of these comes. Reads each boundary at most once.
    fn deserialize<L: Ledger>(
        alloc: Global,
        dtype: DType,
        len: usize,
        metadata: &[u8],
        chunk_offsets: FlatColumn,
        chunks: Vec<Column>,
        steps: &mut Steps<L>,
    ) -> Res<Self>
        requires { All IsSound chunks.items };
}

impl SerializeChunked for Chunked<Column> {
    fn serialize(&self, alloc: Global) -> Seq<u8>
        ensures { result ≡ chunked_bytes self.now }
    {
        Seq::new(alloc)
    }

    fn deserialize<L: Ledger>(
        alloc: Global,
        dtype: DType,
        len: usize,
        metadata: &[u8],
        chunk_offsets: FlatColumn,
        chunks: Vec<Column>,
        steps: &mut Steps<L>,
    ) -> Res<Chunked<Column>>
        requires { All IsSound chunks.items }
        ensures chunks { IfOk result (λ array. (chunks_of array ≡ chunks.items) × (declared_type array ≡ dtype)) }
        ensures sound { IfOk result (λ array. IsSound (chunked_column array)) }
        ensures len { IfOk result (λ array. len_of (chunked_column array) ≡ len) }
        ensures clean { OnOk result (IsChunkedForm dtype len metadata.now chunk_offsets chunks.items) }
        ensures err { IfErr result (ChunkedCause dtype len metadata.now chunk_offsets chunks.items) }
        // What was serialized is read back.
        ensures back { (array : Chunked Column) → IsSound (chunked_column array)
            → IsChunkedFormOf array dtype len metadata.now chunk_offsets chunks.items → IsChunkedBack array result }
        ensures rise { steps.new ≤ steps.old + length chunk_offsets.rows }
        ensures monotone { steps.old ≤ steps.new }
    {
        check(
            alloc,
            &dtype,
            len,
            metadata,
            &chunk_offsets,
            chunks.as_slice(),
            steps,
        )?;
        ChunkedArray::try_new(alloc, chunks, dtype)
    }
}

/// Refuses by the first fault of a serialized array. Takes no memory.
fn check<L: Ledger>(
    alloc: Global,
    dtype: &DType,
    len: usize,
    metadata: &[u8],
    chunk_offsets: &FlatColumn,
    chunks: &[Column],
    steps: &mut Steps<L>,
) -> Res<()>
    requires { All IsSound chunks.now }
    ensures ok { OnOk result (IsChunkedForm dtype.now len metadata.now chunk_offsets.now chunks.now) }
    ensures err { IfErr result (IsChunkedFault dtype.now len metadata.now chunk_offsets.now chunks.now) }
    ensures rise { steps.new ≤ steps.old + length chunk_offsets.now.rows }
    ensures monotone { steps.old ≤ steps.new }
{
    if !metadata.is_empty() {
        return Err(ColumnError::BadMetadata {
            fault: WireFault::NotEmpty,
        });
    }
    if let Some(rule) = boundary_fault(len, chunk_offsets, chunks, steps) {
        return Err(ColumnError::Malformed {
            at: Path::empty(alloc),
            rule,
        });
    }
    if !are_of(chunks, dtype) {
        return Err(ColumnError::MismatchedTypes);
    }
    Ok(())
}

/// Whether each chunk is of the type.
fn are_of(chunks: &[Column], dtype: &DType) -> bool
    ensures { IsTrue result ↔ All (IsOf dtype.now) chunks.now }
{
    chunks.iter().all(|chunk| same_type(chunk.dtype(), dtype))
}
