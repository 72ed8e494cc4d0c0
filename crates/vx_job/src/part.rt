//! What a column is assembled from.
use crate::boxed::Boxed;
use vx_base::{DType, FlatColumn, Row, Seq};

/// What a column is assembled from: a tree of flat rows.
pub enum Part {
    /// Rows as they are.
    Flat(FlatColumn),
    /// One row, `len` times.
    Constant {
        dtype: DType,
        row: Row,
        len: usize,
    },
    /// The rows of the chunks, joined in order. Each chunk is of the declared type.
    Chunked {
        dtype: DType,
        chunks: Seq<Part>,
    },
    /// The rows of `inner`, with exceptions kept by lane over those that are values.
    Lanes {
        inner: Boxed<Part>,
        n_lanes: usize,
        offset: usize,
        lane_offsets: FlatColumn,
        indices: FlatColumn,
        values: FlatColumn,
    },
    /// The rows of `base`, with row k of `values` in the place of row `indices[k]` less the offset.
    Excepted {
        base: Boxed<Part>,
        offset: usize,
        indices: FlatColumn,
        values: Boxed<Part>,
        chunk_offsets: Option<FlatColumn>,
    },
    /// Row i is row `row_indices[i]` of value `array_indices[i]`.
    Interleaved {
        values: Seq<Part>,
        array_indices: FlatColumn,
        row_indices: FlatColumn,
    },
}

impl Drop for Part {
    fn drop(self) {
        match self {
            Part::Flat(_rows) => {}
            Part::Constant {
                dtype: _dtype,
                row: _row,
                len: _len,
            } => {}
            Part::Chunked {
                dtype: _dtype,
                chunks: _chunks,
            } => {}
            Part::Lanes {
                inner: _inner,
                n_lanes: _n_lanes,
                offset: _offset,
                lane_offsets: _lane_offsets,
                indices: _indices,
                values: _values,
            } => {}
            Part::Excepted {
                base: _base,
                offset: _offset,
                indices: _indices,
                values: _values,
                chunk_offsets: _chunk_offsets,
            } => {}
            Part::Interleaved {
                values: _values,
                array_indices: _array_indices,
                row_indices: _row_indices,
            } => {}
        }
    }
}
