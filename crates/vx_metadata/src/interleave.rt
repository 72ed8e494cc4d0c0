//! Interleaved arrays, which have no serialized form.
ghost use Rattle.std.specs.Prelude.{◌≡◌, Err};
ghost use Rattle.vx_rows.specs.declared.error.ColumnError.TheVariants.{NotSerializable};

use vx_base::{ColumnError, Res, Seq};
use vx_column::{Column, Interleave};

/// The serialized form of an interleaved array, which there is none of: both calls refuse `NotSerializable`, always.
pub trait SerializeInterleave: Sized {
    /// Refuses.
    fn serialize(&self) -> Res<Seq<u8>>;

    /// Refuses.
    fn deserialize(metadata: &[u8]) -> Res<Self>;
}

impl SerializeInterleave for Interleave<Column> {
    fn serialize(&self) -> Res<Seq<u8>>
        ensures { result ≡ Err NotSerializable }
    {
        Err(ColumnError::NotSerializable)
    }

    fn deserialize(_metadata: &[u8]) -> Res<Interleave<Column>>
        ensures { result ≡ Err NotSerializable }
    {
        Err(ColumnError::NotSerializable)
    }
}
