//! Numbers as messages hold them: those of types, and those of fewer bits than were written.
ghost use Rattle.std.specs.Prelude.{◌≡◌, IfSome, FitsSigned};
ghost use Rattle.std.specs.Int.{w32};
ghost use Rattle.std.specs.Option.{option_map};
ghost use Rattle.vx_wire.specs.Messages.{low_bits, type_in, type_number, size_in};
ghost use Rattle.vx_wire.specs.TypeNumbers as spec;

use vx_base::{DType, Nullability, PType, WireFault};

/// The low 32 bits.
pub(crate) fn low_half(number: u64) -> u32
    ensures { result ≡ low_bits number }
{
    (number % (1 << 32)) as u32
}

/// The number of a type that was written so.
pub(crate) fn read_type(number: u64) -> i32
    ensures { result ≡ type_in number }
{
    low_half(number).cast_signed()
}

/// The number of a type as it is written: of 64 bits, so a negative one takes ten bytes.
pub(crate) fn written_type(number: i32) -> u64
    ensures { result ≡ type_number number }
{
    i64::from(number).cast_unsigned()
}

/// The same, of a type that may be absent.
pub(crate) fn written_optional_type(number: Option<i32>) -> Option<u64>
    ensures value { result ≡ option_map type_number number }
    ensures in_range { IfSome number (FitsSigned w32) }
{
    match number {
        Some(number) => Some(written_type(number)),
        None => None,
    }
}

/// A number that is to be a length.
pub(crate) fn size(number: u64) -> Result<usize, WireFault>
    ensures { result ≡ size_in number }
{
    usize::try_from(number).map_err(|_| WireFault::TooLarge)
}

pub(crate) fn number_of_ptype(ptype: PType) -> i32
    ensures { result ≡ spec.number_of_type ptype }
{
    match ptype {
        PType::U8 => 0,
        PType::U16 => 1,
        PType::U32 => 2,
        PType::U64 => 3,
        PType::I8 => 4,
        PType::I16 => 5,
        PType::I32 => 6,
        PType::I64 => 7,
    }
}

/// The type of this number. 8, 9 and 10 are types of floats, which no column has.
fn ptype(number: i32) -> Result<PType, WireFault>
    ensures { result ≡ spec.type_of_number number }
{
    match number {
        0 => Ok(PType::U8),
        1 => Ok(PType::U16),
        2 => Ok(PType::U32),
        3 => Ok(PType::U64),
        4 => Ok(PType::I8),
        5 => Ok(PType::I16),
        6 => Ok(PType::I32),
        7 => Ok(PType::I64),
        8..=10 => Err(WireFault::FloatType { number }),
        _ => Err(WireFault::UnknownType { number }),
    }
}

/// The type of this number, whose rows are all values.
pub(crate) fn dtype(number: i32) -> Result<DType, WireFault>
    ensures { result ≡ spec.dtype_of_number number }
{
    let ptype = ptype(number)?;
    Ok(DType::Primitive(ptype, Nullability::NonNullable))
}

/// The same, of unsigned integers alone.
pub(crate) fn unsigned_dtype(number: i32) -> Result<DType, WireFault>
    ensures { result ≡ spec.unsigned_of_number number }
{
    match ptype(number)? {
        PType::I8 | PType::I16 | PType::I32 | PType::I64 => Err(WireFault::NotUnsigned { number }),
        unsigned => Ok(DType::Primitive(unsigned, Nullability::NonNullable)),
    }
}
