//! The integer types of columns.
ghost use Rattle.std.specs.Prelude.{◌≡◌};
ghost use Rattle.vx_rows.specs.declared.kinds.PType.{PType};

use num_traits::{Number, PrimInt};
use vx_base::PType;

/// An integer that has a number of more bits. It is all that a comparison asks of an integer: what is generic over it alone
/// carries no fact of `PrimInt`.
pub trait Wide: Copy + Number {
    /// The same number, with more bits.
    fn wide(self) -> i128
        ensures { result ≡ Self.value self };
}

/// The eight integer types that a column may have.
pub trait NativeInt: PrimInt + Wide {
    /// The column's type of these integers.
    ghost kind: { PType };

    /// The column's type of these integers.
    fn ptype() -> PType
        ensures { result ≡ kind };
}

impl Wide for u8 {
    fn wide(self) -> i128 {
        i128::from(self)
    }
}

impl NativeInt for u8 {
    ghost use Rattle.vx_rows.specs.declared.kinds.PType.TheVariants.{U8};

    ghost kind = { U8 };

    fn ptype() -> PType {
        PType::U8
    }
}

impl Wide for u16 {
    fn wide(self) -> i128 {
        i128::from(self)
    }
}

impl NativeInt for u16 {
    ghost use Rattle.vx_rows.specs.declared.kinds.PType.TheVariants.{U16};

    ghost kind = { U16 };

    fn ptype() -> PType {
        PType::U16
    }
}

impl Wide for u32 {
    fn wide(self) -> i128 {
        i128::from(self)
    }
}

impl NativeInt for u32 {
    ghost use Rattle.vx_rows.specs.declared.kinds.PType.TheVariants.{U32};

    ghost kind = { U32 };

    fn ptype() -> PType {
        PType::U32
    }
}

impl Wide for u64 {
    fn wide(self) -> i128 {
        i128::from(self)
    }
}

impl NativeInt for u64 {
    ghost use Rattle.vx_rows.specs.declared.kinds.PType.TheVariants.{U64};

    ghost kind = { U64 };

    fn ptype() -> PType {
        PType::U64
    }
}

impl Wide for i8 {
    fn wide(self) -> i128 {
        i128::from(self)
    }
}

impl NativeInt for i8 {
    ghost use Rattle.vx_rows.specs.declared.kinds.PType.TheVariants.{I8};

    ghost kind = { I8 };

    fn ptype() -> PType {
        PType::I8
    }
}

impl Wide for i16 {
    fn wide(self) -> i128 {
        i128::from(self)
    }
}

impl NativeInt for i16 {
    ghost use Rattle.vx_rows.specs.declared.kinds.PType.TheVariants.{I16};

    ghost kind = { I16 };

    fn ptype() -> PType {
        PType::I16
    }
}

impl Wide for i32 {
    fn wide(self) -> i128 {
        i128::from(self)
    }
}

impl NativeInt for i32 {
    ghost use Rattle.vx_rows.specs.declared.kinds.PType.TheVariants.{I32};

    ghost kind = { I32 };

    fn ptype() -> PType {
        PType::I32
    }
}

impl Wide for i64 {
    fn wide(self) -> i128 {
        i128::from(self)
    }
}

impl NativeInt for i64 {
    ghost use Rattle.vx_rows.specs.declared.kinds.PType.TheVariants.{I64};

    ghost kind = { I64 };

    fn ptype() -> PType {
        PType::I64
    }
}
