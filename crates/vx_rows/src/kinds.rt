//! What a type says beside its kind: whether a null is a row, the range of integers, the digits of decimals.
ghost use Rattle.std.specs.Prelude.{◌≡◌, ◌<◌, ◌≤◌, ◌^◌, ◌&&◌, nat_lt, nat_le, unsigned_abs, if◌then◌else◌};

use std::marker::Model;

/// Whether a null is a row of the type.
#[derive(Clone, Copy, Debug, PartialEq, Eq)]
pub enum Nullability {
    /// Each row is a value.
    NonNullable,
    /// A row may be null.
    Nullable,
}

/// The primitive types: integers by width and sign.
#[derive(Clone, Copy, Debug, PartialEq, Eq)]
pub enum PType {
    U8,
    U16,
    U32,
    U64,
    I8,
    I16,
    I32,
    I64,
}

/// Decimals of at most `precision` digits, of which `scale` stand behind the point. Contracts see the two numbers.
#[derive(Clone, Copy, Debug, PartialEq, Eq)]
pub struct DecimalDType {
    precision: u8,
    scale: i8,
}

impl Model for DecimalDType {
    ghost use Rattle.std.specs.Prelude.{ℕ, ℤ, ◌<◌, ◌≤◌};

    ghost Value = { ℕ × ℤ };

    ghost view = { λ d. (d.precision, d.scale) };

    ghost invariant = { λ d. (0 < d.precision) × (d.precision ≤ 38) };

    ghost inverse = { λ v. record { precision = v.0; scale = v.1 } };
}

impl DecimalDType {
    /// None exactly where the precision is 0 or above 38.
    pub fn new(precision: u8, scale: i8) -> Option<DecimalDType>
        ensures { result ≡ (if nat_lt 0 precision && nat_le precision 38 then Some (precision, scale) else None) }
    {
        if 0 < precision && precision <= 38 {
            Some(DecimalDType { precision, scale })
        } else {
            None
        }
    }

    /// The greatest number of digits, 1 to 38.
    pub fn precision(&self) -> u8
        ensures value { result ≡ self.now.0 }
        ensures positive { 0 < result }
        ensures at_most { result ≤ 38 }
    {
        self.precision
    }

    /// How many of the digits stand behind the point.
    pub fn scale(&self) -> i8
        ensures { result ≡ self.now.1 }
    {
        self.scale
    }

    /// Whether the unscaled number has at most `precision` digits.
    pub fn holds(self, unscaled: i128) -> bool
        ensures { result ≡ nat_lt (unsigned_abs unscaled) (10 ^ self.0) }
    {
        unscaled.unsigned_abs() < 10u128.pow(self.precision() as u32)
    }
}
