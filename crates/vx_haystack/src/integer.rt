//! Integers, and how far one is above another.
ghost use Rattle.std.specs.Prelude.{◌≡◌, ℕ, ℤ, pos, refl};
ghost use Rattle.std.specs.Ordering.{int_cmp};
ghost use Rattle.vx_haystack.specs.Integers.{offset};
ghost use Rattle.std.proofs.Common.{arith};
ghost use Rattle.std.proofs.lemmas.Bool.Decides.{nat_tests};

/// An integer type that a set may be of.
pub trait SetInteger: Copy + Ord {
    /// The number that a value is.
    ghost number: { Self → ℤ };

    /// How many values the type has.
    ghost count: { ℕ };

    /// This less `min`, and where that is below 0 as many more as the type has values, which is how a subtraction wraps. None where
    /// that is above `usize::MAX`.
    fn offset_from(self, min: Self) -> Option<usize>
        ensures { result ≡ offset count (number self) (number min) };

    /// Values are in the order of their numbers.
    ghost ordered: { (x y : Self) → Self.cmp x y ≡ int_cmp (number x) (number y) };
}

impl SetInteger for u8 {
    ghost number = { λ x. pos x };

    ghost count = { 256 };

    ghost ordered = { λ x y. Prim.grind (arith, nat_tests) };

    fn offset_from(self, min: u8) -> Option<usize> {
        Some(self.wrapping_sub(min) as usize)
    }
}

impl SetInteger for u16 {
    ghost number = { λ x. pos x };

    ghost count = { 65536 };

    ghost ordered = { λ x y. Prim.grind (arith, nat_tests) };

    fn offset_from(self, min: u16) -> Option<usize> {
        Some(self.wrapping_sub(min) as usize)
    }
}

impl SetInteger for u32 {
    ghost number = { λ x. pos x };

    ghost count = { 4294967296 };

    ghost ordered = { λ x y. Prim.grind (arith, nat_tests) };

    fn offset_from(self, min: u32) -> Option<usize> {
        Some(self.wrapping_sub(min) as usize)
    }
}

impl SetInteger for u64 {
    ghost number = { λ x. pos x };

    ghost count = { 18446744073709551616 };

    ghost ordered = { λ x y. Prim.grind (arith, nat_tests) };

    fn offset_from(self, min: u64) -> Option<usize> {
        Some(self.wrapping_sub(min) as usize)
    }
}

impl SetInteger for i8 {
    ghost number = { λ x. x };

    ghost count = { 256 };

    ghost ordered = { λ x y. refl };

    fn offset_from(self, min: i8) -> Option<usize> {
        Some(self.cast_unsigned().wrapping_sub(min.cast_unsigned()) as usize)
    }
}

impl SetInteger for i16 {
    ghost number = { λ x. x };

    ghost count = { 65536 };

    ghost ordered = { λ x y. refl };

    fn offset_from(self, min: i16) -> Option<usize> {
        Some(self.cast_unsigned().wrapping_sub(min.cast_unsigned()) as usize)
    }
}

impl SetInteger for i32 {
    ghost number = { λ x. x };

    ghost count = { 4294967296 };

    ghost ordered = { λ x y. refl };

    fn offset_from(self, min: i32) -> Option<usize> {
        Some(self.cast_unsigned().wrapping_sub(min.cast_unsigned()) as usize)
    }
}

impl SetInteger for i64 {
    ghost number = { λ x. x };

    ghost count = { 18446744073709551616 };

    ghost ordered = { λ x y. refl };

    fn offset_from(self, min: i64) -> Option<usize> {
        Some(self.cast_unsigned().wrapping_sub(min.cast_unsigned()) as usize)
    }
}

impl SetInteger for i128 {
    ghost number = { λ x. x };

    ghost count = { 340282366920938463463374607431768211456 };

    ghost ordered = { λ x y. refl };

    fn offset_from(self, min: i128) -> Option<usize> {
        usize::try_from(self.cast_unsigned().wrapping_sub(min.cast_unsigned())).ok()
    }
}
