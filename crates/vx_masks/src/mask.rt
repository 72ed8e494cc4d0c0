//! Masks: which rows of a column are meant.
ghost use Rattle.std.specs.Prelude.{◌≡◌, ◌<◌, ◌≤◌, length, take, replicate, false, slice_index_or};
ghost use Rattle.std.specs.Prelude.{All, IfOk, IsOkUnless};
ghost use Rattle.std.specs.List.{slice_range};
ghost use Rattle.std.specs.Option.{option_copied};
ghost use Rattle.vx_masks.specs.Bits.{count_true, places_of, bits_at, bits_in};
ghost use Rattle.vx_masks.specs.Masks.{bits_of, IsMask, mask_of, cached, cached_places};

use crate::bits::{all_true, any_true, bits_at, bits_in};
use crate::values::MaskValues;
use std::alloc::Global;
use std::ops::Range;
use vx_rows::{ColumnError, Res};

/// A list of bits. Where all are true, or none is, it is a number.
pub enum Mask {
    /// So many true bits.
    AllTrue(usize),
    /// So many bits, none of them true.
    AllFalse(usize),
    /// Bits of both kinds.
    Values(MaskValues),
}

impl Drop for Mask {
    fn drop(self) {
        match self {
            Mask::AllTrue(_len) => {}
            Mask::AllFalse(_len) => {}
            Mask::Values(_values) => {}
        }
    }
}

impl Mask {
    /// A mask of these bits.
    pub fn from_bits(alloc: Global, bits: &[bool]) -> Res<Self>
        ensures mask { IfOk result (λ m. m ≡ mask_of bits.now) }
        ensures bits { IfOk result (λ m. bits_of m ≡ bits.now) }
        ensures err { IsOkUnless result ColumnError.OutOfMemory }
    {
        Mask::from_vec(alloc, Vec::from_slice(alloc, bits)?)
    }

    /// A mask of these bits, which are not copied.
    #[tactic(auto, using(crate::proofs::Uniform::mask_all, crate::proofs::Uniform::mask_none, crate::proofs::Uniform::mask_mixed, crate::proofs::Counts::all_true_is, crate::proofs::Counts::none_true_is))]
    fn from_vec(alloc: Global, bits: Vec<bool>) -> Res<Self>
        ensures mask { IfOk result (λ m. m ≡ mask_of bits.items) }
        ensures bits { IfOk result (λ m. bits_of m ≡ bits.items) }
        ensures err { IsOkUnless result ColumnError.OutOfMemory }
    {
        if all_true(bits.as_slice()) {
            return Ok(Mask::AllTrue(bits.len()));
        }
        if !any_true(bits.as_slice()) {
            return Ok(Mask::AllFalse(bits.len()));
        }
        Ok(Mask::Values(MaskValues::from_vec(alloc, bits)?))
    }

    /// A mask of `len` bits, none of them true. Of no bits every one is true.
    #[tactic(auto, using(crate::proofs::Uniform::mask_all_false))]
    fn all_false(len: usize) -> Self
        ensures mask { result ≡ mask_of (replicate len false) }
        ensures bits { bits_of result ≡ replicate len false }
    {
        if len == 0 {
            Mask::AllTrue(len)
        } else {
            Mask::AllFalse(len)
        }
    }

    /// A mask of `len` bits, true at the indices, whose order doesn't matter.
    pub fn from_indices(alloc: Global, len: usize, indices: &[usize]) -> Res<Self>
        requires { All (λ i. i < len) indices.now }
        ensures mask { IfOk result (λ m. m ≡ mask_of (bits_at len indices.now)) }
        ensures bits { IfOk result (λ m. bits_of m ≡ bits_at len indices.now) }
        ensures err { IsOkUnless result ColumnError.OutOfMemory }
    {
        Mask::from_vec(alloc, bits_at(alloc, len, indices)?)
    }

    /// A mask of `len` bits, true from the start of each slice to below its end. Slices may be in any order, and overlap.
    pub fn from_slices(alloc: Global, len: usize, slices: &[(usize, usize)]) -> Res<Self>
        requires { All (λ s. (s.0 ≤ s.1) × (s.1 ≤ len)) slices.now }
        ensures mask { IfOk result (λ m. m ≡ mask_of (bits_in len slices.now)) }
        ensures bits { IfOk result (λ m. bits_of m ≡ bits_in len slices.now) }
        ensures err { IsOkUnless result ColumnError.OutOfMemory }
    {
        Mask::from_vec(alloc, bits_in(alloc, len, slices)?)
    }

    /// The bits of the range.
    #[tactic(auto, using(crate::proofs::Uniform::slice_all, crate::proofs::Uniform::slice_none, crate::proofs::Uniform::slice_all_bits))]
    pub fn slice(&self, alloc: Global, range: Range<usize>) -> Res<Self>
        requires order { range.start ≤ range.end }
        requires inside { range.end ≤ length (bits_of self.now) }
        ensures mask { IfOk result (λ m. m ≡ mask_of (slice_range (bits_of self.now) range.start range.end)) }
        ensures bits { IfOk result (λ m. bits_of m ≡ slice_range (bits_of self.now) range.start range.end) }
        ensures err { IsOkUnless result ColumnError.OutOfMemory }
    {
        let len = range.end - range.start;
        match self {
            Mask::AllTrue(_) => Ok(Mask::AllTrue(len)),
            Mask::AllFalse(_) => Ok(Mask::all_false(len)),
            Mask::Values(values) => Mask::from_bits(alloc, &values.bits()[range]),
        }
    }

    /// The number of bits.
    pub fn len(&self) -> usize
        ensures { result ≡ length (bits_of self.now) }
    {
        match self {
            Mask::AllTrue(len) | Mask::AllFalse(len) => *len,
            Mask::Values(values) => values.bits().len(),
        }
    }

    /// The number of true bits.
    #[tactic(auto, using(crate::proofs::Counts::count_all, crate::proofs::Counts::count_none))]
    pub fn true_count(&self) -> usize
        ensures count { result ≡ count_true (bits_of self.now) }
        ensures mask { IsMask self.now }
    {
        match self {
            Mask::AllTrue(len) => *len,
            Mask::AllFalse(_) => 0,
            Mask::Values(values) => values.true_count(),
        }
    }

    /// A bit.
    pub fn value(&self, i: usize) -> bool
        requires { i < length (bits_of self.now) }
        ensures { result ≡ slice_index_or (bits_of self.now) i false }
    {
        match self {
            Mask::AllTrue(_) => true,
            Mask::AllFalse(_) => false,
            Mask::Values(values) => values.bits()[i],
        }
    }

    /// The number of true bits before a place. Reads no more than 512 bits.
    #[tactic(auto, using(crate::proofs::Uniform::rank_all, crate::proofs::Counts::count_none_before))]
    pub fn rank(&self, i: usize) -> usize
        requires { i ≤ length (bits_of self.now) }
        ensures { result ≡ count_true (take i (bits_of self.now)) }
    {
        match self {
            Mask::AllTrue(_) => i,
            Mask::AllFalse(_) => 0,
            Mask::Values(values) => values.rank(i),
        }
    }

    /// The same bits. Values then have the places of the true ones at hand.
    pub fn with_cached_indices(self, alloc: Global) -> Res<Self>
        ensures cached { IfOk result (λ m. m ≡ cached self) }
        ensures bits { IfOk result (λ m. bits_of m ≡ bits_of self) }
        ensures err { IsOkUnless result ColumnError.OutOfMemory }
    {
        match self {
            Mask::AllTrue(len) => Ok(Mask::AllTrue(len)),
            Mask::AllFalse(len) => Ok(Mask::AllFalse(len)),
            Mask::Values(values) => Ok(Mask::Values(values.with_cached_indices(alloc)?)),
        }
    }

    /// The places of the true bits in rising order, where they are cached.
    pub fn cached_indices(&self) -> Option<&[usize]>
        ensures { option_copied result ≡ cached_places self.now }
    {
        match self {
            Mask::AllTrue(_) | Mask::AllFalse(_) => None,
            Mask::Values(values) => values.cached_indices(),
        }
    }
}
