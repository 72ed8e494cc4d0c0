//! The bits of a mask that is neither all true nor all false.
ghost use Rattle.std.specs.Prelude.{◌≡◌, ◌<◌, ◌≤◌, length, take, slice_index_or, Bool, false, IfOk};
ghost use Rattle.std.specs.Prelude.{true, Option, Some, None, if◌then◌else◌};
ghost use Rattle.std.specs.Option.{option_copied};
ghost use Rattle.vx_masks.specs.Bits.{IsMixed, count_true, places_of, ranks_of};

use crate::bits::{BLOCK, places, ranks, true_count};
use std::alloc::{AllocError, Global};
use std::marker::Model;

/// Bits of both kinds, with the number of true ones before each 512th, and their places once these are asked for.
pub struct MaskValues {
    bits: Vec<bool>,
    ranks: Vec<usize>,
    true_count: usize,
    indices: Option<Vec<usize>>,
}

impl Drop for MaskValues {
    fn drop(self) {
        let MaskValues {
            bits: _,
            ranks: _,
            true_count: _,
            indices: _,
        } = self;
    }
}

impl Model for MaskValues {
    ghost use Rattle.std.specs.Prelude.{◌≡◌, is_some};
    ghost use Rattle.std.specs.Option.{ForSome};
    ghost use Rattle.vx_masks.specs.Views.{MixedBits};
    ghost use Rattle.vx_masks.specs.Bits.{IsMixed, count_true, places_of, ranks_of};

    ghost Value = { MixedBits };

    ghost view = { λ v. record { bits = v.bits.items; is_cached = is_some v.indices } };

    ghost invariant = { λ v. IsMixed v.bits.items
        × (v.ranks.items ≡ ranks_of v.bits.items)
        × (v.true_count ≡ count_true v.bits.items)
        × ForSome v.indices (λ places. places.items ≡ places_of v.bits.items) };
}

impl MaskValues {
    /// Values of these bits, which are not copied. Their indices aren't cached.
    pub(crate) fn from_vec(alloc: Global, bits: Vec<bool>) -> Result<Self, AllocError>
        requires { IsMixed bits.items }
        ensures { IfOk result (λ v. v ≡ record { bits = bits.items; is_cached = false }) }
    {
        let ranks = ranks(alloc, bits.as_slice())?;
        let true_count = true_count(bits.as_slice());
        Ok(MaskValues {
            bits,
            ranks,
            true_count,
            indices: None,
        })
    }

    /// The bits, lent.
    pub(crate) fn bits(&self) -> &[bool]
        ensures bits { result.now ≡ self.now.bits }
        ensures mixed { IsMixed self.now.bits }
    {
        self.bits.as_slice()
    }

    /// The number of true bits.
    pub(crate) fn true_count(&self) -> usize
        ensures count { result ≡ count_true self.now.bits }
        ensures mixed { IsMixed self.now.bits }
    {
        self.true_count
    }

    /// The number of true bits before a place. Reads no more than 512 bits.
    #[tactic(auto, using(crate::proofs::Counts::rank_inside))]
    pub(crate) fn rank(&self, i: usize) -> usize
        requires { i ≤ length self.now.bits }
        ensures { result ≡ count_true (take i self.now.bits) }
    {
        let block = i / BLOCK;
        self.ranks[block] + true_count(&self.bits[block * BLOCK..i])
    }

    /// The same bits, with the places of the true ones at hand.
    pub(crate) fn with_cached_indices(self, alloc: Global) -> Result<Self, AllocError>
        ensures { IfOk result (λ v. v ≡ record { bits = self.bits; is_cached = true }) }
    {
        if self.indices.is_some() {
            return Ok(self);
        }
        let places = places(alloc, self.bits.as_slice())?;
        let MaskValues {
            bits,
            ranks,
            true_count,
            indices: _,
        } = self;
        Ok(MaskValues {
            bits,
            ranks,
            true_count,
            indices: Some(places),
        })
    }

    /// The places of the true bits, where they are cached.
    pub(crate) fn cached_indices(&self) -> Option<&[usize]>
        ensures { option_copied result
            ≡ (if self.now.is_cached then Some (places_of self.now.bits) else None) }
    {
        match &self.indices {
            Some(places) => Some(places.as_slice()),
            None => None,
        }
    }
}
