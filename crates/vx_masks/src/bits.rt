//! Lists of bits: how many are true and where, and bits out of places.
ghost use Rattle.std.specs.Prelude.{◌≡◌, ◌+◌, ◌<◌, ◌≤◌, ◌||◌, ℕ, length, false, All, IfOk, slice_index_or};
ghost use Rattle.vx_masks.specs.Bits.{all_true, any_true, count_true, places_of, ranks_of};
ghost use Rattle.vx_masks.specs.Bits.{bits_at, is_within, bits_in};

use std::alloc::{AllocError, Global};

/// How many bits stand from one count that a mask keeps to the next.
pub(crate) const BLOCK: usize = 512;

/// The number of true bits.
pub(crate) fn true_count(bits: &[bool]) -> usize
    ensures { result ≡ count_true bits.now }
{
    bits.iter().filter(|bit| **bit).count()
}

/// Whether every bit is true.
pub(crate) fn all_true(bits: &[bool]) -> bool
    ensures { result ≡ all_true bits.now }
{
    bits.iter().all(|bit| *bit)
}

/// Whether some bit is true.
pub(crate) fn any_true(bits: &[bool]) -> bool
    ensures { result ≡ any_true bits.now }
{
    bits.iter().any(|bit| *bit)
}

/// How many bits are true before each 512th one.
#[tactic(auto, using(crate::proofs::Counts::rank_more, crate::proofs::Counts::rank_within))]
pub(crate) fn ranks(alloc: Global, bits: &[bool]) -> Result<Vec<usize>, AllocError>
    ensures { IfOk result (λ ranks. ranks.items ≡ ranks_of bits.now) }
{
    let mut ranks = Vec::new(alloc);
    let mut count = 0;
    ranks.push(count)?;
    for block in 0..bits.len() / BLOCK {
        count += true_count(&bits[block * BLOCK..(block + 1) * BLOCK]);
        ranks.push(count)?;
    }
    Ok(ranks)
}

/// The places of the true bits.
#[tactic(auto, using(crate::proofs::Places::places_yes, crate::proofs::Places::places_no))]
pub(crate) fn places(alloc: Global, bits: &[bool]) -> Result<Vec<usize>, AllocError>
    ensures { IfOk result (λ places. places.items ≡ places_of bits.now) }
{
    let mut places = Vec::new(alloc);
    for (i, bit) in bits.iter().enumerate() {
        if *bit {
            places.push(i)?;
        }
    }
    Ok(places)
}

/// So many bits, true at the indices.
pub(crate) fn bits_at(alloc: Global, len: usize, indices: &[usize]) -> Result<Vec<bool>, AllocError>
    requires { All (λ i. i < len) indices.now }
    ensures { IfOk result (λ bits. bits.items ≡ bits_at len indices.now) }
{
    let mut bits = vec![in alloc; false; len]?;
    for index in indices {
        bits[*index] = true;
    }
    Ok(bits)
}

/// So many bits, true from the start of each slice to below its end.
pub(crate) fn bits_in(
    alloc: Global,
    len: usize,
    slices: &[(usize, usize)],
) -> Result<Vec<bool>, AllocError>
    requires { All (λ s. (s.0 ≤ s.1) × (s.1 ≤ len)) slices.now }
    ensures { IfOk result (λ bits. bits.items ≡ bits_in len slices.now) }
{
    let mut bits = vec![in alloc; false; len]?;
    for (start, end) in slices {
        set_range(bits.as_mut_slice(), *start, *end);
    }
    Ok(bits)
}

/// Sets the bits from a start to below an end.
fn set_range(bits: &mut [bool], start: usize, end: usize)
    requires order { start ≤ end }
    requires inside { end ≤ length bits.old }
    ensures len { length bits.new ≡ length bits.old }
    ensures each { (k : ℕ) → k < length bits.old → slice_index_or bits.new k false
        ≡ (slice_index_or bits.old k false || is_within k (start, end)) }
{
    for i in start..end {
        bits[i] = true;
    }
}
