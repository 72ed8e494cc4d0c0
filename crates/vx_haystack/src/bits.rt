//! Bits, packed in words of 64.
ghost use Rattle.std.specs.Prelude.{◌≡◌, ◌≢◌, ℕ, ◌/◌, ◌<◌, ◌||◌, true, false, nat_eq, length, IfOk, IsOkUnless};
ghost use Rattle.std.specs.Int.{bit_at};
ghost use Rattle.vx_haystack.specs.Words.{has_bit};

use std::alloc::Global;
use vx_rows::{ColumnError, Res};

/// So many bits and at most 64 more, none of them set.
pub(crate) fn no_bits(alloc: Global, last: usize) -> Res<Vec<u64>>
    ensures bits { IfOk result (λ words. (i : ℕ) → has_bit words.items i ≡ false) }
    ensures room { IfOk result (λ words. last / 64 < length words.items) }
    ensures err { IsOkUnless result ColumnError.OutOfMemory }
{
    Ok(vec![in alloc; 0u64; last / 64 + 1]?)
}

/// Sets the bit of a place, which the words have.
pub(crate) fn set_bit(words: &mut Vec<u64>, i: usize)
    requires { i / 64 < length words.old.items }
    ensures set { has_bit words.new.items i ≡ true }
    ensures others { (j : ℕ) → j ≢ i → has_bit words.new.items j ≡ has_bit words.old.items j }
    ensures len { length words.new.items ≡ length words.old.items }
{
    words[i / 64] = with_bit(words[i / 64], (i % 64) as u32);
}

/// The word with a bit set.
fn with_bit(word: u64, k: u32) -> u64
    requires { k < 64 }
    ensures set { bit_at result k ≡ 1 }
    ensures others { (i : ℕ) → i ≢ k → bit_at result i ≡ bit_at word i }
{
    word | (1 << k)
}

/// Whether the bit of a place is set, where beyond the words none is.
pub(crate) fn has_bit(words: &[u64], i: usize) -> bool
    ensures { result ≡ has_bit words.now i }
{
    match words.get(i / 64) {
        None => false,
        Some(word) => test_bit(*word, (i % 64) as u32),
    }
}

/// Whether a bit of the word is set.
fn test_bit(word: u64, k: u32) -> bool
    requires { k < 64 }
    ensures { result ≡ nat_eq (bit_at word k) 1 }
{
    (word >> k) & 1 == 1
}
