//! What texts write: the unscaled numbers of decimals, and bytes.
ghost use Rattle.std.specs.Prelude.{◌≡◌};
ghost use Rattle.std.specs.Str.{all_ascii_digits};
ghost use Rattle.vx_json_rows.specs.Forms.{Gives};
ghost use Rattle.vx_json_rows.specs.Texts as spec;

use crate::forms::Unread;
use crate::reason::Trail;
use hex::FromHexError;
use std::alloc::Global;
use vx_rows::Seq;

/// Whether each byte is a digit.
fn all_digits(bytes: &[u8]) -> bool
    ensures { result ≡ all_ascii_digits bytes.now }
{
    for byte in bytes {
        if !byte.is_ascii_digit() {
            return false;
        }
    }
    true
}

/// Whether it is digits, of which the first isn't 0.
fn is_count(digits: &[u8]) -> bool
    ensures { result ≡ spec.is_count digits.now }
{
    match digits.first() {
        Some(first) => *first > b'0' && all_digits(digits),
        None => false,
    }
}

/// The bytes behind a leading `-`, or all of them.
fn without_minus(text: &[u8]) -> &[u8]
    ensures { result.now ≡ spec.without_minus text.now }
{
    match text {
        [b'-', digits @ ..] => digits,
        _ => text,
    }
}

/// Whether it is `0`, or digits without a leading zero, which may stand behind a `-`.
fn is_unscaled(text: &str) -> bool
    ensures { result ≡ spec.is_unscaled text.now }
{
    text == "0" || is_count(without_minus(text.as_bytes()))
}

/// The number that a text writes without a leading zero, where 128 bits hold it.
#[tactic(auto, using(crate::proofs::Numerals::unscaled_read, crate::proofs::Numerals::unscaled_over))]
pub fn unscaled_of(text: &str, trail: &Trail<'_>) -> Result<i128, Unread>
    ensures { Gives (λ z. z) result (spec.unscaled_of text.now) }
{
    if !is_unscaled(text) {
        return Err(Unread::NoForm(trail.no_text(
            text,
            "decimal: expected \"0\", or digits without a leading zero, maybe behind a \"-\"",
        )));
    }
    match text.parse::<i128>() {
        Ok(z) => Ok(z),
        Err(_) => Err(Unread::NoForm(trail.no_text(text, "decimal: it takes more than 128 bits"))),
    }
}

/// The bytes that a hexadecimal text writes, in either case.
pub fn bytes_of(alloc: Global, text: &str, trail: &Trail<'_>) -> Result<Seq<u8>, Unread>
    ensures { Gives (λ bytes. bytes) result (spec.bytes_of text.now) }
{
    match hex::decode(alloc, text) {
        Ok(bytes) => Ok(Seq::from_vec(bytes)),
        Err(FromHexError::OutOfMemory) => Err(Unread::OutOfMemory),
        Err(_) => Err(Unread::NoForm(trail.no_text(
            text,
            "binary: expected hexadecimal digits, two a byte",
        ))),
    }
}
