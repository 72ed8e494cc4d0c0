//! Validity: which rows are present, and not null.
ghost use Rattle.std.specs.Prelude.{◌≡◌, All, IfOk, IfSome, IsOkUnless};
ghost use Rattle.vx_masks.specs.Validities.{valid_bits, HasBits, is_non_nullable, is_all_valid};
ghost use Rattle.vx_masks.specs.Validities.{is_all_invalid, joined_bits, joined_len, joined};
ghost use Rattle.vx_masks.specs.Validities.{concat_of};
ghost use Rattle.std.specs.List.{list_all};

use std::alloc::Global;
use vx_rows::{ColumnError, Res, Seq};

/// Which rows are present.
pub enum Validity {
    /// All rows, of a type without nulls.
    NonNullable,
    /// All rows, of a type that may have nulls.
    AllValid,
    /// No row.
    AllInvalid,
    /// The rows whose bit is true.
    Array(Seq<bool>),
}

impl Drop for Validity {
    fn drop(self) {
        match self {
            Validity::NonNullable => {}
            Validity::AllValid => {}
            Validity::AllInvalid => {}
            Validity::Array(_bits) => {}
        }
    }
}

impl Validity {
    /// The validity of rows one behind the other, each entry with its number of rows. None for no entry. Entries of one
    /// variant without bits give it again, and other entries an array.
    pub fn concat(alloc: Global, list: &[(Validity, usize)]) -> Res<Option<Validity>>
        requires { All (λ e. HasBits e.0 e.1) list.now }
        ensures ok { IfOk result (λ v. v ≡ concat_of list.now) }
        ensures bits { IfOk result (λ v. IfSome v (λ w.
            valid_bits w (joined_len list.now) ≡ joined_bits list.now)) }
        ensures err { IsOkUnless result ColumnError.OutOfMemory }
    {
        if list.is_empty() {
            return Ok(None);
        }
        Ok(Some(join(alloc, list)?))
    }

    /// Whether each of `len` rows is present, a bit for each.
    pub fn to_bits(&self, alloc: Global, len: usize) -> Res<Seq<bool>>
        requires { HasBits self.now len }
        ensures ok { IfOk result (λ bits. bits ≡ valid_bits self.now len) }
        ensures err { IsOkUnless result ColumnError.OutOfMemory }
    {
        let bits = match self {
            Validity::NonNullable | Validity::AllValid => vec![in alloc; true; len]?,
            Validity::AllInvalid => vec![in alloc; false; len]?,
            Validity::Array(bits) => Vec::from_slice(alloc, bits.as_slice())?,
        };
        Ok(Seq::from_vec(bits))
    }

    fn is_non_nullable(&self) -> bool
        ensures { result ≡ is_non_nullable self.now }
    {
        matches!(self, Validity::NonNullable)
    }

    fn is_all_valid(&self) -> bool
        ensures { result ≡ is_all_valid self.now }
    {
        matches!(self, Validity::AllValid)
    }

    fn is_all_invalid(&self) -> bool
        ensures { result ≡ is_all_invalid self.now }
    {
        matches!(self, Validity::AllInvalid)
    }
}

/// The validity of the entries one behind the other.
#[tactic(auto, using(crate::proofs::Joins::non_nullable_bits, crate::proofs::Joins::all_valid_bits, crate::proofs::Joins::all_invalid_bits))]
fn join(alloc: Global, list: &[(Validity, usize)]) -> Res<Validity>
    requires { All (λ e. HasBits e.0 e.1) list.now }
    ensures ok { IfOk result (λ v. v ≡ joined list.now) }
    ensures bits { IfOk result (λ v. valid_bits v (joined_len list.now) ≡ joined_bits list.now) }
    ensures err { IsOkUnless result ColumnError.OutOfMemory }
{
    if all_non_nullable(list) {
        return Ok(Validity::NonNullable);
    }
    if all_valid(list) {
        return Ok(Validity::AllValid);
    }
    if all_invalid(list) {
        return Ok(Validity::AllInvalid);
    }
    Ok(Validity::Array(joined_bits(alloc, list)?))
}

fn all_non_nullable(list: &[(Validity, usize)]) -> bool
    ensures { result ≡ list_all (λ e. is_non_nullable e.0) list.now }
{
    list.iter().all(|entry| entry.0.is_non_nullable())
}

fn all_valid(list: &[(Validity, usize)]) -> bool
    ensures { result ≡ list_all (λ e. is_all_valid e.0) list.now }
{
    list.iter().all(|entry| entry.0.is_all_valid())
}

fn all_invalid(list: &[(Validity, usize)]) -> bool
    ensures { result ≡ list_all (λ e. is_all_invalid e.0) list.now }
{
    list.iter().all(|entry| entry.0.is_all_invalid())
}

/// The bits of the entries, one behind the other.
#[tactic(auto, using(crate::proofs::Joins::joined_more))]
fn joined_bits(alloc: Global, list: &[(Validity, usize)]) -> Res<Seq<bool>>
    requires { All (λ e. HasBits e.0 e.1) list.now }
    ensures ok { IfOk result (λ bits. bits ≡ joined_bits list.now) }
    ensures err { IsOkUnless result ColumnError.OutOfMemory }
{
    let mut bits = Seq::new(alloc);
    for (validity, len) in list {
        bits.append(validity.to_bits(alloc, *len)?)?;
    }
    Ok(bits)
}
