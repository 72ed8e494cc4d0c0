//! Masks and validity: lists of bits that choose rows, or tell which of them are present.
#![tactic(auto)]

mod bits;
pub mod mask;
pub mod validity;
pub mod values;

pub use mask::Mask;
pub use validity::Validity;
pub use values::MaskValues;
