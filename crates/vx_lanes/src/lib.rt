//! Lane layouts: exceptions that stand lane by lane over chunks of 1024 rows.
#![tactic(auto)]

pub mod data;
pub mod lanes;
pub mod layout;

pub use data::{PatchedData, PatchedSlots};
pub use lanes::Lanes;
pub use layout::Layout;
