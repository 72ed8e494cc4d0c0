//! Types, rows, flat rows and scalars out of JSON, and why a value is none of these.
#![tactic(auto)]

pub mod flat;
pub mod forms;
mod integers;
mod packed;
pub mod reason;
pub mod rows;
pub mod scalars;
pub mod texts;
pub mod types;
mod written;

pub use forms::Unread;
pub use reason::{Reason, Trail};
