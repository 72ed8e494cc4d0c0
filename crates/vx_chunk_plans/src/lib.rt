//! Which rows of which chunks a selection is: plans over lengths and selections alone, which know of no columns.
#![tactic(auto)]

pub mod filter;
pub mod plans;
pub mod runs;
pub mod take;

pub use filter::ChunkFilter;
pub use plans::SelectionPlans;
pub use runs::RunsPlan;
pub use take::TakePlan;
