//! Where the rows of chunks lie: planners over lengths alone, which know of no columns.
#![tactic(auto)]

pub mod boundaries;
pub mod data;
pub mod plan;

pub use boundaries::Boundaries;
pub use data::ChunkedData;
pub use plan::SlicePlan;
