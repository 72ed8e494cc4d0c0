//! Jobs out of JSON: their parts and their steps.
#![tactic(auto)]

pub mod bytes;
pub mod job;
pub mod parts;
pub mod steps;

pub use bytes::{parse_job, read_job};
pub use job::job_of;
