//! Opens parts into columns, takes the steps of plans over them, and holds what a plan answers.
#![tactic(auto)]

pub mod answers;
mod elementwise;
mod lookups;
pub mod open;
pub mod run;
mod selections;

pub use answers::Answers;
pub use run::run_plan;
pub use vx_job::{Answer, Boxed, Job, Page, Part, Step};
