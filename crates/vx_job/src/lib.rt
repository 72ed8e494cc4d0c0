//! What a job is, and what it means: trees of parts, plans of steps over them, and the page of a plan. There is no
//! algorithm here: the definitions under `specs/` speak of types and of lists of rows.
#![tactic(auto)]

pub mod boxed;
pub mod job;
pub mod laws;
pub mod page;
pub mod part;
pub mod step;

pub use boxed::Boxed;
pub use job::Job;
pub use page::{Answer, Page};
pub use part::Part;
pub use step::Step;
