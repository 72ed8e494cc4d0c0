//! Jobs.
use crate::part::Part;
use crate::step::Step;

/// The parts of a column, and the steps to take with it.
#[derive(Drop)]
pub struct Job {
    /// The parts: the steps act on the first.
    pub parts: Vec<Part>,
    /// The steps, in order.
    pub plan: Vec<Step>,
}
