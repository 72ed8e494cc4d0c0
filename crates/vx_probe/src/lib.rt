//! Reads of columns one row at a time, what is kept between them, and the slots that columns have.
#![tactic(auto)]

pub mod array;
pub mod laws;
mod reads;
pub mod repeated;
pub mod slots;
mod sound;
pub mod state;

pub use array::{ArrayProbe, KeptProbe};
pub use repeated::RepeatedArrayProbe;
pub use slots::{ChunkedSlots, Slots};
pub use state::{EncodingProbeState, ProbeChildren, ProbeState};
