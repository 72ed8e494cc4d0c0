//! What a program reads from and writes to: ends whose bytes and faults a contract can name.
//!
//! `Source` and `Sink` say what each read and write does. `SureSource` and `SureSink` are ends in memory that
//! never fail. `StdinSource` and `StdoutSink` stand before the readers and writers of the system: they keep
//! to the traits, and tell no bytes, since no contract can say what the system gives or takes. `read_all`
//! and `write_all` move a whole text through any end.
#![tactic(auto)]

mod moving;
pub mod reading;
pub mod real;
pub mod sink;
pub mod source;
pub mod sure;
#[cfg(test)]
mod tests;
pub mod writing;

pub use reading::{ReadError, read_all};
pub use real::{StdinSource, StdoutSink};
pub use sink::{Sink, SinkError};
pub use source::{Failed, Source};
pub use sure::{SureSink, SureSource};
pub use writing::write_all;
