//! Cases as text: what is asked, and the answers that are wanted beside it.
//!
//! A file of cases is blocks of lines, with an empty line between two blocks. In a block
//!
//! - `# WORDS` is for the reader alone;
//! - `let NAME TEXT` says that from here on `<NAME>` means the text;
//! - the first other line is the case's title, and the lines below it are what is asked;
//! - `= ANSWER` is the answer wanted of the next question, and `= ANSWER | reads N` says also what it counts: just `N`, or
//!   `A..=B`.
//!
//! `<A..B>` means the numbers from A to below B, and `<N;K>` the number N, K times, with commas between them.
#![tactic(auto)]

pub mod calls;
mod case;
pub mod columns;
mod names;
mod run;

pub use calls::{Asked, Call, answer_calls};
pub use run::{Answer, Answers, run_cases};
