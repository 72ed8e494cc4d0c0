//! The command as a call: from the bytes of a source to the bytes of a sink. Names the ends and the JSON forms again.
#![tactic(auto)]

pub mod command;
pub mod note;
pub mod reply;
pub mod run;
pub mod status;

pub use note::Note;
pub use run::{run_job, run_noted};
pub use status::Status;
pub use vx_ends::{Failed, Sink, SinkError, Source, StdinSource, StdoutSink, SureSink, SureSource};
pub use vx_job::Job;
pub use vx_json::job_of;
pub use vx_pages::page_of;
