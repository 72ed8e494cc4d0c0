//! Statuses by their names.
use std::alloc::{AllocError, Global};
use vx_tool::Status;

fn status_named(name: &str) -> Option<Status> {
    match name {
        "Ok" => Some(Status::Ok),
        "Refused" => Some(Status::Refused),
        "Usage" => Some(Status::Usage),
        "NotAJob" => Some(Status::NotAJob),
        "ReadFault" => Some(Status::ReadFault),
        "WriteFault" => Some(Status::WriteFault),
        "OutOfMemory" => Some(Status::OutOfMemory),
        "TooLong" => Some(Status::TooLong),
        _ => None,
    }
}

/// The number of the status of this name, and its words.
pub(crate) fn status_text(alloc: Global, name: &str) -> Result<String, AllocError> {
    match status_named(name) {
        Some(status) => format!(in alloc; "{} {}", status.code(), status.name()),
        None => String::from_str(alloc, "no status"),
    }
}
