//! What a run tells beside its status.

use vx_json_rows::Reason;

/// Why the bytes of a run were no job. It is empty where they were one, and where memory for the words ran out.
#[derive(Debug)]
pub struct Note {
    reason: Option<Reason>,
}

// Written out, so that letting a note go is one call.
impl Drop for Note {
    fn drop(self) {
        let Note { reason: _ } = self;
    }
}

impl Note {
    /// A note that says nothing.
    pub fn new() -> Note {
        Note { reason: None }
    }

    /// The reason in words, on one line.
    pub fn reason(&self) -> Option<&str> {
        match &self.reason {
            Some(reason) => reason.text(),
            None => None,
        }
    }

    /// Keeps the reason in place of what the note said.
    pub(crate) fn keep(&mut self, reason: Reason) {
        self.reason = Some(reason);
    }
}
