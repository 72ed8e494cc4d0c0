//! The command: reads a job, runs it, and writes its page or its refusal.
ghost use Rattle.std.specs.Prelude.{◌≡◌, ◌≢◌, ◌≤◌, ◌↔◌, ℕ, List, Some, true, false, Err};
ghost use Rattle.std.specs.Prelude.{IfOk, IfErr, IsErrOf, map, string_bytes};
ghost use Rattle.vx_ends.specs.Causes.{Rose, TellsAsBefore};
ghost use Rattle.vx_ends.specs.Moved.{taken_len, TakesFront};
ghost use Rattle.vx_tool.specs.Words.{is_run as is_run_spec};
ghost use Rattle.vx_tool.specs.Outcome.{limit, HasReply, Stops, Writes, Outcome, IsOwed, IsUnlessMemory};
ghost use Rattle.vx_tool.specs.declared.status.Status.{Status};

use crate::command::is_run;
use crate::note::Note;
use crate::reply::{Reply, reply_to};
use crate::status::Status;
use std::alloc::Global;
use vx_base::{Ledger, Steps};
use vx_ends::{ReadError, Sink, SinkError, Source, read_all, write_all};

/// The most bytes that a job may have.
const LIMIT: usize = 67_108_864;

/// Does all that the program does: reads the job from the source, runs it, and writes its page or its refusal, on a
/// line, to the sink. What each status says of the bytes and of the count of reads is `Outcome`; where neither end
/// fails, what the bytes owe is `IsOwed`.
pub fn run_job<S: Source, K: Sink, L: Ledger>(
    alloc: Global,
    words: &[String],
    source: &mut S,
    sink: &mut K,
    steps: &mut Steps<L>,
) -> Status
    ensures usage { (result ≡ Status.Usage) ↔ (is_run_spec (map string_bytes words.now) ≡ false) }
    ensures outcome { Outcome result (S.left source.old) (S.left source.new) (K.held sink.old) (K.held sink.new)
        steps.old steps.new }
    ensures short { (result ≢ Status.TooLong) → taken_len (S.left source.old) (S.left source.new) ≤ limit }
    ensures read_fault { result ≡ Status.ReadFault → Rose (S.faults source.old) (S.faults source.new) }
    ensures write_fault { result ≡ Status.WriteFault → Rose (K.faults sink.old) (K.faults sink.new) }
    ensures complete { (bytes : List ℕ) (wanted : Status) → S.left source.old ≡ Some bytes → IsOwed bytes wanted
        → is_run_spec (map string_bytes words.now) ≡ true
        → ¬ Rose (S.faults source.old) (S.faults source.new) → ¬ Rose (K.faults sink.old) (K.faults sink.new)
        → IsUnlessMemory result wanted }
    ensures monotone { steps.old ≤ steps.new }
    ensures front { TakesFront (S.left source.old) (S.left source.new) }
    ensures reads_tell { TellsAsBefore (S.left source.old) (S.left source.new) }
    ensures writes_tell { TellsAsBefore (K.held sink.old) (K.held sink.new) }
    ensures reads_later { S.faults source.old ≤ S.faults source.new }
    ensures writes_later { K.faults sink.old ≤ K.faults sink.new }
{
    let mut note = Note::new();
    run_noted(alloc, words, source, sink, steps, &mut note)
}

/// The same, and where the bytes are no job, the note tells why.
pub fn run_noted<S: Source, K: Sink, L: Ledger>(
    alloc: Global,
    words: &[String],
    source: &mut S,
    sink: &mut K,
    steps: &mut Steps<L>,
    note: &mut Note,
) -> Status
    ensures usage { (result ≡ Status.Usage) ↔ (is_run_spec (map string_bytes words.now) ≡ false) }
    ensures outcome { Outcome result (S.left source.old) (S.left source.new) (K.held sink.old) (K.held sink.new)
        steps.old steps.new }
    ensures short { (result ≢ Status.TooLong) → taken_len (S.left source.old) (S.left source.new) ≤ limit }
    ensures read_fault { result ≡ Status.ReadFault → Rose (S.faults source.old) (S.faults source.new) }
    ensures write_fault { result ≡ Status.WriteFault → Rose (K.faults sink.old) (K.faults sink.new) }
    ensures complete { (bytes : List ℕ) (wanted : Status) → S.left source.old ≡ Some bytes → IsOwed bytes wanted
        → is_run_spec (map string_bytes words.now) ≡ true
        → ¬ Rose (S.faults source.old) (S.faults source.new) → ¬ Rose (K.faults sink.old) (K.faults sink.new)
        → IsUnlessMemory result wanted }
    ensures monotone { steps.old ≤ steps.new }
    ensures front { TakesFront (S.left source.old) (S.left source.new) }
    ensures reads_tell { TellsAsBefore (S.left source.old) (S.left source.new) }
    ensures writes_tell { TellsAsBefore (K.held sink.old) (K.held sink.new) }
    ensures reads_later { S.faults source.old ≤ S.faults source.new }
    ensures writes_later { K.faults sink.old ≤ K.faults sink.new }
{
    if !is_run(words) {
        return Status::Usage;
    }
    match read_reply(alloc, source, steps, note) {
        Ok(reply) => write_reply(&reply, sink),
        Err(status) => status,
    }
}

/// Reads the job, and makes the reply to it. Where the bytes are no job, the note tells why.
fn read_reply<S: Source, L: Ledger>(
    alloc: Global,
    source: &mut S,
    steps: &mut Steps<L>,
    note: &mut Note,
) -> Result<Reply, Status>
    ensures ok { IfOk result
        (λ reply. HasReply (S.left source.old) (S.left source.new) reply steps.old steps.new) }
    ensures err { IfErr result (λ status. Stops status (S.left source.old) (S.left source.new)) }
    ensures short { (result ≢ Err Status.TooLong) → taken_len (S.left source.old) (S.left source.new) ≤ limit }
    ensures fault { IsErrOf result Status.ReadFault → Rose (S.faults source.old) (S.faults source.new) }
    ensures monotone { steps.old ≤ steps.new }
    ensures front { TakesFront (S.left source.old) (S.left source.new) }
    ensures tells { TellsAsBefore (S.left source.old) (S.left source.new) }
    ensures later { S.faults source.old ≤ S.faults source.new }
{
    let bytes = match read_all(alloc, LIMIT, source) {
        Ok(bytes) => bytes,
        Err(ReadError::Failed) => return Err(Status::ReadFault),
        Err(ReadError::TooLong) => return Err(Status::TooLong),
        Err(ReadError::OutOfMemory) => return Err(Status::OutOfMemory),
    };
    match reply_to(alloc, bytes, steps) {
        Ok(Ok(reply)) => Ok(reply),
        Ok(Err(reason)) => {
            note.keep(reason);
            Err(Status::NotAJob)
        }
        Err(_) => Err(Status::OutOfMemory),
    }
}

/// Writes the reply.
fn write_reply<K: Sink>(reply: &Reply, sink: &mut K) -> Status
    ensures cases { Writes result reply.now (K.held sink.old) (K.held sink.new) }
    ensures fault { result ≡ Status.WriteFault → Rose (K.faults sink.old) (K.faults sink.new) }
    ensures tells { TellsAsBefore (K.held sink.old) (K.held sink.new) }
    ensures later { K.faults sink.old ≤ K.faults sink.new }
{
    let (text, written) = match reply {
        Reply::Page(text) => (text, Status::Ok),
        Reply::Refusal(text) => (text, Status::Refused),
    };
    match write_all(sink, text.as_slice()) {
        Ok(()) => written,
        Err(SinkError::Failed) => Status::WriteFault,
        Err(SinkError::OutOfMemory) => Status::OutOfMemory,
    }
}
