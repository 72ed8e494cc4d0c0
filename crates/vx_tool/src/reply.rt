//! From a job to the text that answers it.
ghost use Rattle.std.specs.Prelude.{◌≡◌, ◌≤◌, IfOk, IsOkUnless, MatchResult};
ghost use Rattle.vx_job.specs.JobView.{job_view};
ghost use Rattle.vx_json.specs.Bytes.{HasNoJob};
ghost use Rattle.vx_tool.specs.Reply.{Answers};
ghost use Rattle.vx_tool.specs.Outcome.{AnswersBytes};

use std::alloc::Global;
use vx_base::{ColumnError, Ledger, Res, Seq, Steps};
use vx_job::Job;
use vx_json::read_job;
use vx_json_rows::Reason;
use vx_pages::{page_line, refusal_line};
use vx_plan::run_plan;

/// What is written for a job: one line of text.
#[derive(Drop)]
pub enum Reply {
    /// The page of the plan.
    Page(Seq<u8>),
    /// The refusal of the plan.
    Refusal(Seq<u8>),
}

/// The reply to the bytes of a job, or why they are none.
pub fn reply_to<L: Ledger>(
    alloc: Global,
    bytes: Vec<u8>,
    steps: &mut Steps<L>,
) -> Res<Result<Reply, Reason>>
    ensures ok { IfOk result (λ read. MatchResult read
        (λ reply. AnswersBytes bytes.items reply steps.old steps.new) (λ _. HasNoJob bytes.items)) }
    ensures err { IsOkUnless result ColumnError.OutOfMemory }
    ensures monotone { steps.old ≤ steps.new }
{
    match read_job(alloc, bytes)? {
        Ok(job) => Ok(Ok(answer(alloc, job, steps)?)),
        Err(reason) => Ok(Err(reason)),
    }
}

/// Runs the plan of a job, and prints its page or its refusal.
fn answer<L: Ledger>(alloc: Global, job: Job, steps: &mut Steps<L>) -> Res<Reply>
    ensures ok { IfOk result (λ reply. Answers (job_view job) reply steps.old steps.new) }
    ensures err { IsOkUnless result ColumnError.OutOfMemory }
    ensures monotone { steps.old ≤ steps.new }
{
    let Job { parts, plan } = job;
    match run_plan(alloc, parts, plan.as_slice(), steps) {
        Ok(answers) => {
            let page = answers.into_rows(alloc, steps)?;
            let text = page_line(alloc, &page)?;
            Ok(Reply::Page(Seq::from_vec(text)))
        }
        Err(ColumnError::OutOfMemory) => Err(ColumnError::OutOfMemory),
        Err(error) => {
            let text = refusal_line(alloc, &error)?;
            Ok(Reply::Refusal(Seq::from_vec(text)))
        }
    }
}
