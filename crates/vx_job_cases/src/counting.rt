//! Whether a run of a job counts the reads of its plan and of its page, and no others.
use crate::asking::answer;
use serde_json::Value;
use std::alloc::Global;
use std::io;
use vx_base::{CountLedger, Ledger, Res, Steps};
use vx_cases::Answer;
use vx_plan::run_plan;
use vx_tool::{Job, job_of};

/// The job of the text.
fn parsed(alloc: Global, text: &str) -> io::Result<Job> {
    let Ok(value) = Value::from_str(alloc, text) else {
        return Err(io::Error::other("the job is no JSON"));
    };
    match job_of(alloc, &value) {
        Ok(Some(job)) => Ok(job),
        _ => Err(io::Error::other("the JSON is no job")),
    }
}

/// Takes the job's plan, and makes the page of what it leaves.
fn take_plan<L: Ledger>(alloc: Global, job: Job, steps: &mut Steps<L>) -> Res<()> {
    let Job { parts, plan } = job;
    let answers = run_plan(alloc, parts, plan.as_slice(), steps)?;
    let _page = answers.into_rows(alloc, steps)?;
    Ok(())
}

/// How many reads the plan and the page of a job count. A plan that is refused has no page.
fn planned_reads(rt: &HostRuntime, text: &str) -> io::Result<u64> {
    let job = parsed(rt.alloc(), text)?;
    let mut steps = Steps::new(rt, CountLedger::new());
    let _taken = take_plan(rt.alloc(), job, &mut steps);
    Ok(steps.ledger().count())
}

/// Whether the run of the job counts the same, with what it counts.
pub(crate) fn compared(rt: &HostRuntime, text: &str) -> io::Result<Answer> {
    let alloc = rt.alloc();
    let reads = answer(rt, &[], Vec::from_slice(alloc, text.as_bytes())?)?.reads;
    let planned = planned_reads(rt, text)?;
    let text = if planned == reads {
        String::from_str(alloc, "the same")?
    } else {
        format!(in alloc; "{planned} of the plan and the page")?
    };
    Ok(Answer { text, reads })
}
