//! Jobs out of JSON.
ghost use Rattle.std.specs.Prelude.{◌≡◌, IfOk, IsOkUnless, option_map};
ghost use Rattle.std.specs.Result.{result_ok};
ghost use Rattle.serde_json.specs.View.{view};
ghost use Rattle.vx_json_rows.specs.Forms.{Gives};
ghost use Rattle.vx_job.specs.JobView.{job_view};
ghost use Rattle.vx_json.specs.Job.{job_of as job_spec};

use crate::parts::parts_of;
use crate::steps::steps_of;
use serde_json::Value;
use std::alloc::Global;
use vx_job::Job;
use vx_json_rows::forms::{field, has_keys};
use vx_json_rows::{Reason, Trail, Unread};
use vx_rows::{ColumnError, Res};

#[tactic(auto, unfolding(crate::specs::Job::job_of))]
fn job_form(alloc: Global, value: &Value) -> Result<Job, Unread>
    ensures { Gives job_view result (job_spec (view value.now)) }
{
    let trail = Trail::Whole(alloc);
    has_keys(value, &["parts", "plan"], &trail)?;
    let part_items = field(value, "parts", &trail)?;
    let step_items = field(value, "plan", &trail)?;
    let parts = parts_of(alloc, part_items, &Trail::Member(&trail, "parts"))?;
    let plan = steps_of(alloc, step_items, &Trail::Member(&trail, "plan"))?;
    Ok(Job { parts, plan })
}

/// The job that the value is, or why it is none.
pub fn read_value(alloc: Global, value: &Value) -> Res<Result<Job, Reason>>
    ensures ok { IfOk result (λ read. option_map job_view (result_ok read) ≡ job_spec (view value.now)) }
    ensures err { IsOkUnless result ColumnError.OutOfMemory }
{
    match job_form(alloc, value) {
        Ok(job) => Ok(Ok(job)),
        Err(unread) => match unread.into_reason() {
            Some(reason) => Ok(Err(reason)),
            None => Err(ColumnError::OutOfMemory),
        },
    }
}

/// The job that the value is, if it is one.
pub fn job_of(alloc: Global, value: &Value) -> Res<Option<Job>>
    ensures ok { IfOk result (λ found. option_map job_view found ≡ job_spec (view value.now)) }
    ensures err { IsOkUnless result ColumnError.OutOfMemory }
{
    match read_value(alloc, value)? {
        Ok(job) => Ok(Some(job)),
        Err(_reason) => Ok(None),
    }
}
