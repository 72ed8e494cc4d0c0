//! Laws over the definitions of steps, plans and parts, as contracts.
ghost use Rattle.vx_job.specs.Laws.{FreeOrError, RunsOrStops, NotRunAndStopped, RunsOnce, CleanOrFaulty, NotBoth, OneFault};

/// A step is free, or some error other than running out of memory is true of it.
pub fn step_law()
    ensures { FreeOrError }
{}

/// A plan either reaches its end, with one list of answers and one last column, or stops at a step.
pub fn run_laws()
    ensures judged { RunsOrStops }
    ensures not_both { NotRunAndStopped }
    ensures once { RunsOnce }
{}

/// A part meets its rules, and those of the parts within, exactly where it has no first fault, and it has one at most.
pub fn fault_laws()
    ensures judged { CleanOrFaulty }
    ensures not_both { NotBoth }
    ensures one { OneFault }
{}
