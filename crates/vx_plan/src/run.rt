//! Plans: the steps, taken in order over the first of the parts.
ghost use Rattle.std.specs.Prelude.{◌≡◌, ℕ, ◌+◌, ◌*◌, ◌≤◌, ◌⊎◌, ◌++◌, ◌∷◌, [], length, map};
ghost use Rattle.std.specs.Prelude.{IfOk, OnOk, IfErr, IsOkUnless, List};
ghost use Rattle.std.specs.List.{All};
ghost use Rattle.std.specs.Option.{unwrap_or};
ghost use Rattle.vx_base.specs.Column.{Flat};
ghost use Rattle.vx_column.specs.Columns.{rows_of, len_of, type_of, flat_of, IsSound, IsPlain, point_cost, select_bound};
ghost use Rattle.vx_job.specs.Rows.{picked};
ghost use Rattle.vx_job.specs.Steps.{step_leaves, step_answers, IsStepError, IsFree, AreInside, IsPointsError, HasBound, step_cost};
ghost use Rattle.vx_job.specs.Plans.{RunsTo, StopsWith, Reaches, IsPlanError, AreBounded, plan_cost, plan_bound, rows_bound};
ghost use Rattle.vx_job.specs.declared.page.Answer.{Answer};
ghost use Rattle.vx_job.specs.declared.page.Answer.TheVariants.{Rows as answer_rows};
ghost use Rattle.vx_probe.specs.Probes.{probed};
ghost use Rattle.vx_plan.specs.AnswersView.{CostsNoMore};

use crate::answers::Answers;
use crate::elementwise::{cast, compare, fill, mask, zip};
use crate::lookups::{contains, search};
use crate::open::open_parts;
use crate::selections::{filter, join_runs, take};
use std::alloc::Global;
use vx_base::{ColumnError, Ledger, Res, Row, Seq, Steps};
use vx_column::Column;
use vx_job::{Answer, Part, Step};
use vx_probe::{ArrayProbe, RepeatedArrayProbe};

/// Opens the parts, and takes the steps in order from part 0 on. The answers, and the type and the rows of the last
/// column, are those of the steps on flat lists of rows. Refuses the first fault of the parts, or else an error that is
/// true of the first step that has one; no part at all is `UnknownColumn` 0.
pub fn run_plan<L: Ledger>(
    alloc: Global,
    parts: Vec<Part>,
    plan: &[Step],
    steps: &mut Steps<L>,
) -> Res<Answers>
    ensures ok { IfOk result (λ a. Reaches parts.items plan.now a.answers (flat_of a.column)) }
    ensures err { IfErr result (λ e. (e ≡ ColumnError.OutOfMemory) ⊎ IsPlanError parts.items plan.now e) }
    ensures complete { (answers : List Answer) → (last : Flat) → Reaches parts.items plan.now answers last
        → IsOkUnless result ColumnError.OutOfMemory }
    ensures rise { AreBounded parts.items plan.now → steps.new ≤ steps.old + plan_bound parts.items plan.now }
    ensures monotone { steps.old ≤ steps.new }
    ensures plain { AreBounded parts.items plan.now → IfOk result (λ a. IsPlain a.column) }
    ensures select { AreBounded parts.items plan.now
        → IfOk result (λ a. (n : ℕ) → select_bound a.column n ≤ rows_bound parts.items n) }
{
    let columns = open_parts(alloc, parts.as_slice(), steps)?;
    let first = columns.as_slice()[0].share(alloc)?;
    run_steps(alloc, columns.as_slice(), first, plan, steps)
}

/// Takes the steps in order, from the first column on.
fn run_steps<L: Ledger>(
    alloc: Global,
    sources: &[Column],
    first: Column,
    plan: &[Step],
    steps: &mut Steps<L>,
) -> Res<Answers>
    requires sound { IsSound first }
    requires sources { All IsSound sources.now }
    ensures ok { IfOk result (λ a. RunsTo (map flat_of sources.now) 0 (flat_of first) plan.now a.answers (flat_of a.column)) }
    ensures err { IfErr result (λ e. (e ≡ ColumnError.OutOfMemory)
        ⊎ StopsWith (map flat_of sources.now) 0 (flat_of first) plan.now e) }
    ensures costs { All (HasBound (type_of first)) plan.now → IfOk result (λ a. CostsNoMore first a.column) }
    ensures rise { All (HasBound (type_of first)) plan.now → IsPlain first
        → steps.new ≤ steps.old + plan_cost (point_cost first) (select_bound first) plan.now }
    ensures monotone { steps.old ≤ steps.new }
{
    let mut column = first;
    let mut answers = Vec::new(alloc);
    for (number, step) in plan.iter().enumerate() {
        let next = take_step(alloc, number, sources, &column, step, &mut answers, steps)?;
        column = next.unwrap_or(column);
    }
    Ok(Answers::new(Seq::from_vec(answers), column))
}

/// Takes a step with a column, and appends its answer where it gives one. Ok of the column that the step leaves, or of
/// None where the column stays.
fn take_step<L: Ledger>(
    alloc: Global,
    number: usize,
    sources: &[Column],
    column: &Column,
    step: &Step,
    answers: &mut Vec<Answer>,
    steps: &mut Steps<L>,
) -> Res<Option<Column>>
    requires sound { IsSound column.now }
    requires sources { All IsSound sources.now }
    ensures free { OnOk result (IsFree (map flat_of sources.now) number (flat_of column.now) step.now) }
    ensures sound { IfOk result (λ next. IsSound (unwrap_or next column.now)) }
    ensures left { IfOk result (λ next. flat_of (unwrap_or next column.now)
        ≡ step_leaves (map flat_of sources.now) (flat_of column.now) step.now) }
    ensures costs { HasBound (type_of column.now) step.now → IfOk result (λ next. CostsNoMore column.now (unwrap_or next column.now)) }
    ensures answers { OnOk result (answers.new.items
        ≡ answers.old.items ++ step_answers (map flat_of sources.now) (flat_of column.now) step.now) }
    ensures err { IfErr result (λ e. (e ≡ ColumnError.OutOfMemory)
        ⊎ IsStepError (map flat_of sources.now) number (flat_of column.now) step.now e) }
    ensures rise { HasBound (type_of column.now) step.now → IsPlain column.now
        → steps.new ≤ steps.old + step_cost (point_cost column.now) (select_bound column.now) step.now }
    ensures monotone { steps.old ≤ steps.new }
{
    match step {
        Step::Slice { start, end } => Ok(Some(column.slice(alloc, *start..*end, steps)?)),
        Step::Points { rows, kept } => {
            answer_points(alloc, column, rows.as_slice(), *kept, answers, steps)?;
            Ok(None)
        }
        Step::Filter { mask } => Ok(Some(filter(alloc, column, mask.as_slice(), steps)?)),
        Step::Take { indices } => Ok(Some(take(alloc, column, indices.as_slice(), steps)?)),
        Step::Runs { runs, len } => {
            let next = join_runs(alloc, column, runs.as_slice(), *len, steps)?;
            Ok(Some(next))
        }
        Step::Mask { mask: keep } => Ok(Some(mask(alloc, column, keep.as_slice(), steps)?)),
        Step::Zip { source, choice } => {
            let next = zip(alloc, column, sources, *source, choice.as_slice(), steps)?;
            Ok(Some(next))
        }
        Step::Fill { value } => Ok(Some(fill(alloc, number, column, value, steps)?)),
        Step::Cast { target } => Ok(Some(cast(alloc, number, column, target, steps)?)),
        Step::Compare { operator, value } => {
            let next = compare(alloc, number, column, *operator, value, steps)?;
            Ok(Some(next))
        }
        Step::Search { value, side } => {
            let place = search(alloc, number, column, value, *side, steps)?;
            answers.push(Answer::Place(place))?;
            Ok(None)
        }
        Step::Contains { source } => {
            let bits = contains(alloc, column, sources, *source, steps)?;
            answers.push(Answer::Bits(bits))?;
            Ok(None)
        }
    }
}

/// Appends the rows of these numbers, in order, as an answer.
fn answer_points<L: Ledger>(
    alloc: Global,
    column: &Column,
    numbers: &[usize],
    kept: bool,
    answers: &mut Vec<Answer>,
    steps: &mut Steps<L>,
) -> Res<()>
    requires { IsSound column.now }
    ensures answers { OnOk result (answers.new.items ≡ answers.old.items ++ answer_rows (picked (rows_of column.now) numbers.now) ∷ []) }
    ensures inside { OnOk result (AreInside (len_of column.now) numbers.now) }
    ensures err { IfErr result (λ e. (e ≡ ColumnError.OutOfMemory) ⊎ IsPointsError (len_of column.now) numbers.now e) }
    ensures rise { IsPlain column.now → steps.new ≤ steps.old + length numbers.now * point_cost column.now }
    ensures monotone { steps.old ≤ steps.new }
{
    let rows = points(alloc, column, numbers, kept, steps)?;
    answers.push(Answer::Rows(rows))?;
    Ok(())
}

/// The rows of these numbers, in order, read through one probe that is kept, or each by itself.
fn points<L: Ledger>(
    alloc: Global,
    column: &Column,
    numbers: &[usize],
    kept: bool,
    steps: &mut Steps<L>,
) -> Res<Seq<Row>>
    requires { IsSound column.now }
    ensures ok { IfOk result (λ answer. answer ≡ picked (rows_of column.now) numbers.now) }
    ensures inside { OnOk result (AreInside (len_of column.now) numbers.now) }
    ensures err { IfErr result (λ e. (e ≡ ColumnError.OutOfMemory) ⊎ IsPointsError (len_of column.now) numbers.now e) }
    ensures rise { IsPlain column.now → steps.new ≤ steps.old + length numbers.now * point_cost column.now }
    ensures monotone { steps.old ≤ steps.new }
{
    if kept {
        return kept_points(alloc, column, numbers, steps);
    }
    read_points(alloc, &mut ArrayProbe::once(column), numbers, steps)
}

/// The same through a probe that is kept.
fn kept_points<L: Ledger>(
    alloc: Global,
    column: &Column,
    numbers: &[usize],
    steps: &mut Steps<L>,
) -> Res<Seq<Row>>
    requires { IsSound column.now }
    ensures ok { IfOk result (λ answer. answer ≡ picked (rows_of column.now) numbers.now) }
    ensures inside { OnOk result (AreInside (len_of column.now) numbers.now) }
    ensures err { IfErr result (λ e. (e ≡ ColumnError.OutOfMemory) ⊎ IsPointsError (len_of column.now) numbers.now e) }
    ensures rise { IsPlain column.now → steps.new ≤ steps.old + length numbers.now * point_cost column.now }
    ensures monotone { steps.old ≤ steps.new }
{
    let mut probe = RepeatedArrayProbe::new(column.share(alloc)?);
    read_points(alloc, &mut probe.as_probe(), numbers, steps)
}

/// The rows of these numbers, in order, of the column that the probe reads.
fn read_points<L: Ledger>(
    alloc: Global,
    probe: &mut ArrayProbe<'_>,
    numbers: &[usize],
    steps: &mut Steps<L>,
) -> Res<Seq<Row>>
    requires { IsSound (probed probe.old) }
    ensures ok { IfOk result (λ answer. answer ≡ picked (rows_of (probed probe.old)) numbers.now) }
    ensures inside { OnOk result (AreInside (len_of (probed probe.old)) numbers.now) }
    ensures err { IfErr result (λ e. (e ≡ ColumnError.OutOfMemory) ⊎ IsPointsError (len_of (probed probe.old)) numbers.now e) }
    ensures rise { IsPlain (probed probe.old) → steps.new ≤ steps.old + length numbers.now * point_cost (probed probe.old) }
    ensures monotone { steps.old ≤ steps.new }
{
    let mut rows = Seq::new(alloc);
    for number in numbers {
        rows.push(probe.execute_scalar(alloc, *number, steps)?)?;
    }
    Ok(rows)
}
