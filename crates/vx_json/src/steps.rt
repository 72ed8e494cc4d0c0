//! Steps out of JSON.
ghost use Rattle.std.specs.Prelude.{◌≡◌};
ghost use Rattle.serde_json.specs.View.{view};
ghost use Rattle.vx_json_rows.specs.Forms.{Gives, list_of};
ghost use Rattle.vx_json.specs.Steps as spec;

use serde_json::Value;
use std::alloc::Global;
use vx_job::Step;
use vx_json_rows::forms::{
    array_of, bool_of, field, has_field, has_keys, pair_of_wholes, seq_of, text_of, whole_of,
};
use vx_json_rows::scalars::{operator_of, scalar_of};
use vx_json_rows::types::type_of;
use vx_json_rows::{Trail, Unread};
use vx_search::SearchSortedSide;

/// The forms of steps, each known by a key that no other has.
#[derive(Clone, Copy, Debug, PartialEq, Eq, Drop)]
pub enum StepTag {
    Slice,
    Points,
    Filter,
    Take,
    Runs,
    Mask,
    Zip,
    Fill,
    Cast,
    Compare,
    Search,
    Contains,
}

fn tag_of(value: &Value) -> Option<StepTag>
    ensures { result ≡ spec.tag_of (view value.now) }
{
    if has_field(value, "slice") {
        Some(StepTag::Slice)
    } else if has_field(value, "points") {
        Some(StepTag::Points)
    } else if has_field(value, "filter") {
        Some(StepTag::Filter)
    } else if has_field(value, "take") {
        Some(StepTag::Take)
    } else if has_field(value, "runs") {
        Some(StepTag::Runs)
    } else if has_field(value, "mask") {
        Some(StepTag::Mask)
    } else if has_field(value, "zip") {
        Some(StepTag::Zip)
    } else if has_field(value, "fill") {
        Some(StepTag::Fill)
    } else if has_field(value, "cast") {
        Some(StepTag::Cast)
    } else if has_field(value, "compare") {
        Some(StepTag::Compare)
    } else if has_field(value, "search") {
        Some(StepTag::Search)
    } else if has_field(value, "contains") {
        Some(StepTag::Contains)
    } else {
        None
    }
}

/// The keys that name the forms of steps.
const TAGS: [&str; 12] = [
    "slice", "points", "filter", "take", "runs", "mask", "zip", "fill", "cast", "compare",
    "search", "contains",
];

/// The keys that steps may have.
const KEYS: [&str; 16] = [
    "slice", "points", "kept", "filter", "take", "runs", "len", "mask", "zip", "choice", "fill",
    "cast", "compare", "value", "search", "contains",
];

#[tactic(auto, unfolding(crate::specs::Steps::slice_form))]
fn slice_of(value: &Value, trail: &Trail<'_>) -> Result<Step, Unread>
    ensures { Gives (λ s. s) result (spec.slice_form (view value.now)) }
{
    has_keys(value, &["slice"], trail)?;
    let items = field(value, "slice", trail)?;
    let (start, end) = pair_of_wholes(items, &Trail::Member(trail, "slice"))?;
    Ok(Step::Slice { start, end })
}

#[tactic(auto, unfolding(crate::specs::Steps::points_form))]
fn points_of(alloc: Global, value: &Value, trail: &Trail<'_>) -> Result<Step, Unread>
    ensures { Gives (λ s. s) result (spec.points_form (view value.now)) }
{
    has_keys(value, &["points", "kept"], trail)?;
    let items = field(value, "points", trail)?;
    let flag = field(value, "kept", trail)?;
    let rows = seq_of(alloc, items, &Trail::Member(trail, "points"))?;
    let kept = bool_of(flag, &Trail::Member(trail, "kept"))?;
    Ok(Step::Points { rows, kept })
}

#[tactic(auto, unfolding(crate::specs::Steps::filter_form))]
fn filter_of(alloc: Global, value: &Value, trail: &Trail<'_>) -> Result<Step, Unread>
    ensures { Gives (λ s. s) result (spec.filter_form (view value.now)) }
{
    has_keys(value, &["filter"], trail)?;
    let items = field(value, "filter", trail)?;
    let mask = seq_of(alloc, items, &Trail::Member(trail, "filter"))?;
    Ok(Step::Filter { mask })
}

#[tactic(auto, unfolding(crate::specs::Steps::take_form))]
fn take_of(alloc: Global, value: &Value, trail: &Trail<'_>) -> Result<Step, Unread>
    ensures { Gives (λ s. s) result (spec.take_form (view value.now)) }
{
    has_keys(value, &["take"], trail)?;
    let items = field(value, "take", trail)?;
    let indices = seq_of(alloc, items, &Trail::Member(trail, "take"))?;
    Ok(Step::Take { indices })
}

#[tactic(auto, unfolding(crate::specs::Steps::runs_form))]
fn runs_of(alloc: Global, value: &Value, trail: &Trail<'_>) -> Result<Step, Unread>
    ensures { Gives (λ s. s) result (spec.runs_form (view value.now)) }
{
    has_keys(value, &["runs", "len"], trail)?;
    let items = field(value, "runs", trail)?;
    let count = field(value, "len", trail)?;
    let runs = seq_of(alloc, items, &Trail::Member(trail, "runs"))?;
    let len = whole_of(count, &Trail::Member(trail, "len"))?;
    Ok(Step::Runs { runs, len })
}

#[tactic(auto, unfolding(crate::specs::Steps::mask_form))]
fn mask_of(alloc: Global, value: &Value, trail: &Trail<'_>) -> Result<Step, Unread>
    ensures { Gives (λ s. s) result (spec.mask_form (view value.now)) }
{
    has_keys(value, &["mask"], trail)?;
    let items = field(value, "mask", trail)?;
    let mask = seq_of(alloc, items, &Trail::Member(trail, "mask"))?;
    Ok(Step::Mask { mask })
}

#[tactic(auto, unfolding(crate::specs::Steps::zip_form))]
fn zip_of(alloc: Global, value: &Value, trail: &Trail<'_>) -> Result<Step, Unread>
    ensures { Gives (λ s. s) result (spec.zip_form (view value.now)) }
{
    has_keys(value, &["zip", "choice"], trail)?;
    let number = field(value, "zip", trail)?;
    let items = field(value, "choice", trail)?;
    let source = whole_of(number, &Trail::Member(trail, "zip"))?;
    let choice = seq_of(alloc, items, &Trail::Member(trail, "choice"))?;
    Ok(Step::Zip { source, choice })
}

#[tactic(auto, unfolding(crate::specs::Steps::fill_form))]
fn fill_of(alloc: Global, value: &Value, trail: &Trail<'_>) -> Result<Step, Unread>
    ensures { Gives (λ s. s) result (spec.fill_form (view value.now)) }
{
    has_keys(value, &["fill"], trail)?;
    let item = field(value, "fill", trail)?;
    let value = scalar_of(alloc, item, &Trail::Member(trail, "fill"))?;
    Ok(Step::Fill { value })
}

#[tactic(auto, unfolding(crate::specs::Steps::cast_form))]
fn cast_of(value: &Value, trail: &Trail<'_>) -> Result<Step, Unread>
    ensures { Gives (λ s. s) result (spec.cast_form (view value.now)) }
{
    has_keys(value, &["cast"], trail)?;
    let kind = field(value, "cast", trail)?;
    let target = type_of(kind, &Trail::Member(trail, "cast"))?;
    Ok(Step::Cast { target })
}

#[tactic(auto, unfolding(crate::specs::Steps::compare_form))]
fn compare_of(alloc: Global, value: &Value, trail: &Trail<'_>) -> Result<Step, Unread>
    ensures { Gives (λ s. s) result (spec.compare_form (view value.now)) }
{
    has_keys(value, &["compare", "value"], trail)?;
    let name = field(value, "compare", trail)?;
    let item = field(value, "value", trail)?;
    let operator = operator_of(name, &Trail::Member(trail, "compare"))?;
    let value = scalar_of(alloc, item, &Trail::Member(trail, "value"))?;
    Ok(Step::Compare { operator, value })
}

fn side_named(text: &str) -> Option<SearchSortedSide>
    ensures { result ≡ spec.side_named text.now }
{
    match text {
        "left" => Some(SearchSortedSide::Left),
        "right" => Some(SearchSortedSide::Right),
        _ => None,
    }
}

/// The side that a text names.
fn side_of(value: &Value, trail: &Trail<'_>) -> Result<SearchSortedSide, Unread>
    ensures { Gives (λ s. s) result (spec.side_of (view value.now)) }
{
    let text = text_of(value, trail)?;
    match side_named(text) {
        Some(side) => Ok(side),
        None => Err(Unread::NoForm(trail.no_text(text, "side: expected \"left\" or \"right\""))),
    }
}

#[tactic(auto, unfolding(crate::specs::Steps::search_form))]
fn search_of(alloc: Global, value: &Value, trail: &Trail<'_>) -> Result<Step, Unread>
    ensures { Gives (λ s. s) result (spec.search_form (view value.now)) }
{
    has_keys(value, &["search", "value"], trail)?;
    let name = field(value, "search", trail)?;
    let item = field(value, "value", trail)?;
    let side = side_of(name, &Trail::Member(trail, "search"))?;
    let value = scalar_of(alloc, item, &Trail::Member(trail, "value"))?;
    Ok(Step::Search { value, side })
}

#[tactic(auto, unfolding(crate::specs::Steps::contains_form))]
fn contains_of(value: &Value, trail: &Trail<'_>) -> Result<Step, Unread>
    ensures { Gives (λ s. s) result (spec.contains_form (view value.now)) }
{
    has_keys(value, &["contains"], trail)?;
    let number = field(value, "contains", trail)?;
    let source = whole_of(number, &Trail::Member(trail, "contains"))?;
    Ok(Step::Contains { source })
}

/// The step that a value is.
pub fn step_of(alloc: Global, value: &Value, trail: &Trail<'_>) -> Result<Step, Unread>
    ensures { Gives (λ s. s) result (spec.step_of (view value.now)) }
{
    match tag_of(value) {
        None => Err(Unread::NoForm(trail.untagged(value, &TAGS, &KEYS))),
        Some(StepTag::Slice) => slice_of(value, trail),
        Some(StepTag::Points) => points_of(alloc, value, trail),
        Some(StepTag::Filter) => filter_of(alloc, value, trail),
        Some(StepTag::Take) => take_of(alloc, value, trail),
        Some(StepTag::Runs) => runs_of(alloc, value, trail),
        Some(StepTag::Mask) => mask_of(alloc, value, trail),
        Some(StepTag::Zip) => zip_of(alloc, value, trail),
        Some(StepTag::Fill) => fill_of(alloc, value, trail),
        Some(StepTag::Cast) => cast_of(value, trail),
        Some(StepTag::Compare) => compare_of(alloc, value, trail),
        Some(StepTag::Search) => search_of(alloc, value, trail),
        Some(StepTag::Contains) => contains_of(value, trail),
    }
}

/// A list of steps.
pub fn steps_of(alloc: Global, value: &Value, trail: &Trail<'_>) -> Result<Vec<Step>, Unread>
    ensures { Gives (λ v. v.items) result (list_of spec.step_of (view value.now)) }
{
    let items = array_of(value, trail)?;
    let mut steps = Vec::with_capacity(alloc, items.len())?;
    for item in items {
        steps.push(step_of(alloc, item, &Trail::Item(trail, steps.len()))?)?;
    }
    Ok(steps)
}
