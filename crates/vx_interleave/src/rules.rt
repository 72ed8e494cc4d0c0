//! The rules that selectors keep.
ghost use Rattle.std.specs.Prelude.{◌≡◌, ◌&&◌, Some, IsTrue};
ghost use Rattle.vx_base.specs.Numbers as spec;
ghost use Rattle.vx_base.specs.Checks as checks;
ghost use Rattle.vx_interleave.specs.Rules as rules;

use vx_base::checks::{all_within, selectors_within};
use vx_base::{FlatColumn, Rule};

/// Whether both selectors are unsigned numbers without nulls.
fn are_numbers(array_indices: &FlatColumn, row_indices: &FlatColumn) -> bool
    ensures { result ≡ (spec.is_unsigned array_indices.now.dtype && spec.is_unsigned row_indices.now.dtype) }
{
    array_indices.is_unsigned() && row_indices.is_unsigned()
}

/// Whether each array number is below the number of values.
fn names_values(array_indices: &FlatColumn, values: usize) -> bool
    requires { IsTrue (spec.is_unsigned array_indices.now.dtype) }
    ensures { result ≡ checks.all_within 0 (Some values) (spec.numbers_of array_indices.now.rows) }
{
    all_within(array_indices, 0, Some(values))
}

/// The first rule that selectors of values of these lengths break.
#[tactic(auto, unfolding(vx_base::specs::Rules::first_broken))]
pub(crate) fn selector_fault(
    array_indices: &FlatColumn,
    row_indices: &FlatColumn,
    lens: &[usize],
) -> Option<Rule>
    ensures { result ≡ rules.selector_fault array_indices.now row_indices.now lens.now }
{
    if !are_numbers(array_indices, row_indices) {
        Some(Rule::SelectorType)
    } else if array_indices.len() != row_indices.len() {
        Some(Rule::SelectorLengths)
    } else if !names_values(array_indices, lens.len()) {
        Some(Rule::SelectorArray)
    } else if !selectors_within(array_indices, row_indices, lens) {
        Some(Rule::SelectorRow)
    } else {
        None
    }
}
