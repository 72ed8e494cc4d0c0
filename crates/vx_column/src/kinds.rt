//! What has to hold of the parts of an assembled column, as tests.
ghost use Rattle.std.specs.Prelude.{◌≡◌, ◌↔◌, ◌<◌, ◌-◌, ◌^◌, [], length, map, min, IfOk, IsOkUnless, IsTrue, All};
ghost use Rattle.vx_rows.specs.declared.error.ColumnError.TheVariants.{Malformed, Unsupported};
ghost use Rattle.vx_rows.specs.Types.{AlikeTypes};
ghost use Rattle.vx_base.specs.Numbers as numbers;
ghost use Rattle.vx_base.specs.Rules.{first_broken};
ghost use Rattle.vx_job.specs.Kinds as kinds;
ghost use Rattle.vx_job.specs.Faults.{value_rules, all_bool_or_integer};
ghost use Rattle.vx_column.specs.Columns.{IsSound, type_of, len_of};

use crate::column::Column;
use std::alloc::Global;
use vx_base::{ColumnError, DType, Nullability, Path, Res, Rule};
use vx_patches::PatchIndex;

/// The refusal of parts that break a rule, and are no part of others.
pub(crate) fn malformed(alloc: Global, rule: Rule) -> ColumnError
    ensures { result ≡ Malformed [] rule }
{
    ColumnError::Malformed {
        at: Path::empty(alloc),
        rule,
    }
}

/// The refusal of parts of a type that isn't supported, and that are no part of others.
pub(crate) fn unsupported(alloc: Global) -> ColumnError
    ensures { result ≡ Unsupported [] }
{
    ColumnError::Unsupported {
        at: Path::empty(alloc),
    }
}

/// Whether the type is of integers.
pub(crate) fn is_integer(dtype: &DType) -> bool
    ensures { result ≡ numbers.is_integer dtype.now }
{
    matches!(dtype, DType::Primitive(_, _))
}

/// Whether the type is of booleans or integers.
pub(crate) fn is_bool_or_integer(dtype: &DType) -> bool
    ensures { result ≡ kinds.is_bool_or_integer dtype.now }
{
    matches!(dtype, DType::Bool(_) | DType::Primitive(_, _))
}

fn is_nullable(dtype: &DType) -> bool
    ensures { result ≡ kinds.is_nullable dtype.now }
{
    dtype.nullability().is_nullable()
}

/// Whether each column is of booleans or integers.
pub(crate) fn are_bools_or_integers(columns: &[Column]) -> bool
    ensures { result ≡ all_bool_or_integer (map type_of columns.now) }
{
    for column in columns {
        if !is_bool_or_integer(column.dtype()) {
            return false;
        }
    }
    true
}

/// Whether each column's type is the first's up to nullability.
pub(crate) fn are_alike(columns: &[Column]) -> bool
    ensures { IsTrue result ↔ kinds.AreAlike (map type_of columns.now) }
{
    match columns.split_first() {
        Some((first, others)) => all_alike(others, first.dtype()),
        None => true,
    }
}

/// Whether each column's type is this one up to nullability.
fn all_alike(columns: &[Column], dtype: &DType) -> bool
    ensures { IsTrue result ↔ All (λ column. AlikeTypes (type_of column) dtype.now) columns.now }
{
    for column in columns {
        if !column.dtype().eq_ignore_nullability(dtype) {
            return false;
        }
    }
    true
}

/// The first column's type, nullable where any column's is.
pub(crate) fn interleaved_type(columns: &[Column]) -> Res<DType>
    requires { 0 < length columns.now }
    ensures ok { IfOk result (λ dtype. dtype ≡ kinds.interleaved_type (map type_of columns.now)) }
    ensures err { IsOkUnless result ColumnError.OutOfMemory }
{
    let dtype = columns[0].dtype().copy()?;
    Ok(dtype.with_nullability(some_nullability(columns)))
}

fn some_nullability(columns: &[Column]) -> Nullability
    ensures { result ≡ kinds.nullability_by (kinds.some_nullable (map type_of columns.now)) }
{
    for column in columns {
        if is_nullable(column.dtype()) {
            return Nullability::Nullable;
        }
    }
    Nullability::NonNullable
}

/// The lengths of the columns in order.
pub(crate) fn lens_of(alloc: Global, columns: &[Column]) -> Res<Vec<usize>>
    requires { All IsSound columns.now }
    ensures ok { IfOk result (λ lens. lens.items ≡ map len_of columns.now) }
    ensures err { IsOkUnless result ColumnError.OutOfMemory }
{
    let mut lens = Vec::new(alloc);
    for column in columns {
        lens.push(column.len())?;
    }
    Ok(lens)
}

/// The first rule that the values of exceptions break; `alike` tells whether their type is the base's up to nullability.
#[tactic(auto, unfolding(vx_base::specs::Rules::first_broken))]
pub(crate) fn value_fault(
    alike: bool,
    index: &PatchIndex,
    base: &Column,
    values: &Column,
) -> Option<Rule>
    requires { IsSound values.now }
    ensures { result ≡ first_broken (value_rules index.now.indices alike (type_of base.now) (type_of values.now) (len_of values.now)) }
{
    if values.len() != index.num_patches() {
        return Some(Rule::ValueCount);
    }
    if !alike {
        return Some(Rule::ValueType);
    }
    if is_nullable(values.dtype()) && !is_nullable(base.dtype()) {
        return Some(Rule::ValueNullable);
    }
    None
}
