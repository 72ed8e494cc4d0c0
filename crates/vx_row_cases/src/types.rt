//! Calls on types.
use crate::reading::dtype_of;
use serde_json::Value;
use std::alloc::{AllocError, Global};
use vx_base::dtype::same_type;
use vx_base::{DType, DecimalDType, Fields, Ledger, Nullability, Res, Steps};
use vx_cases::{Asked, Call};

/// Whom calls on types ask.
#[derive(Drop)]
pub(crate) struct Types;

/// Whether a row may be null, and whether the rows hold rows.
fn shape_of(alloc: Global, dtype: &DType) -> Result<String, AllocError> {
    format!(in alloc; "{:?}, nested {}", dtype.nullability(), dtype.is_nested())
}

/// The names of the fields of a struct type.
fn names(alloc: Global, dtype: &DType) -> Result<String, AllocError> {
    match dtype {
        DType::Struct(fields, _) => names_of(alloc, fields.get()),
        _ => String::from_str(alloc, "no struct"),
    }
}

fn names_of(alloc: Global, fields: &Fields) -> Result<String, AllocError> {
    let mut text = String::new(alloc);
    for (i, (name, _)) in fields.list().iter().enumerate() {
        if i > 0 {
            text.push(' ')?;
        }
        text.push_str(name.as_str())?;
    }
    Ok(text)
}

/// The numbers of a decimal type, or whether it holds each of these numbers.
fn decimal(alloc: Global, call: &Call<'_>) -> Result<String, AllocError> {
    let precision = u8::try_from(call.number(1)).unwrap_or(0);
    let scale = i8::try_from(call.number(2)).unwrap_or(0);
    let Some(decimal) = DecimalDType::new(precision, scale) else {
        return String::from_str(alloc, "none");
    };
    if call.name == "holds" {
        return held(alloc, decimal, call.argument(3));
    }
    format!(in alloc; "{} {}", decimal.precision(), decimal.scale())
}

fn held(alloc: Global, decimal: DecimalDType, value: &Value) -> Result<String, AllocError> {
    let mut text = String::new(alloc);
    if let Some(numbers) = value.as_array() {
        for (i, number) in numbers.iter().enumerate() {
            if i > 0 {
                text.push(' ')?;
            }
            write!(text, "{}", holds(decimal, number))?;
        }
    }
    Ok(text)
}

fn holds(decimal: DecimalDType, number: &Value) -> bool {
    match number.as_i64() {
        Some(number) => decimal.holds(number as i128),
        None => false,
    }
}

/// The least and the greatest number of a type of integers.
fn range(alloc: Global, dtype: &DType) -> Result<String, AllocError> {
    match dtype {
        DType::Primitive(ptype, _) => format!(in alloc; "{} to {}", ptype.min(), ptype.max()),
        _ => String::from_str(alloc, "no integers"),
    }
}

fn two_types(alloc: Global, call: &Call<'_>) -> Res<String> {
    let dtype = dtype_of(alloc, call.argument(1))?;
    let other = dtype_of(alloc, call.argument(2))?;
    let answer = match call.name {
        "same_type" => same_type(&dtype, &other),
        _ => dtype.eq_ignore_nullability(&other),
    };
    Ok(format!(in alloc; "{answer}")?)
}

fn copied(alloc: Global, dtype: &DType) -> Res<String> {
    let copy = dtype.copy()?;
    Ok(format!(in alloc; "{}", same_type(&copy, dtype))?)
}

/// What `with_nullability` gives.
fn changed(alloc: Global, dtype: DType, nullable: bool) -> Result<String, AllocError> {
    let nullability = if nullable {
        Nullability::Nullable
    } else {
        Nullability::NonNullable
    };
    shape_of(alloc, &dtype.with_nullability(nullability))
}

fn one_type(alloc: Global, call: &Call<'_>) -> Res<String> {
    let dtype = dtype_of(alloc, call.argument(1))?;
    match call.name {
        "shape" => Ok(shape_of(alloc, &dtype)?),
        "names" => Ok(names(alloc, &dtype)?),
        "range" => Ok(range(alloc, &dtype)?),
        "copy" => copied(alloc, &dtype),
        "with_nullability" => {
            let nullable = call.argument(2).as_bool().unwrap_or(false);
            Ok(changed(alloc, dtype, nullable)?)
        }
        _ => Ok(String::from_str(alloc, "no call of types")?),
    }
}

impl Asked for Types {
    fn shape(&self, alloc: Global) -> Result<String, AllocError> {
        String::from_str(alloc, "types")
    }

    fn makes(&self, _call: &Call<'_>) -> bool {
        false
    }

    fn made<L: Ledger>(
        &self,
        _alloc: Global,
        _call: &Call<'_>,
        _steps: &mut Steps<L>,
    ) -> Res<Option<Self>> {
        Ok(None)
    }

    fn answer<L: Ledger>(
        &self,
        alloc: Global,
        call: &Call<'_>,
        _steps: &mut Steps<L>,
    ) -> Res<String> {
        match call.name {
            "decimal" | "holds" => Ok(decimal(alloc, call)?),
            "same_type" | "eq_ignore_nullability" => two_types(alloc, call),
            _ => one_type(alloc, call),
        }
    }
}
