//! Selectors out of the JSON of a case.
use crate::selectors::AskedSelectors;
use serde_json::Value;
use std::alloc::Global;
use std::io;
use vx_base::Res;
use vx_cases::calls::text_of;
use vx_cases::columns::{column_of, member};
use vx_interleave::{Selectors, check_selectors};

/// The selectors that a case says.
pub(crate) fn selectors_of(alloc: Global, value: &Value) -> io::Result<Res<AskedSelectors>> {
    let lens = lens_of(alloc, member(value, "lens")?)?;
    let array_indices = column_of(alloc, member(value, "array_indices")?)?;
    let row_indices = column_of(alloc, member(value, "row_indices")?)?;
    let selectors = Selectors::try_new(alloc, array_indices, row_indices, lens.as_slice());
    Ok(asked(selectors))
}

fn asked(selectors: Res<Selectors>) -> Res<AskedSelectors> {
    Ok(AskedSelectors {
        selectors: selectors?,
    })
}

/// What tells of the parts without making anything of them.
pub(crate) fn check(alloc: Global, value: &Value) -> io::Result<String> {
    let lens = lens_of(alloc, member(value, "lens")?)?;
    let array_indices = column_of(alloc, member(value, "array_indices")?)?;
    let row_indices = column_of(alloc, member(value, "row_indices")?)?;
    let checked = check_selectors(alloc, &array_indices, &row_indices, lens.as_slice());
    Ok(text_of(alloc, told(alloc, checked))?)
}

fn told(alloc: Global, checked: Res<()>) -> Res<String> {
    checked?;
    Ok(String::from_str(alloc, "no rule is broken")?)
}

fn lens_of(alloc: Global, value: &Value) -> io::Result<Vec<usize>> {
    let Some(numbers) = value.as_array() else {
        return Err(io::Error::other("the lengths are no list"));
    };
    let mut lens = Vec::new(alloc);
    for number in numbers {
        match number.as_u64() {
            Some(len) => lens.push(len as usize)?,
            None => return Err(io::Error::other("a length is no number")),
        }
    }
    Ok(lens)
}
