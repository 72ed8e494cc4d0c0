//! Lane layouts, rows and numbers out of the JSON of a case.
ghost use Rattle.std.specs.Prelude.{◌≡◌};
ghost use Rattle.vx_base.specs.Numbers as numbers;

use serde_json::Value;
use std::alloc::Global;
use std::io;
use vx_base::{DType, NoLedger, Nullability, PType, Res, Row, Steps};
use vx_cases::columns::{column_of, member, number, row_of};
use vx_lanes::Lanes;

/// The layout that a case says.
pub(crate) fn lanes_of(rt: &HostRuntime, value: &Value) -> io::Result<Res<Lanes>> {
    let alloc = rt.alloc();
    let lane_offsets = column_of(alloc, member(value, "lane_offsets")?)?;
    let indices = column_of(alloc, member(value, "indices")?)?;
    let values = column_of(alloc, member(value, "values")?)?;
    let len = number(value, "len")?;
    let n_lanes = number(value, "n_lanes")?;
    let offset = number(value, "offset")?;
    let dtype = DType::Primitive(PType::U16, Nullability::NonNullable);
    let mut steps = Steps::new(rt, NoLedger::new());
    Ok(Lanes::try_new(
        alloc,
        &dtype,
        len,
        n_lanes,
        offset,
        lane_offsets,
        indices,
        values,
        &mut steps,
    ))
}

/// The rows of a list; none where it is no list.
pub(crate) fn rows_of(alloc: Global, value: &Value) -> io::Result<Vec<Row>> {
    let mut rows = Vec::new(alloc);
    if let Some(values) = value.as_array() {
        for value in values {
            rows.push(row_of(alloc, value)?)?;
        }
    }
    Ok(rows)
}

/// The numbers of a list, and none for each of the others.
pub(crate) fn places_of(alloc: Global, value: &Value) -> io::Result<Vec<Option<usize>>> {
    let mut places = Vec::new(alloc);
    if let Some(values) = value.as_array() {
        for value in values {
            places.push(value.as_u64().map(|number| number as usize))?;
        }
    }
    Ok(places)
}
