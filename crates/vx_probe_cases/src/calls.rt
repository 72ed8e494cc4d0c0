//! Calls on a column.
//!
//! - `["row",i]`, `["valid",i]` and `["invalid",i]` are single reads;
//! - `["kept_row",[i]]`, `["kept_valid",[i]]` and `["kept_invalid",[i]]` are reads of one kept probe in order, with `; `
//!   between the answers;
//! - `["lent_row",[i]]` reads through the probes that it lends, and `["read_all",[i]]` the list at once;
//! - `["slot",n,i]` reads row i of the column in slot n, `["kept_slot",n,i]` does so through a kept state, and
//!   `["split_slot",n,i]` through the slots that are split off it;
//! - `["state"]` and `["kept_state"]` tell the state that is retained;
//! - `["written",i]` and `["split_written",i]` write another state, and then read a row and whether it is a value;
//! - `["slot_name",n]` is the name of a slot, and `["single_valid",i]` a read through a single state.
ghost use Rattle.vx_column.specs.Columns.{IsSound};

use serde_json::Value;
use std::alloc::Global;
use vx_base::{Ledger, Res, Row, Steps};
use vx_cases::Call;
use vx_cases::calls::text_of;
use vx_cases::columns::row_text;
use vx_column::Column;
use vx_probe::laws::{read_lent, write_retained, write_split};
use vx_probe::{ArrayProbe, EncodingProbeState, ProbeState, RepeatedArrayProbe, Slots};

fn row_answer(alloc: Global, row: Res<Row>) -> Res<String> {
    Ok(row_text(alloc, &row?)?)
}

fn truth_answer(alloc: Global, truth: Res<bool>) -> Res<String> {
    let truth = truth?;
    Ok(format!(in alloc; "{truth}")?)
}

/// A read by itself.
fn single<L: Ledger>(
    alloc: Global,
    column: &Column,
    call: &Call<'_>,
    steps: &mut Steps<L>,
) -> Res<String>
    requires { IsSound column.now }
{
    let at = call.number(1);
    let mut probe = ArrayProbe::once(column);
    match call.name {
        "row" => row_answer(alloc, probe.execute_scalar(alloc, at, steps)),
        "valid" => truth_answer(alloc, probe.execute_is_valid(alloc, at, steps)),
        _ => truth_answer(alloc, probe.execute_is_invalid(alloc, at, steps)),
    }
}

/// One read of a kept probe.
fn kept_read<L: Ledger>(
    alloc: Global,
    name: &str,
    probe: &mut RepeatedArrayProbe,
    at: usize,
    steps: &mut Steps<L>,
) -> Res<String> {
    match name {
        "kept_row" => row_answer(alloc, probe.execute_scalar(alloc, at, steps)),
        "kept_valid" => truth_answer(alloc, probe.execute_is_valid(alloc, at, steps)),
        "kept_invalid" => truth_answer(alloc, probe.execute_is_invalid(alloc, at, steps)),
        _ => row_answer(alloc, read_lent(probe, alloc, at, steps)),
    }
}

/// The numbers of a list; none where it is no list.
fn numbers_of(alloc: Global, value: &Value) -> Res<Vec<usize>> {
    let mut numbers = Vec::new(alloc);
    if let Some(values) = value.as_array() {
        for value in values {
            if let Some(number) = value.as_u64() {
                numbers.push(number as usize)?;
            }
        }
    }
    Ok(numbers)
}

/// Reads of a kept probe in order.
fn kept_reads<L: Ledger>(
    alloc: Global,
    probe: &mut RepeatedArrayProbe,
    call: &Call<'_>,
    steps: &mut Steps<L>,
) -> Res<String> {
    let indices = numbers_of(alloc, call.argument(1))?;
    let mut text = String::new(alloc);
    for (i, at) in indices.iter().enumerate() {
        if i > 0 {
            text.push_str("; ")?;
        }
        let answer = text_of(alloc, kept_read(alloc, call.name, probe, *at, steps))?;
        text.push_str(answer.as_str())?;
    }
    Ok(text)
}

/// The reads of a list at once.
fn read_all<L: Ledger>(
    alloc: Global,
    probe: &mut RepeatedArrayProbe,
    call: &Call<'_>,
    steps: &mut Steps<L>,
) -> Res<String> {
    let indices = numbers_of(alloc, call.argument(1))?;
    let answers = probe.read_all(alloc, indices.as_slice(), steps)?;
    let mut text = String::new(alloc);
    for (i, answer) in answers.iter().enumerate() {
        if i > 0 {
            text.push_str("; ")?;
        }
        match answer {
            Some(row) => text.push_str(row_text(alloc, row)?.as_str())?,
            None => text.push_str("none")?,
        }
    }
    Ok(text)
}

fn state_name(state: Option<&mut EncodingProbeState>) -> &'static str {
    match state {
        None => "none",
        Some(EncodingProbeState::Flat) => "flat",
        Some(EncodingProbeState::Chunked) => "chunked",
        Some(EncodingProbeState::Patched) => "patched",
        Some(EncodingProbeState::Excepted) => "excepted",
        Some(EncodingProbeState::Interleave) => "interleave",
    }
}

/// Row `at` of the column in a slot.
fn slot_row<L: Ledger>(
    alloc: Global,
    state: &mut ProbeState<'_>,
    call: &Call<'_>,
    steps: &mut Steps<L>,
) -> Res<String> {
    let child = if call.name == "split_slot" {
        let (_kept, mut children) = state.split();
        children.slot(call.number(1))?
    } else {
        state.slot(call.number(1))?
    };
    match child {
        Some(mut probe) => row_answer(alloc, probe.execute_scalar(alloc, call.number(2), steps)),
        None => Ok(String::from_str(alloc, "none")?),
    }
}

/// A row, whether it is a value, and the state that is kept, after another state was written.
fn written<L: Ledger>(
    alloc: Global,
    probe: &mut RepeatedArrayProbe,
    call: &Call<'_>,
    steps: &mut Steps<L>,
) -> Res<String> {
    let at = call.number(1);
    if call.name == "written" {
        write_retained(probe, EncodingProbeState::Interleave);
    } else {
        write_split(probe, EncodingProbeState::Patched);
    }
    let row = text_of(
        alloc,
        row_answer(alloc, probe.execute_scalar(alloc, at, steps)),
    )?;
    let valid = probe.state().is_valid(alloc, at, steps);
    let valid = text_of(alloc, truth_answer(alloc, valid))?;
    let state = state_name(probe.state().retained());
    Ok(format!(in alloc; "{row}, {valid}, {state}")?)
}

/// What a call on a kept probe answers.
fn kept<L: Ledger>(
    alloc: Global,
    column: &Column,
    call: &Call<'_>,
    steps: &mut Steps<L>,
) -> Res<String>
    requires { IsSound column.now }
{
    let mut probe = RepeatedArrayProbe::new(column.share(alloc)?);
    match call.name {
        "read_all" => read_all(alloc, &mut probe, call, steps),
        "kept_slot" | "split_slot" => slot_row(alloc, &mut probe.state(), call, steps),
        "kept_state" => Ok(String::from_str(alloc, state_name(probe.state().retained()))?),
        "written" | "split_written" => written(alloc, &mut probe, call, steps),
        _ => kept_reads(alloc, &mut probe, call, steps),
    }
}

/// What a call answers.
pub(crate) fn answer<L: Ledger>(
    alloc: Global,
    column: &Column,
    call: &Call<'_>,
    steps: &mut Steps<L>,
) -> Res<String>
    requires { IsSound column.now }
{
    match call.name {
        "row" | "valid" | "invalid" => single(alloc, column, call, steps),
        "slot" => slot_row(alloc, &mut ProbeState::once(column), call, steps),
        "state" => {
            let state = state_name(ProbeState::once(column).retained());
            Ok(String::from_str(alloc, state)?)
        }
        "single_valid" => {
            let mut state = ProbeState::once(column);
            truth_answer(alloc, state.is_valid(alloc, call.number(1), steps))
        }
        "slot_name" => {
            let name = column.slot_name(alloc, call.number(1))?;
            Ok(String::from_str(alloc, name.as_str())?)
        }
        _ => kept(alloc, column, call, steps),
    }
}
