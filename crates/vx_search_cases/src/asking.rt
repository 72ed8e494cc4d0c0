//! Calls on a searcher, for a value.
ghost use Rattle.std.specs.Prelude.{length};
ghost use Rattle.std.specs.List.Sorted.{IsNonDecreasingBy};
ghost use Rattle.std.specs.Ordering.{ordering_index};

use crate::closures::{place_of_index, refused};
use crate::sorted::is_sorted_for;
use std::alloc::Global;
use vx_base::{Ledger, NoLedger, Res, Steps};
use vx_cases::Call;
use vx_search::{SearchSorted, SearchSortedSide, gallop_lower_bound, partition_point_counted};

/// The side of this name.
pub(crate) fn side_of(call: &Call<'_>, at: usize) -> SearchSortedSide {
    match call.argument(at).as_str() {
        Some("right") => SearchSortedSide::Right,
        _ => SearchSortedSide::Left,
    }
}

/// What is answered where a call's condition doesn't hold.
pub(crate) fn not_allowed(alloc: Global) -> Res<String> {
    Ok(String::from_str(alloc, "not allowed")?)
}

/// What the call answers: those of `answer_sorted`, or
///
/// - `["len"]`, the number of elements;
/// - `["compare",V,i]`, how element i stands to the value, and `["compared",V,i]`, whether it is less, not greater, greater
///   and not less;
/// - `["by_index",V,i]` and `["by_refusal"]`, by closures that know the index, and that refuse.
pub(crate) fn answer_of<S: SearchSorted<V>, V, L: Ledger>(
    rt: &HostRuntime,
    seq: &mut S,
    value: &V,
    call: &Call<'_>,
    steps: &mut Steps<L>,
) -> Res<String> {
    let alloc = rt.alloc();
    match call.name {
        "len" => Ok(format!(in alloc; "{}", seq.index_len())?),
        "compare" => compare(alloc, seq, value, call.number(2), steps),
        "compared" => compared(alloc, seq, value, call.number(2), steps),
        "by_index" => by_index(alloc, seq, call.number(2), steps),
        "by_refusal" => Ok(format!(in alloc; "{}", refused(seq, steps)?)?),
        _ => {
            let mut free = Steps::new(rt, NoLedger::new());
            if !is_sorted_for(seq, value, &mut free)? {
                return not_allowed(alloc);
            }
            answer_sorted(alloc, seq, value, call, steps)
        }
    }
}

/// What the call answers on a sequence that is sorted:
///
/// - `["search",V,SIDE]`, the value's place;
/// - `["gallop",V,start]`, the first place from `start` on that isn't less;
/// - `["part",V,start,end]`, that within a range.
fn answer_sorted<S: SearchSorted<V>, V, L: Ledger>(
    alloc: Global,
    seq: &mut S,
    value: &V,
    call: &Call<'_>,
    steps: &mut Steps<L>,
) -> Res<String>
    requires { IsNonDecreasingBy (λ x. ordering_index (S.stands x value.now)) (S.sequence seq.old) }
{
    let start = call.number(2);
    let end = call.number(3);
    match call.name {
        "search" => {
            let place = seq.search_sorted(value, side_of(call, 2), steps)?;
            Ok(format!(in alloc; "{place}")?)
        }
        "gallop" if start <= seq.index_len() => {
            let place = gallop_lower_bound(seq, start, value, steps)?;
            Ok(format!(in alloc; "{place}")?)
        }
        "part" if start <= end && end <= seq.index_len() => {
            let place = partition_point_counted(seq, start..end, value, steps)?;
            Ok(format!(in alloc; "{place}")?)
        }
        _ => not_allowed(alloc),
    }
}

fn compare<S: SearchSorted<V>, V, L: Ledger>(
    alloc: Global,
    seq: &mut S,
    value: &V,
    idx: usize,
    steps: &mut Steps<L>,
) -> Res<String> {
    if idx >= seq.index_len() {
        return not_allowed(alloc);
    }
    match seq.index_cmp(idx, value, steps)? {
        Some(order) => Ok(format!(in alloc; "{order:?}")?),
        None => Ok(String::from_str(alloc, "none")?),
    }
}

fn compared<S: SearchSorted<V>, V, L: Ledger>(
    alloc: Global,
    seq: &mut S,
    value: &V,
    idx: usize,
    steps: &mut Steps<L>,
) -> Res<String> {
    if idx >= seq.index_len() {
        return not_allowed(alloc);
    }
    let lt = seq.index_lt(idx, value, steps)?;
    let le = seq.index_le(idx, value, steps)?;
    let gt = seq.index_gt(idx, value, steps)?;
    let ge = seq.index_ge(idx, value, steps)?;
    Ok(format!(in alloc; "{lt} {le} {gt} {ge}")?)
}

fn by_index<S: SearchSorted<V>, V, L: Ledger>(
    alloc: Global,
    seq: &mut S,
    index: usize,
    steps: &mut Steps<L>,
) -> Res<String> {
    if index >= seq.index_len() {
        return not_allowed(alloc);
    }
    let place = place_of_index(seq, index, steps)?;
    Ok(format!(in alloc; "{place}")?)
}
