//! Which rows of which chunks runs name.
ghost use Rattle.std.specs.Prelude.{◌≡◌, ◌≢◌, ◌+◌, ◌-◌, ◌*◌, ◌<◌, ◌≤◌, ◌^◌, ◌∷◌, ◌++◌, [], ℕ, List, All, IfOk, IfErr, OnOk, IsOkUnless, Contains, MatchOption, true, cond, count_by, get_or, length, map, slice_set, sum_by, take, vec_len};
ghost use Rattle.std.specs.List.{AllZip, flat_map, range_with_len};
ghost use Rattle.vx_search.specs.Places.{search_bound};
ghost use Rattle.vx_chunks.specs.Bounds.{total};
ghost use Rattle.vx_chunk_plans.specs.Deals.{dealt, in_turn};
ghost use Rattle.vx_chunk_plans.specs.Runs.{run_rows, piece_rows, in_runs, OrdersWithin, IsRunOf, AreRunsOf, run_total, has_rows, IsInside, RunCause, SumCause, RunsCause, part_row, IsPartOf};

use std::alloc::Global;
use vx_base::{ColumnError, Ledger, Res, Seq, Steps};
use vx_chunks::Boundaries;

/// Which rows of each chunk runs name, and in which order.
pub struct RunsPlan {
    /// The runs of each chunk, each of a start there and a length, in the order in which they come.
    pub pieces: Seq<Seq<(usize, usize)>>,
    /// The answers as runs, each of a start and a length, of the rows of all pieces, end to end. None where those are the
    /// answers as they stand.
    pub order: Option<Seq<(usize, usize)>>,
}

impl Drop for RunsPlan {
    fn drop(self) {
        let RunsPlan {
            pieces: _,
            order: _,
        } = self;
    }
}

/// A run of a chunk: the chunk, and a start there and a length.
type Part = (usize, (usize, usize));

/// Which rows of which chunks the runs name.
pub(crate) fn runs_plan<L: Ledger>(
    boundaries: &Boundaries,
    alloc: Global,
    runs: &[(usize, usize)],
    len: usize,
    steps: &mut Steps<L>,
) -> Res<RunsPlan>
    ensures ok { IfOk result (λ plan. in_runs (piece_rows boundaries.now plan.pieces) plan.order ≡ run_rows runs.now) }
    ensures within { IfOk result (λ plan. AllZip AreRunsOf boundaries.now plan.pieces) }
    ensures order { IfOk result (λ plan. OrdersWithin (length (piece_rows boundaries.now plan.pieces)) plan.order) }
    ensures sum { OnOk result (run_total runs.now ≡ len) }
    ensures inside { OnOk result (All (IsInside (total boundaries.now)) runs.now) }
    ensures err { IfErr result (RunsCause (total boundaries.now) len runs.now) }
    ensures rise { steps.new ≤ steps.old + count_by has_rows runs.now * search_bound (length boundaries.now + 1) }
    ensures monotone { steps.old ≤ steps.new }
{
    check_sum(runs, len)?;
    check_runs(runs, boundaries.len())?;
    let parts = parts_of(boundaries, alloc, runs, steps)?;
    plan_of(boundaries, alloc, parts.as_slice())
}

/// Refuses `LengthMismatch` where the sum of the lengths isn't the declared one.
fn check_sum(runs: &[(usize, usize)], len: usize) -> Res<()>
    ensures ok { OnOk result (run_total runs.now ≡ len) }
    ensures err { IfErr result (SumCause len runs.now) }
{
    match sum_of(runs) {
        Some(sum) => {
            if sum == len {
                return Ok(());
            }
            Err(ColumnError::LengthMismatch {
                expected: len,
                found: sum,
            })
        }
        None => Err(ColumnError::LengthMismatch {
            expected: len,
            found: usize::MAX,
        }),
    }
}

/// The sum of the lengths, or None where it is no `usize`.
fn sum_of(runs: &[(usize, usize)]) -> Option<usize>
    ensures { MatchOption result (2 ^ 64 ≤ run_total runs.now) (λ sum. sum ≡ run_total runs.now) }
{
    let mut sum = 0usize;
    for run in runs {
        let Some(next) = sum.checked_add(run.1) else {
            return None;
        };
        sum = next;
    }
    Some(sum)
}

/// Refuses `OutOfBounds` where a run that isn't empty ends behind the rows.
fn check_runs(runs: &[(usize, usize)], len: usize) -> Res<()>
    ensures inside { OnOk result (All (IsInside len) runs.now) }
    ensures err { IfErr result (λ e. (run : ℕ × ℕ) × (Contains runs.now run × RunCause len run e)) }
{
    for run in runs {
        check_run(run.0, run.1, len)?;
    }
    Ok(())
}

fn check_run(start: usize, rows: usize, len: usize) -> Res<()>
    ensures inside { OnOk result (IsInside len (start, rows)) }
    ensures err { IfErr result (RunCause len (start, rows)) }
{
    if rows == 0 {
        return Ok(());
    }
    let last = start.saturating_add(rows - 1);
    if last >= len {
        return Err(ColumnError::OutOfBounds { index: last, len });
    }
    Ok(())
}

/// The runs cut at the ends of chunks.
fn parts_of<L: Ledger>(
    boundaries: &Boundaries,
    alloc: Global,
    runs: &[(usize, usize)],
    steps: &mut Steps<L>,
) -> Res<Vec<Part>>
    requires { All (IsInside (total boundaries.now)) runs.now }
    ensures ok { IfOk result (λ parts. flat_map (part_row boundaries.now) parts.items ≡ run_rows runs.now) }
    ensures there { IfOk result (λ parts. All (IsPartOf boundaries.now) parts.items) }
    ensures err { IsOkUnless result ColumnError.OutOfMemory }
    ensures rise { steps.new ≤ steps.old + count_by has_rows runs.now * search_bound (length boundaries.now + 1) }
    ensures monotone { steps.old ≤ steps.new }
{
    let mut parts = Vec::new(alloc);
    for run in runs {
        push_run(boundaries, &mut parts, run.0, run.1, steps)?;
    }
    Ok(parts)
}

/// Adds the parts of a run.
fn push_run<L: Ledger>(
    boundaries: &Boundaries,
    parts: &mut Vec<Part>,
    start: usize,
    count: usize,
    steps: &mut Steps<L>,
) -> Res<()>
    requires { IsInside (total boundaries.now) (start, count) }
    ensures ok { OnOk result (flat_map (part_row boundaries.now) parts.new.items
        ≡ flat_map (part_row boundaries.now) parts.old.items ++ range_with_len start count) }
    ensures there { All (IsPartOf boundaries.now) parts.old.items → OnOk result (All (IsPartOf boundaries.now) parts.new.items) }
    ensures err { IsOkUnless result ColumnError.OutOfMemory }
    ensures rise { steps.new ≤ steps.old + cond (has_rows (start, count)) 1 0 * search_bound (length boundaries.now + 1) }
    ensures monotone { steps.old ≤ steps.new }
{
    if count == 0 {
        return Ok(());
    }
    let (chunk, place) = boundaries.find_chunk_idx(start, steps);
    cut(boundaries, parts, chunk, place, count)
}

/// Adds the parts of `count` rows from a place in a chunk on.
fn cut(
    boundaries: &Boundaries,
    parts: &mut Vec<Part>,
    chunk: usize,
    place: usize,
    count: usize,
) -> Res<()>
    requires place { place ≤ get_or boundaries.now chunk 0 }
    requires inside { total (take chunk boundaries.now) + place + count ≤ total boundaries.now }
    ensures ok { OnOk result (flat_map (part_row boundaries.now) parts.new.items
        ≡ flat_map (part_row boundaries.now) parts.old.items ++ range_with_len (total (take chunk boundaries.now) + place) count) }
    ensures there { All (IsPartOf boundaries.now) parts.old.items → OnOk result (All (IsPartOf boundaries.now) parts.new.items) }
    ensures err { IsOkUnless result ColumnError.OutOfMemory }
{
    // The number of each chunk, and the one behind it, are numbers.
    let _ = boundaries.nchunks();
    let mut chunk = chunk;
    let mut place = place;
    let mut left = count;
    while left > 0 {
        let taken = left.min(boundaries.chunk_len(chunk) - place);
        push_part(parts, chunk, place, taken)?;
        left -= taken;
        place = 0;
        chunk += 1;
    }
    Ok(())
}

/// Adds a part, unless it is empty.
#[tactic(auto, using(crate::proofs::Cutting::part_pushed, crate::proofs::Cutting::part_none))]
fn push_part(parts: &mut Vec<Part>, chunk: usize, place: usize, count: usize) -> Res<()>
    ensures ok { (lens : List ℕ) → OnOk result (flat_map (part_row lens) parts.new.items
        ≡ flat_map (part_row lens) parts.old.items ++ range_with_len (total (take chunk lens) + place) count) }
    ensures there { (lens : List ℕ) → chunk < length lens → place + count ≤ get_or lens chunk 0 →
        All (IsPartOf lens) parts.old.items → OnOk result (All (IsPartOf lens) parts.new.items) }
    ensures err { IsOkUnless result ColumnError.OutOfMemory }
{
    if count > 0 {
        parts.push((chunk, (place, count)))?;
    }
    Ok(())
}

/// The plan of parts.
fn plan_of(boundaries: &Boundaries, alloc: Global, parts: &[Part]) -> Res<RunsPlan>
    requires there { All (IsPartOf boundaries.now) parts.now }
    requires fits { length (flat_map (part_row boundaries.now) parts.now) < 2 ^ 64 }
    ensures ok { IfOk result (λ plan. in_runs (piece_rows boundaries.now plan.pieces) plan.order
        ≡ flat_map (part_row boundaries.now) parts.now) }
    ensures within { IfOk result (λ plan. AllZip AreRunsOf boundaries.now plan.pieces) }
    ensures order { IfOk result (λ plan. OrdersWithin (length (piece_rows boundaries.now plan.pieces)) plan.order) }
    ensures err { IsOkUnless result ColumnError.OutOfMemory }
{
    let pieces = deal(alloc, parts, boundaries.nchunks())?;
    let order = order_of(alloc, parts, pieces.as_slice())?;
    Ok(RunsPlan {
        pieces: Seq::from_vec(pieces),
        order,
    })
}

/// The runs of the parts by chunk.
fn deal(alloc: Global, parts: &[Part], count: usize) -> Res<Vec<Seq<(usize, usize)>>>
    requires { All (λ s. s.0 < count) parts.now }
    ensures ok { IfOk result (λ pieces. pieces.items ≡ dealt 0 count parts.now) }
    ensures err { IsOkUnless result ColumnError.OutOfMemory }
{
    let mut pieces = empty(alloc, count)?;
    for (chunk, run) in parts {
        put(&mut pieces, *chunk, *run)?;
    }
    Ok(pieces)
}

/// As many lists without runs.
fn empty(alloc: Global, count: usize) -> Res<Vec<Seq<(usize, usize)>>>
    ensures ok { IfOk result (λ pieces. pieces.items ≡ dealt 0 count []) }
    ensures err { IsOkUnless result ColumnError.OutOfMemory }
{
    let mut pieces = Vec::new(alloc);
    for _ in 0..count {
        pieces.push(Seq::new(alloc))?;
    }
    Ok(pieces)
}

/// Adds a run at the end of those of its chunk.
fn put(pieces: &mut Vec<Seq<(usize, usize)>>, chunk: usize, run: (usize, usize)) -> Res<()>
    requires { chunk < vec_len pieces.old }
    ensures ok { OnOk result (pieces.new.items
        ≡ slice_set pieces.old.items chunk (get_or pieces.old.items chunk [] ++ run ∷ [])) }
    ensures err { IsOkUnless result ColumnError.OutOfMemory }
{
    let piece = &mut pieces[chunk];
    piece.push(run)?;
    Ok(())
}

/// Where the rows of each part stand among those of all pieces, unless they are in the order of the parts.
fn order_of(
    alloc: Global,
    parts: &[Part],
    pieces: &[Seq<(usize, usize)>],
) -> Res<Option<Seq<(usize, usize)>>>
    requires dealt { pieces.now ≡ dealt 0 (length pieces.now) parts.now }
    requires below { All (λ s. s.0 < length pieces.now) parts.now }
    requires fits { sum_by (λ s. s.1.1) parts.now < 2 ^ 64 }
    ensures ok { (lens : List ℕ) → length lens ≡ length pieces.now →
        IfOk result (λ order. in_runs (piece_rows lens pieces.now) order ≡ flat_map (part_row lens) parts.now) }
    ensures within { (lens : List ℕ) → length lens ≡ length pieces.now →
        IfOk result (OrdersWithin (length (piece_rows lens pieces.now))) }
    ensures err { IsOkUnless result ColumnError.OutOfMemory }
{
    if in_turn(parts) {
        return Ok(None);
    }
    let order = restored(alloc, parts, pieces)?;
    Ok(Some(Seq::from_vec(order)))
}

/// Whether no part's chunk comes before that of the part before it.
fn in_turn(parts: &[Part]) -> bool
    ensures { result ≡ in_turn 0 parts.now }
{
    let mut last = 0;
    for (chunk, _) in parts {
        if *chunk < last {
            return false;
        }
        last = *chunk;
    }
    true
}

/// Where the rows of each part stand among those of all pieces, end to end.
fn restored(
    alloc: Global,
    parts: &[Part],
    pieces: &[Seq<(usize, usize)>],
) -> Res<Vec<(usize, usize)>>
    requires dealt { pieces.now ≡ dealt 0 (length pieces.now) parts.now }
    requires below { All (λ s. s.0 < length pieces.now) parts.now }
    requires fits { sum_by (λ s. s.1.1) parts.now < 2 ^ 64 }
    ensures ok { (lens : List ℕ) → length lens ≡ length pieces.now →
        IfOk result (λ order. in_runs (piece_rows lens pieces.now) (Some order.items) ≡ flat_map (part_row lens) parts.now) }
    ensures within { (lens : List ℕ) → length lens ≡ length pieces.now →
        IfOk result (λ order. OrdersWithin (length (piece_rows lens pieces.now)) (Some order.items)) }
    ensures err { IsOkUnless result ColumnError.OutOfMemory }
{
    let mut next = starts(alloc, pieces)?;
    let mut order = Vec::new(alloc);
    for (chunk, (_, count)) in parts {
        let place = place_next(&mut next, *chunk, *count);
        order.push((place, *count))?;
    }
    Ok(order)
}

/// Where the rows of each piece begin among those of all, end to end.
fn starts(alloc: Global, pieces: &[Seq<(usize, usize)>]) -> Res<Vec<usize>>
    requires { total (map run_total pieces.now) < 2 ^ 64 }
    ensures long { IfOk result (λ starts. length starts.items ≡ length pieces.now) }
    ensures each { IfOk result (λ starts. (k : ℕ) → k < length pieces.now →
        get_or starts.items k 0 ≡ total (take k (map run_total pieces.now))) }
    ensures err { IsOkUnless result ColumnError.OutOfMemory }
{
    let mut starts = Vec::new(alloc);
    let mut sum = 0;
    for piece in pieces {
        starts.push(sum)?;
        sum += rows_in(piece.as_slice());
    }
    Ok(starts)
}

/// How many rows runs have.
fn rows_in(runs: &[(usize, usize)]) -> usize
    requires { sum_by (λ run. run.1) runs.now < 2 ^ 64 }
    ensures { result ≡ sum_by (λ run. run.1) runs.now }
{
    runs.iter().map(|run| run.1).sum()
}

/// The place of so many rows, which is the next one of their chunk.
fn place_next(next: &mut Vec<usize>, chunk: usize, count: usize) -> usize
    requires below { chunk < vec_len next.old }
    requires fits { get_or next.old.items chunk 0 + count < 2 ^ 64 }
    ensures place { result ≡ get_or next.old.items chunk 0 }
    ensures next { next.new.items ≡ slice_set next.old.items chunk (get_or next.old.items chunk 0 + count) }
{
    let place = next[chunk];
    next[chunk] = place + count;
    place
}
