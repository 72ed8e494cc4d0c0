//! Which rows of which chunks a take names.
ghost use Rattle.std.specs.Prelude.{◌≡◌, ◌+◌, ◌*◌, ◌<◌, ◌≤◌, ◌^◌, ◌∷◌, ◌++◌, ◌&&◌, [], ℕ, List, All, IfOk, IfErr, OnOk, IsOkUnless, true, cond, count_by, get_or, is_some, length, map, slice_set, take, vec_len};
ghost use Rattle.std.specs.List.{AllZip, list_all};
ghost use Rattle.vx_search.specs.Places.{search_bound};
ghost use Rattle.vx_chunks.specs.Bounds.{total};
ghost use Rattle.vx_chunk_plans.specs.Deals.{dealt, in_turn, present};
ghost use Rattle.vx_chunk_plans.specs.Takes.{bucket_rows, in_order, never_falls, step_up, AreBelow, IsWithin, IsBeyond, TakeCause, IsThere, IsSpotOf, IsFrom, spot_row, rows_of};
ghost use Rattle.vx_chunk_plans.specs.Takes.{chunk_of, chunk_after, IsChunkBelow, with_spot, counted, number_of, HasRoom};

use std::alloc::Global;
use vx_base::{ColumnError, Ledger, Res, Seq, Steps};
use vx_chunks::Boundaries;

/// Which rows of each chunk a take names, and in which order.
pub struct TakePlan {
    /// The places that are named of each chunk, in the order in which they are named.
    pub buckets: Seq<Seq<usize>>,
    /// For each answer where it stands among the places of all chunks, end to end; absent for an index that is absent. None
    /// where the places are the answers as they stand.
    pub order: Option<Seq<Option<usize>>>,
}

impl Drop for TakePlan {
    fn drop(self) {
        let TakePlan {
            buckets: _,
            order: _,
        } = self;
    }
}

/// Which rows of which chunks the indices name.
pub(crate) fn take_plan<L: Ledger>(
    boundaries: &Boundaries,
    alloc: Global,
    indices: &[Option<usize>],
    steps: &mut Steps<L>,
) -> Res<TakePlan>
    ensures ok { IfOk result (λ plan. in_order (bucket_rows boundaries.now plan.buckets) plan.order ≡ indices.now) }
    ensures within { IfOk result (λ plan. AllZip AreBelow boundaries.now plan.buckets) }
    ensures inside { OnOk result (All (IsWithin (total boundaries.now)) indices.now) }
    ensures joined { IfOk result (λ plan.
        list_all is_some indices.now ≡ true → never_falls 0 indices.now ≡ true → plan.order ≡ None) }
    ensures err { IfErr result (TakeCause (total boundaries.now) indices.now) }
    ensures rise { steps.new ≤ steps.old + count_by is_some indices.now * search_bound (length boundaries.now + 1) }
    ensures walks { never_falls 0 indices.now ≡ true → steps.new ≡ steps.old }
    ensures monotone { steps.old ≤ steps.new }
{
    check_indices(indices, boundaries.len())?;
    let spots = spots_of(boundaries, alloc, indices, steps)?;
    plan_of(boundaries, alloc, spots.as_slice())
}

/// Refuses `OutOfBounds` where an index that is present is past the end.
fn check_indices(indices: &[Option<usize>], len: usize) -> Res<()>
    ensures inside { OnOk result (All (IsWithin len) indices.now) }
    ensures err { IfErr result (TakeCause len indices.now) }
{
    for at in indices {
        check_index(*at, len)?;
    }
    Ok(())
}

fn check_index(at: Option<usize>, len: usize) -> Res<()>
    ensures inside { OnOk result (IsWithin len at) }
    ensures err { IfErr result (IsBeyond len at) }
{
    match at {
        Some(index) => {
            if index >= len {
                return Err(ColumnError::OutOfBounds { index, len });
            }
            Ok(())
        }
        None => Ok(()),
    }
}

/// Where each index stands. Those that don't fall are walked to along the boundaries, and others are searched.
fn spots_of<L: Ledger>(
    boundaries: &Boundaries,
    alloc: Global,
    indices: &[Option<usize>],
    steps: &mut Steps<L>,
) -> Res<Vec<Option<(usize, usize)>>>
    requires { All (IsWithin (total boundaries.now)) indices.now }
    ensures ok { IfOk result (λ spots. AllZip (IsSpotOf boundaries.now) indices.now spots.items) }
    ensures err { IsOkUnless result ColumnError.OutOfMemory }
    ensures rise { steps.new ≤ steps.old + count_by is_some indices.now * search_bound (length boundaries.now + 1) }
    ensures walks { never_falls 0 indices.now ≡ true → steps.new ≡ steps.old }
    ensures monotone { steps.old ≤ steps.new }
{
    if never_falls(indices) {
        return walked(boundaries, alloc, indices);
    }
    searched(boundaries, alloc, indices, steps)
}

/// Whether no index that is present is below the one before it.
#[tactic(auto, using(crate::proofs::Taking::goes_up, crate::proofs::Taking::goes_down))]
fn never_falls(indices: &[Option<usize>]) -> bool
    ensures { result ≡ never_falls 0 indices.now }
{
    let mut last = 0;
    for at in indices {
        let Some(next) = step_up(last, *at) else {
            return false;
        };
        last = next;
    }
    true
}

/// The greater of the two, or None where the second is below the first.
fn step_up(last: usize, at: Option<usize>) -> Option<usize>
    ensures { result ≡ step_up last at }
{
    match at {
        Some(index) => { if last <= index { Some(index) } else { None } }
        None => Some(last),
    }
}

/// Where each index stands, of indices that don't fall.
fn walked(
    boundaries: &Boundaries,
    alloc: Global,
    indices: &[Option<usize>],
) -> Res<Vec<Option<(usize, usize)>>>
    requires inside { All (IsWithin (total boundaries.now)) indices.now }
    requires rising { never_falls 0 indices.now ≡ true }
    ensures ok { IfOk result (λ spots. AllZip (IsSpotOf boundaries.now) indices.now spots.items) }
    ensures err { IsOkUnless result ColumnError.OutOfMemory }
{
    let mut spots = Vec::new(alloc);
    let mut chunk = 0;
    for at in indices {
        let (next, spot) = walk(boundaries, chunk, *at);
        spots.push(spot)?;
        chunk = next;
    }
    Ok(spots)
}

/// Where an index stands that isn't below the start of `chunk`, and the chunk to walk on from.
fn walk(boundaries: &Boundaries, chunk: usize, at: Option<usize>) -> (usize, Option<(usize, usize)>)
    requires inside { IsWithin (total boundaries.now) at }
    requires start { IsFrom (total (take chunk boundaries.now)) at }
    ensures spot { IsSpotOf boundaries.now at result.1 }
    ensures chunk { result.0 ≡ chunk_after chunk result.1 }
{
    match at {
        Some(index) => {
            let spot = walk_to(boundaries, chunk, index);
            (spot.0, Some(spot))
        }
        None => (chunk, None),
    }
}

/// The chunk that holds a row at or behind the start of `chunk`, and the row's place in it. Walks along the boundaries.
fn walk_to(boundaries: &Boundaries, chunk: usize, index: usize) -> (usize, usize)
    requires start { total (take chunk boundaries.now) ≤ index }
    requires inside { index < total boundaries.now }
    ensures there { IsThere boundaries.now result }
    ensures row { spot_row boundaries.now result ≡ index }
{
    let ends = boundaries.values();
    let mut chunk = chunk;
    while ends[chunk + 1] <= index {
        chunk += 1;
    }
    (chunk, index - ends[chunk])
}

/// Where each index stands, each searched.
fn searched<L: Ledger>(
    boundaries: &Boundaries,
    alloc: Global,
    indices: &[Option<usize>],
    steps: &mut Steps<L>,
) -> Res<Vec<Option<(usize, usize)>>>
    requires { All (IsWithin (total boundaries.now)) indices.now }
    ensures ok { IfOk result (λ spots. AllZip (IsSpotOf boundaries.now) indices.now spots.items) }
    ensures err { IsOkUnless result ColumnError.OutOfMemory }
    ensures rise { steps.new ≤ steps.old + count_by is_some indices.now * search_bound (length boundaries.now + 1) }
    ensures monotone { steps.old ≤ steps.new }
{
    let mut spots = Vec::new(alloc);
    for at in indices {
        let spot = search(boundaries, *at, steps);
        spots.push(spot)?;
    }
    Ok(spots)
}

/// Where an index stands, searched.
fn search<L: Ledger>(
    boundaries: &Boundaries,
    at: Option<usize>,
    steps: &mut Steps<L>,
) -> Option<(usize, usize)>
    requires { IsWithin (total boundaries.now) at }
    ensures spot { IsSpotOf boundaries.now at result }
    ensures rise { steps.new ≤ steps.old + cond (is_some at) 1 0 * search_bound (length boundaries.now + 1) }
    ensures monotone { steps.old ≤ steps.new }
{
    match at {
        Some(index) => Some(boundaries.find_chunk_idx(index, steps)),
        None => None,
    }
}

/// The plan of spots.
fn plan_of(
    boundaries: &Boundaries,
    alloc: Global,
    spots: &[Option<(usize, usize)>],
) -> Res<TakePlan>
    requires { All (IsThere boundaries.now) (present spots.now) }
    ensures ok { IfOk result (λ plan. in_order (bucket_rows boundaries.now plan.buckets) plan.order ≡ rows_of boundaries.now spots.now) }
    ensures within { IfOk result (λ plan. AllZip AreBelow boundaries.now plan.buckets) }
    ensures joined { IfOk result (λ plan.
        (list_all is_some spots.now && in_turn 0 (present spots.now)) ≡ true → plan.order ≡ None) }
    ensures err { IsOkUnless result ColumnError.OutOfMemory }
{
    let buckets = deal(alloc, spots, boundaries.nchunks())?;
    let order = order_of(alloc, spots, buckets.as_slice())?;
    Ok(TakePlan {
        buckets: Seq::from_vec(buckets),
        order,
    })
}

/// The places of the spots by chunk.
fn deal(alloc: Global, spots: &[Option<(usize, usize)>], count: usize) -> Res<Vec<Seq<usize>>>
    requires { All (λ s. s.0 < count) (present spots.now) }
    ensures ok { IfOk result (λ buckets. buckets.items ≡ dealt 0 count (present spots.now)) }
    ensures err { IsOkUnless result ColumnError.OutOfMemory }
{
    let mut buckets = empty(alloc, count)?;
    for spot in spots {
        put(&mut buckets, *spot)?;
    }
    Ok(buckets)
}

/// As many buckets without places.
#[tactic(auto, using(crate::proofs::Taking::empty_more))]
fn empty(alloc: Global, count: usize) -> Res<Vec<Seq<usize>>>
    ensures ok { IfOk result (λ buckets. buckets.items ≡ dealt 0 count []) }
    ensures err { IsOkUnless result ColumnError.OutOfMemory }
{
    let mut buckets = Vec::new(alloc);
    for _ in 0..count {
        buckets.push(Seq::new(alloc))?;
    }
    Ok(buckets)
}

/// Adds the place of a spot at the end of its bucket.
fn put(buckets: &mut Vec<Seq<usize>>, spot: Option<(usize, usize)>) -> Res<()>
    requires { IsChunkBelow (vec_len buckets.old) spot }
    ensures ok { OnOk result (buckets.new.items ≡ with_spot buckets.old.items spot) }
    ensures err { IsOkUnless result ColumnError.OutOfMemory }
{
    match spot {
        Some((chunk, place)) => put_at(buckets, chunk, place),
        None => Ok(()),
    }
}

fn put_at(buckets: &mut Vec<Seq<usize>>, chunk: usize, place: usize) -> Res<()>
    requires { chunk < vec_len buckets.old }
    ensures ok { OnOk result (buckets.new.items
        ≡ slice_set buckets.old.items chunk (get_or buckets.old.items chunk [] ++ place ∷ [])) }
    ensures err { IsOkUnless result ColumnError.OutOfMemory }
{
    let bucket = &mut buckets[chunk];
    bucket.push(place)?;
    Ok(())
}

/// Where each spot stands among the places, unless they are in the order of the spots.
fn order_of(
    alloc: Global,
    spots: &[Option<(usize, usize)>],
    buckets: &[Seq<usize>],
) -> Res<Option<Seq<Option<usize>>>>
    requires dealt { buckets.now ≡ dealt 0 (length buckets.now) (present spots.now) }
    requires below { All (λ s. s.0 < length buckets.now) (present spots.now) }
    ensures ok { (lens : List ℕ) → length lens ≡ length buckets.now →
        IfOk result (λ order. in_order (bucket_rows lens buckets.now) order ≡ rows_of lens spots.now) }
    ensures joined { IfOk result (λ order.
        (list_all is_some spots.now && in_turn 0 (present spots.now)) ≡ true → order ≡ None) }
    ensures err { IsOkUnless result ColumnError.OutOfMemory }
{
    if are_in_order(spots) {
        return Ok(None);
    }
    let order = restored(alloc, spots, buckets)?;
    Ok(Some(Seq::from_vec(order)))
}

/// Whether the spots, dealt out and laid end to end by chunk, are in the order that they had.
fn are_in_order(spots: &[Option<(usize, usize)>]) -> bool
    ensures { result ≡ (list_all is_some spots.now && in_turn 0 (present spots.now)) }
{
    all_present(spots) && in_turn(spots)
}

fn all_present(spots: &[Option<(usize, usize)>]) -> bool
    ensures { result ≡ list_all is_some spots.now }
{
    spots.iter().all(|spot| spot.is_some())
}

/// Whether no spot's chunk comes before that of the spot before it.
#[tactic(auto, using(crate::proofs::Taking::turns_up, crate::proofs::Taking::turns_down))]
fn in_turn(spots: &[Option<(usize, usize)>]) -> bool
    ensures { result ≡ in_turn 0 (present spots.now) }
{
    let mut last = 0;
    for spot in spots {
        let Some(next) = step_up(last, chunk_of(*spot)) else {
            return false;
        };
        last = next;
    }
    true
}

fn chunk_of(spot: Option<(usize, usize)>) -> Option<usize>
    ensures { result ≡ chunk_of spot }
{
    match spot {
        Some((chunk, _)) => Some(chunk),
        None => None,
    }
}

/// Where each spot stands among the places of all chunks, end to end.
fn restored(
    alloc: Global,
    spots: &[Option<(usize, usize)>],
    buckets: &[Seq<usize>],
) -> Res<Vec<Option<usize>>>
    requires dealt { buckets.now ≡ dealt 0 (length buckets.now) (present spots.now) }
    requires below { All (λ s. s.0 < length buckets.now) (present spots.now) }
    ensures ok { (lens : List ℕ) → length lens ≡ length buckets.now →
        IfOk result (λ order. in_order (bucket_rows lens buckets.now) (Some order.items) ≡ rows_of lens spots.now) }
    ensures err { IsOkUnless result ColumnError.OutOfMemory }
{
    let mut next = starts(alloc, buckets)?;
    let mut order = Vec::new(alloc);
    for spot in spots {
        let place = place_next(&mut next, *spot);
        order.push(place)?;
    }
    Ok(order)
}

/// Where each bucket begins among the places of all, end to end.
fn starts(alloc: Global, buckets: &[Seq<usize>]) -> Res<Vec<usize>>
    requires { total (map length buckets.now) < 2 ^ 64 }
    ensures long { IfOk result (λ starts. length starts.items ≡ length buckets.now) }
    ensures each { IfOk result (λ starts. (k : ℕ) → k < length buckets.now →
        get_or starts.items k 0 ≡ total (take k (map length buckets.now))) }
    ensures err { IsOkUnless result ColumnError.OutOfMemory }
{
    let mut starts = Vec::new(alloc);
    let mut sum = 0;
    for bucket in buckets {
        starts.push(sum)?;
        sum += bucket.len();
    }
    Ok(starts)
}

/// The place of a spot, which is the next one of its chunk.
fn place_next(next: &mut Vec<usize>, spot: Option<(usize, usize)>) -> Option<usize>
    requires { HasRoom next.old.items spot }
    ensures place { result ≡ number_of next.old.items spot }
    ensures next { next.new.items ≡ counted next.old.items spot }
{
    match spot {
        Some((chunk, _)) => {
            let place = next[chunk];
            next[chunk] = place + 1;
            Some(place)
        }
        None => None,
    }
}
