//! Rows that are wanted of several lists: dealt out by list, and put back in their order.
ghost use Rattle.std.specs.Prelude.{◌≡◌, ◌<◌, ◌∷◌, ◌++◌, [], All, IfOk, OnOk, IsOkUnless, IsTrue, get_or, slice_set, length, vec_len, Option};
ghost use Rattle.vx_rows.specs.Fits.{rows_fit};
ghost use Rattle.vx_rows.specs.declared.value.Value.{Value};
ghost use Rattle.vx_job.specs.Rows.{interleaved, Rows};
ghost use Rattle.vx_select.specs.Spots.{AreWanted, AreAnswers, HaveAnswers, Lists, Spot};

use std::alloc::Global;
use vx_base::{ColumnError, DType, Res, RowBuffer, Seq};

/// What is wanted of each of `count` lists, in order.
pub(crate) fn deal(alloc: Global, spots: &[(usize, usize)], count: usize) -> Res<Vec<Seq<usize>>>
    requires { All (λ (s : Spot). s.0 < count) spots.now }
    ensures ok { IfOk result (λ lists. AreWanted spots.now count lists.items) }
    ensures err { IsOkUnless result ColumnError.OutOfMemory }
{
    let mut lists = empty(alloc, count)?;
    for spot in spots {
        put(&mut lists, spot.0, spot.1)?;
    }
    Ok(lists)
}

/// As many lists without elements.
fn empty(alloc: Global, count: usize) -> Res<Vec<Seq<usize>>>
    ensures ok { IfOk result (λ lists. AreWanted [] count lists.items) }
    ensures err { IsOkUnless result ColumnError.OutOfMemory }
{
    let mut lists = Vec::new(alloc);
    for _ in 0..count {
        lists.push(Seq::new(alloc))?;
    }
    Ok(lists)
}

/// Adds a place at the end of a list.
fn put(lists: &mut Vec<Seq<usize>>, list: usize, place: usize) -> Res<()>
    requires { list < vec_len lists.old }
    ensures ok { OnOk result (lists.new.items ≡ slice_set lists.old.items list (get_or lists.old.items list [] ++ place ∷ [])) }
    ensures err { IsOkUnless result ColumnError.OutOfMemory }
{
    let wanted = &mut lists[list];
    wanted.push(place)?;
    Ok(())
}

/// The rows of the spots in their order, where `rows` are those that are wanted of each list. The rows are moved.
pub(crate) fn merge(
    alloc: Global,
    dtype: &DType,
    spots: &[(usize, usize)],
    rows: Vec<RowBuffer>,
) -> Res<RowBuffer>
    requires lists { All (λ (s : Spot). s.0 < vec_len rows) spots.now }
    requires answers { HaveAnswers spots.now rows.items }
    requires fit { All (λ (list : Rows). IsTrue (rows_fit dtype.now list)) rows.items }
    ensures ok { IfOk result (λ merged.
        (values : Lists) → AreAnswers values spots.now rows.items → merged ≡ interleaved values spots.now) }
    ensures fits { IfOk result (λ merged. IsTrue (rows_fit dtype.now merged)) }
    ensures err { IsOkUnless result ColumnError.OutOfMemory }
{
    let mut rows = rows;
    let mut merged = RowBuffer::new(alloc, dtype);
    let mut left = spots.len();
    while left > 0 {
        left -= 1;
        move_from(&mut rows, spots[left].0, alloc, &mut merged)?;
    }
    merged.reverse()?;
    Ok(merged)
}

/// Moves the last row of a list.
fn move_from(rows: &mut Vec<RowBuffer>, list: usize, alloc: Global, out: &mut RowBuffer) -> Res<()>
    requires list { list < vec_len rows.old }
    requires some { 0 < length (get_or rows.old.items list []) }
    ensures len { OnOk result (vec_len rows.new ≡ vec_len rows.old) }
    ensures row { OnOk result ((front : Rows) (row : Option Value) → get_or rows.old.items list [] ≡ front ++ row ∷ [] →
        (rows.new.items ≡ slice_set rows.old.items list front) × (out.new ≡ out.old ++ row ∷ [])) }
    ensures err { IsOkUnless result ColumnError.OutOfMemory }
{
    let last = &mut rows[list];
    last.move_last_to(alloc, out)
}
