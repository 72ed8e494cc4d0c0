//! Laws of selections of exceptions, as contracts over the definitions.
ghost use Rattle.vx_patch_select.specs.Laws.{SliceCommutes, FilterCommutes, TakeCommutes};

/// A slice, a filter and a take of exceptions lie over the slice, the filter and the take of rows as the selection of what
/// the exceptions make of all rows. Where no exception is left, these are the rows alone.
pub fn overlay_laws()
    ensures slice { SliceCommutes }
    ensures filter { FilterCommutes }
    ensures take { TakeCommutes }
{}
