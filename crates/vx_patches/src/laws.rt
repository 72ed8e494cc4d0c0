//! Laws of slices, as contracts over the definitions.
ghost use Rattle.vx_patches.specs.Laws.{PairsCompose, ChainIsOneSlice, PartsHold};

/// A slice of a slice means one slice by the composed range, and is it, chunk offsets and all. So what a chain of slices
/// answers, and what its searches cost, is what the one slice does.
pub fn slice_laws()
    ensures pairs { PairsCompose }
    ensures chain { ChainIsOneSlice }
{}

/// Exceptions that were taken apart are put together again by `Patches::from_parts`, those of a slice too.
pub fn parts_law()
    ensures { PartsHold }
{}
