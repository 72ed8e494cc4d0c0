//! The law of slots, as a contract over the definitions.
ghost use Rattle.vx_patch_slots.specs.Slots.{ReadsBack};

/// Exceptions that were pushed behind any slots are read back equal, chunk offsets and all.
pub fn slots_law()
    ensures { ReadsBack }
{}
