//! The law of functions that are pushed through chunks, as a contract over the definitions.
ghost use Rattle.vx_pairs.specs.Laws.{PushesThrough};

/// To give a function the rows of each list, and to join what it gives, is to give it the joined rows.
pub fn push_law()
    ensures { PushesThrough }
{}
