//! Laws over the definitions of messages and their bytes, as contracts.
ghost use Rattle.vx_wire.specs.Laws.{PatchesReadBack, LanesReadBack, OneReading, NoFaultWhereRead, OneFault, UnknownIsPassedOver};

/// What was written is read again: the canonical bytes of each message say this message, and by the next laws no
/// other.
pub fn round_trip()
    ensures patches { PatchesReadBack }
    ensures lanes { LanesReadBack }
{}

/// Bytes stand for at most one list of fields, have at most one first fault, and never both.
pub fn one_reading()
    ensures fields { OneReading }
    ensures apart { NoFaultWhereRead }
    ensures fault { OneFault }
{}

/// More is read than is written: a message of patches stays the same with fields of unknown tags behind it.
pub fn more_spellings()
    ensures { UnknownIsPassedOver }
{}
