//! What bytes are written to.
ghost use Rattle.std.specs.Prelude.{ℕ, List, IfOk, ◌<◌, length};
ghost use Rattle.std.specs.declared.option.Option.{Option};
ghost use Rattle.std.specs.Io.{WritesAtMost};
ghost use Rattle.std.specs.Io.KnownBytes.{WriteAppends};
ghost use Rattle.vx_ends.specs.Causes.{HasCauseAt, TellsAsBefore};

/// Why a piece was not written.
#[derive(Clone, Copy, Debug, PartialEq, Eq, Drop)]
pub enum SinkError {
    /// The write failed: only where the count of faults rose.
    Failed,
    /// The sink found no memory for the piece, which may happen at any write.
    OutOfMemory,
}

/// What bytes are written to.
pub trait Sink {
    /// The bytes held, where the sink tells them.
    ghost held: { Self → Option (List ℕ) };

    /// How many writes have failed. The count saturates at `u64::MAX`.
    ghost faults: { Self → ℕ };

    /// Appends the first bytes of the piece, at least one of a piece that is not empty, and answers how many.
    /// A write that fails appends no byte.
    fn write(&mut self, piece: &[u8]) -> Result<usize, SinkError>
        ensures bound { WritesAtMost result piece.now }
        ensures moves { IfOk result (λ n. 0 < length piece.now → 0 < n) }
        ensures bytes { WriteAppends (held self.old) (held self.new) result piece.now }
        ensures tells { TellsAsBefore (held self.old) (held self.new) }
        ensures cause { HasCauseAt (faults self.old) (faults self.new) result SinkError.Failed };
}
