//! What bytes are read from.
ghost use Rattle.std.specs.Prelude.{ℕ, List};
ghost use Rattle.std.specs.declared.option.Option.{Option};
ghost use Rattle.std.specs.Io.{ReadsAtMost};
ghost use Rattle.std.specs.Io.KnownBytes.{ReadConsumes};
ghost use Rattle.vx_ends.specs.Causes.{HasCause, TellsAsBefore};

/// A read failed.
#[derive(Clone, Copy, Debug, PartialEq, Eq, Drop)]
pub struct Failed;

/// What bytes are read from.
pub trait Source {
    /// The bytes left, where the source tells them.
    ghost left: { Self → Option (List ℕ) };

    /// How many reads have failed. The count saturates at `u64::MAX`.
    ghost faults: { Self → ℕ };

    /// Takes the next bytes into the front of `buf`, and answers how many. 0 for a buffer with room means the
    /// end. A read that fails takes no byte.
    fn read(&mut self, buf: &mut [u8]) -> Result<usize, Failed>
        ensures bound { ReadsAtMost result buf.new }
        ensures bytes { ReadConsumes (left self.old) (left self.new) result buf.new }
        ensures tells { TellsAsBefore (left self.old) (left self.new) }
        ensures cause { HasCause (faults self.old) (faults self.new) result };
}
