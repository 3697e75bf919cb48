//! A sink: where bytes go.
ghost use Rattle.line_io.specs.Causes.{HasCause, IsStuck, Rose};
ghost use Rattle.std.specs.Io.{WritesAtMost};
ghost use Rattle.std.specs.Io.KnownBytes.{WriteAppends};
ghost use Rattle.std.specs.Prelude.{ℕ, List};
ghost use Rattle.std.specs.declared.option.Option.{Option};

use crate::Failed;

/// Where bytes go.
pub trait Sink {
    /// The bytes that were taken, where the sink tells them.
    ghost taken: { Self → Option (List ℕ) };

    /// How often the sink has failed. The count stops at the largest `u64`.
    ghost faults: { Self → ℕ };

    /// Takes bytes from the front of the piece, and says how many. A 0 on a piece that is not empty
    /// counts as a fault.
    ///
    /// Errors: `Failed` only where the count of faults rose in this call. Then no byte was taken.
    fn write(&mut self, piece: &[u8]) -> Result<usize, Failed>
        ensures bound { WritesAtMost result piece.now }
        ensures bytes { WriteAppends (taken self.old) (taken self.new) result piece.now }
        ensures cause { HasCause (faults self.old) (faults self.new) result }
        ensures stuck { IsStuck result piece.now → Rose (faults self.old) (faults self.new) };
}
