//! A source: where bytes come from.
ghost use Rattle.line_io.specs.Causes.{HasCause};
ghost use Rattle.std.specs.Io.{ReadsAtMost};
ghost use Rattle.std.specs.Io.KnownBytes.{ReadConsumes};
ghost use Rattle.std.specs.Prelude.{ℕ, List};
ghost use Rattle.std.specs.declared.option.Option.{Option};

use crate::Failed;

/// Where bytes come from.
pub trait Source {
    /// The bytes that are left, where the source tells them.
    ghost left: { Self → Option (List ℕ) };

    /// How often the source has failed. The count stops at the largest `u64`.
    ghost faults: { Self → ℕ };

    /// Fills the front of the buffer with the next bytes, and says how many: at most as many as it
    /// holds. A 0 on a buffer that is not empty is the end of the input.
    ///
    /// Errors: `Failed` only where the count of faults rose in this call. Then no byte was given.
    fn read(&mut self, buf: &mut [u8]) -> Result<usize, Failed>
        ensures bound { ReadsAtMost result buf.new }
        ensures bytes { ReadConsumes (left self.old) (left self.new) result buf.new }
        ensures cause { HasCause (faults self.old) (faults self.new) result };
}
