//! Where bytes come from.
ghost use Rattle.std.specs.Prelude.{ℕ, List};
ghost use Rattle.std.specs.declared.option.Option.{Option};
ghost use Rattle.std.specs.Io.{ReadsAtMost};
ghost use Rattle.std.specs.Io.KnownBytes.{ReadConsumes};
ghost use Rattle.eir_io.specs.Causes.{HasCause};

use crate::Failed;

/// Bytes to be read from front to end.
pub trait Source {
    /// The bytes still to come, where they are told.
    ghost left: { Self → Option (List ℕ) };

    /// How often a read failed: a count that never falls.
    ghost faults: { Self → ℕ };

    /// Puts the next bytes into the front of the buffer, and says how many they are. None for a buffer with room
    /// is the end of the input. After a failure the same bytes are still to come.
    fn read(&mut self, buf: &mut [u8]) -> Result<usize, Failed>
        ensures bound { ReadsAtMost result buf.new }
        ensures bytes { ReadConsumes (left self.old) (left self.new) result buf.new }
        ensures cause { HasCause (faults self.old) (faults self.new) result };
}
