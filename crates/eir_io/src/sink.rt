//! Where bytes go.
ghost use Rattle.std.specs.Prelude.{◌≡◌, ℕ, List, [], IfOk};
ghost use Rattle.std.specs.declared.option.Option.{Option};
ghost use Rattle.std.specs.Io.{WritesAtMost};
ghost use Rattle.std.specs.Io.KnownBytes.{WriteAppends};
ghost use Rattle.eir_io.specs.Causes.{HasStopCause};

use crate::Stop;

/// What takes bytes, one piece after the other.
pub trait Sink {
    /// What was written, where it is told.
    ghost written: { Self → Option (List ℕ) };

    /// How often a write failed: a count that never falls.
    ghost faults: { Self → ℕ };

    /// Writes bytes from the front of the piece, and says how many they are.
    fn write(&mut self, bytes: &[u8]) -> Result<usize, Stop>
        ensures bound { WritesAtMost result bytes.now }
        ensures bytes { WriteAppends (written self.old) (written self.new) result bytes.now }
        // Only an empty piece is written by taking nothing.
        ensures some { IfOk result (λ count. count ≡ 0 → bytes.now ≡ []) }
        ensures cause { HasStopCause (faults self.old) (faults self.new) result };
}
