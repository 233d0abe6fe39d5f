//! A shelf of named files.
ghost use Rattle.std.specs.Prelude.{◌≡◌, ◌⊎◌, ◌<◌, ◌≤◌, ℕ, length, IfOk, IfSome, IsSomeAnd, IsErrOf, OnErr, OnOk};
ghost use Rattle.std.specs.declared.option.Option.{Option};
ghost use Rattle.eir_io.specs.Causes.{HasStopCause, Rose};
ghost use Rattle.eir_io.specs.Files.{Files, KeepsFiles, Stores};

use crate::{LoadStop, Stop};
use eir_term::Text;

/// Files that are found by their names. A name is any text.
pub trait Shelf {
    /// The files, where they are told.
    ghost files: { Self → Option Files };

    /// How often a call failed: a count that never falls.
    ghost faults: { Self → ℕ };

    /// The bytes of the file of that name, if there are at most so many. No load changes the files.
    fn load(&mut self, name: &Text, limit: u64) -> Result<Vec<u8>, LoadStop>
        ensures within { IfOk result (λ bytes. length bytes.items ≤ limit) }
        ensures bytes { IfOk result (λ bytes. IfSome (files self.old) (λ told. told name.now ≡ Some bytes.items)) }

        // With the two clauses above: exactly where the told files lack the name, or the file is longer,
        // unless the call failed or there was no memory.
        ensures missing { IsErrOf result LoadStop.Missing → IfSome (files self.old) (λ told. told name.now ≡ None) }
        ensures long { IsErrOf result LoadStop.TooLong → IfSome (files self.old) (λ told.
            IsSomeAnd (told name.now) (λ bytes. limit < length bytes)) }

        // Where the files are not told, both are faults.
        ensures untold { files self.old ≡ None → IsErrOf result LoadStop.Missing ⊎ IsErrOf result LoadStop.TooLong →
            Rose (faults self.old) (faults self.new) }

        ensures failed { IsErrOf result LoadStop.Failed → Rose (faults self.old) (faults self.new) }
        ensures later { faults self.old ≤ faults self.new }
        ensures same { KeepsFiles (files self.old) (files self.new) };

    /// Makes these bytes the file of that name, and leaves the other files.
    fn store(&mut self, name: &Text, bytes: &[u8]) -> Result<(), Stop>
        ensures ok { OnOk result (Stores (files self.old) (files self.new) name.now bytes.now) }
        ensures err { OnErr result (KeepsFiles (files self.old) (files self.new)) }
        ensures cause { HasStopCause (faults self.old) (faults self.new) result };
}
