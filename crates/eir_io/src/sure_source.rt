//! A source in memory that never fails.
ghost use Rattle.std.specs.Prelude.{◌≡◌, ◌++◌, Some, Ok, length, min, take, drop, IfOk};
ghost use Rattle.std.specs.Io.{ReadsAtMost};
ghost use Rattle.std.specs.Io.KnownBytes.{ReadConsumes};
ghost use Rattle.eir_io.specs.Causes.{HasCause};

use crate::pieces::copy_piece;
use crate::{Failed, Source};
use std::marker::Model;

/// Bytes in memory, handed out without fail. A read gives as many as the buffer takes.
#[derive(Drop)]
pub struct SureSource {
    bytes: Vec<u8>,
    at: usize,
}

impl Model for SureSource {
    ghost use Rattle.std.specs.Prelude.{◌≤◌, ℕ, List, length, drop};

    ghost Value = { List ℕ };

    ghost view = { λ s. drop s.at s.bytes.items };

    ghost invariant = { λ s. s.at ≤ length s.bytes.items };
}

impl SureSource {
    /// A source of these bytes.
    pub fn new(bytes: Vec<u8>) -> SureSource
        ensures { result ≡ bytes.items }
    {
        SureSource { bytes, at: 0 }
    }
}

impl Source for SureSource {
    ghost left = { λ s. Some s };

    ghost faults = { λ _. 0 };

    fn read(&mut self, buf: &mut [u8]) -> Result<usize, Failed>
        ensures bound { ReadsAtMost result buf.new }
        ensures bytes { ReadConsumes (Some self.old) (Some self.new) result buf.new }
        ensures cause { HasCause 0 0 result }

        // What happens.
        ensures count { result ≡ Ok (min (length buf.old) (length self.old)) }
        ensures left { IfOk result (λ count. self.new ≡ drop count self.old) }
        ensures filled { IfOk result (λ count. buf.new ≡ take count self.old ++ drop count buf.old) }
    {
        let count = copy_piece(&self.bytes, self.at, usize::MAX, buf);
        self.at += count;
        Ok(count)
    }
}
