//! A reader of std as a source.
ghost use Rattle.std.specs.Prelude.{◌≡◌};
ghost use Rattle.std.specs.Io.{ReadsAtMost};
ghost use Rattle.std.specs.Io.KnownBytes.{ReadConsumes};
ghost use Rattle.eir_io.specs.Adapters.{CountsFault};
ghost use Rattle.eir_io.specs.Causes.{HasCause};

use crate::{Failed, Source};
use std::io::Read;
use std::marker::Model;

/// A reader of std, with a count of its failures. It tells what the reader tells.
#[derive(Drop)]
pub struct Reading<R: Read> {
    inner: R,
    faults: u64,
}

impl<R: Read> Model for Reading<R> {
    ghost use Rattle.eir_io.specs.Adapters.{Counted};

    ghost Value = { Counted R };

    ghost view = { λ s. record { inner = s.inner; faults = s.faults } };
}

impl<R: Read> Reading<R> {
    /// The reader as a source that has not failed yet.
    pub fn new(inner: R) -> Reading<R>
        ensures { result ≡ record { inner = inner; faults = 0 } }
    {
        Reading { inner, faults: 0 }
    }
}

impl<R: Read> Source for Reading<R> {
    ghost left = { λ s. R.remaining s.inner };

    ghost faults = { λ s. s.faults };

    fn read(&mut self, buf: &mut [u8]) -> Result<usize, Failed>
        ensures bound { ReadsAtMost result buf.new }
        ensures bytes { ReadConsumes (R.remaining self.old.inner) (R.remaining self.new.inner) result buf.new }
        ensures cause { HasCause self.old.faults self.new.faults result }
        ensures counted { CountsFault self.old.faults self.new.faults result }
    {
        match self.inner.read(buf) {
            Ok(count) => Ok(count),
            Err(_) => {
                self.faults = self.faults.saturating_add(1);
                Err(Failed)
            }
        }
    }
}
