//! A writer of std as a sink.
ghost use Rattle.std.specs.Prelude.{◌≡◌, ◌≤◌, [], None, length, take, IfOk, IfSome, IsOkUnless};
ghost use Rattle.std.specs.Io.{WritesAtMost};
ghost use Rattle.std.specs.Io.KnownBytes.{Appends, WriteAppends};
ghost use Rattle.eir_io.specs.Adapters.{CountsFault};
ghost use Rattle.eir_io.specs.Causes.{HasStopCause};

use crate::{Sink, Stop};
use std::io::Write;
use std::marker::Model;

/// A writer of std that is flushed after each write, with a count of its failures. A writer that takes nothing of
/// a piece with bytes has failed. What was written is not told, since a flush may fail after a write.
#[derive(Drop)]
pub struct Writing<W: Write> {
    inner: W,
    faults: u64,
}

impl<W: Write> Model for Writing<W> {
    ghost use Rattle.eir_io.specs.Adapters.{Counted};

    ghost Value = { Counted W };

    ghost view = { λ s. record { inner = s.inner; faults = s.faults } };
}

impl<W: Write> Writing<W> {
    /// The writer as a sink that has not failed yet.
    pub fn new(inner: W) -> Writing<W>
        ensures { result ≡ record { inner = inner; faults = 0 } }
    {
        Writing { inner, faults: 0 }
    }
}

/// Writes from the front of the piece, and flushes. None where either failed or nothing was taken.
fn write_and_flush<W: Write>(writer: &mut W, bytes: &[u8]) -> Option<usize>
    ensures bound { IfSome result (λ count. count ≤ length bytes.now) }
    ensures some { IfSome result (λ count. count ≡ 0 → bytes.now ≡ []) }
    ensures bytes { IfSome result (λ count.
        Appends (W.contents writer.old) (W.contents writer.new) (take count bytes.now)) }
{
    let count = writer.write(bytes).ok()?;
    if count == 0 && !bytes.is_empty() {
        return None;
    }
    writer.flush().ok()?;
    Some(count)
}

impl<W: Write> Sink for Writing<W> {
    ghost written = { λ _. None };

    ghost faults = { λ s. s.faults };

    fn write(&mut self, bytes: &[u8]) -> Result<usize, Stop>
        ensures bound { WritesAtMost result bytes.now }
        ensures bytes { WriteAppends None None result bytes.now }
        ensures some { IfOk result (λ count. count ≡ 0 → bytes.now ≡ []) }
        ensures cause { HasStopCause self.old.faults self.new.faults result }

        // What reached the writer, and which failures are counted: each, and nothing else.
        ensures reached { IfOk result (λ count.
            Appends (W.contents self.old.inner) (W.contents self.new.inner) (take count bytes.now)) }
        ensures counted { CountsFault self.old.faults self.new.faults result }
        ensures failed { IsOkUnless result Stop.Failed }
    {
        if let Some(count) = write_and_flush(&mut self.inner, bytes) {
            return Ok(count);
        }
        self.faults = self.faults.saturating_add(1);
        Err(Stop::Failed)
    }
}
