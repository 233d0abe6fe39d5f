//! A sink in memory that fails where it is told to.
ghost use Rattle.std.specs.Prelude.{◌≡◌, ◌<◌, ◌↔◌, [], Some, length, min, IfOk, OnErr, IsErrOf, Contains};
ghost use Rattle.std.specs.Io.{WritesAtMost};
ghost use Rattle.std.specs.Io.KnownBytes.{WriteAppends};
ghost use Rattle.eir_io.specs.Causes.{HasStopCause, raised};
ghost use Rattle.eir_io.specs.Sinks.{sink_after_fault, sink_after_write};

use crate::{Sink, Stop};
use std::alloc::Global;
use std::marker::Model;

/// Keeps what is written, in pieces. The writes are numbered from 1, and those listed fail.
#[derive(Drop)]
pub struct MemSink {
    bytes: Vec<u8>,
    piece: usize,
    fails: Vec<u64>,
    calls: u64,
    faults: u64,
}

impl Model for MemSink {
    ghost use Rattle.std.specs.Prelude.{◌<◌};
    ghost use Rattle.eir_io.specs.Sinks.{MemorySink};

    ghost Value = { MemorySink };

    ghost view = { λ s. record {
      written = s.bytes.items;
      piece = s.piece;
      fails = s.fails.items;
      calls = s.calls;
      faults = s.faults;
    } };

    ghost invariant = { λ s. 0 < s.piece };
}

impl MemSink {
    /// A sink to which nothing was written. A write takes at most `piece` bytes.
    pub fn new(alloc: Global, piece: usize, fails: Vec<u64>) -> MemSink
        requires { 0 < piece }
        ensures { result ≡ record { written = []; piece = piece; fails = fails.items; calls = 0; faults = 0 } }
    {
        MemSink {
            bytes: Vec::new(alloc),
            piece,
            fails,
            calls: 0,
            faults: 0,
        }
    }

    /// What was written, lent.
    pub fn written(&self) -> &[u8]
        ensures { result.now ≡ self.now.written }
    {
        &self.bytes
    }
}

impl Sink for MemSink {
    ghost written = { λ s. Some s.written };

    ghost faults = { λ s. s.faults };

    fn write(&mut self, bytes: &[u8]) -> Result<usize, Stop>
        ensures bound { WritesAtMost result bytes.now }
        ensures bytes { WriteAppends (Some self.old.written) (Some self.new.written) result bytes.now }
        ensures some { IfOk result (λ count. count ≡ 0 → bytes.now ≡ []) }
        ensures cause { HasStopCause self.old.faults self.new.faults result }

        // What happens, call by call. A write for which there was no memory is a call, and no fault.
        ensures fails { IsErrOf result Stop.Failed ↔ Contains self.old.fails (raised self.old.calls) }
        ensures count { IfOk result (λ count. count ≡ min self.old.piece (length bytes.now)) }
        ensures ok { IfOk result (λ count. self.new ≡ sink_after_write self.old count bytes.now) }
        ensures failed { IsErrOf result Stop.Failed → self.new ≡ sink_after_fault self.old }
        ensures memory { IsErrOf result Stop.Memory → self.new ≡ record self.old { calls = raised self.old.calls } }
    {
        self.calls = self.calls.saturating_add(1);
        if self.fails.contains(&self.calls) {
            self.faults = self.faults.saturating_add(1);
            return Err(Stop::Failed);
        }
        let count = bytes.len().min(self.piece);
        self.bytes.extend_from_slice(&bytes[..count])?;
        Ok(count)
    }
}
