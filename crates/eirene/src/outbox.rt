//! Replies that are made and not yet written.
ghost use Rattle.std.specs.Prelude.{◌≡◌, ◌≤◌, ◌++◌, [], List, ℕ, OnOk, OnErr, IfOk};
ghost use Rattle.std.specs.Io.KnownBytes.{Appends};
ghost use Rattle.eir_io.specs.Causes.{HasStopCause};
ghost use Rattle.eirene.specs.Outcomes.{AppendsPrefix, AppendsBut};

use eir_io::{Sink, Stop};
use eir_term::{Memory, Text};
use std::alloc::Global;
use std::marker::Model;

/// The most bytes that wait to be written.
const ROOM: usize = 65_536;

/// The texts of replies that are made and not yet written. A reply is printed behind those that wait.
#[derive(Drop)]
pub struct Outbox {
    pub text: Text,
}

impl Model for Outbox {
    ghost use Rattle.std.specs.Prelude.{List, ℕ};

    ghost Value = { List ℕ };

    ghost view = { λ o. o.text };
}

/// Writes all of a text, in as many calls as the sink wants.
fn write_all<K: Sink>(text: &[u8], out: &mut K) -> Result<(), Stop>
    ensures ok { OnOk result (Appends (K.written out.old) (K.written out.new) text.now) }
    ensures err { OnErr result (AppendsPrefix (K.written out.old) (K.written out.new) text.now) }
    ensures cause { HasStopCause (K.faults out.old) (K.faults out.new) result }
{
    let mut rest = text;
    while !rest.is_empty() {
        let count = out.write(rest)?;
        rest = &rest[count..];
    }
    Ok(())
}

impl Outbox {
    /// Nothing is pending.
    pub fn new(alloc: Global) -> Result<Outbox, Memory>
        ensures { IfOk result (λ o. o ≡ []) }
    {
        Ok(Outbox {
            text: Text::make(alloc, b"")?,
        })
    }

    /// Writes what is pending.
    pub fn flush<K: Sink>(&mut self, out: &mut K) -> Result<(), Stop>
        ensures ok { OnOk result (Appends (K.written out.old) (K.written out.new) self.old × (self.new ≡ [])) }
        ensures err { OnErr result (AppendsPrefix (K.written out.old) (K.written out.new) self.old) }
        ensures cause { HasStopCause (K.faults out.old) (K.faults out.new) result }
    {
        write_all(self.text.bytes(), out)?;
        self.text.clear();
        Ok(())
    }

    /// Writes what is pending, where it is more than may wait.
    pub fn settle<K: Sink>(&mut self, out: &mut K) -> Result<(), Stop>
        ensures ok { OnOk result (AppendsBut (K.written out.old) (K.written out.new) self.new self.old) }
        ensures err { OnErr result (AppendsPrefix (K.written out.old) (K.written out.new) self.old) }
        ensures cause { HasStopCause (K.faults out.old) (K.faults out.new) result }
    {
        if self.text.bytes().len() > ROOM {
            self.flush(out)?;
        }
        Ok(())
    }
}
