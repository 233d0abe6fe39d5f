//! A script that is answered while it is read.
ghost use Rattle.std.specs.Prelude.{◌≡◌, ◌⊎◌, ◌≤◌, ◌+◌, ◌++◌, false, List, [], ℕ, length, take, Err, IfOk, OnOk, OnErr, IsTrue};
ghost use Rattle.std.specs.Io.KnownBytes.{Appends};
ghost use Rattle.eir_io.specs.Causes.{HasStopCause};
ghost use Rattle.eir_script.specs.Lines.{last_line, trimmed};
ghost use Rattle.eir_script.specs.Pieces.{Holds, nothing_taken};
ghost use Rattle.eirene.specs.Outcomes.{AppendsPrefix, AppendsBut};
ghost use Rattle.eir_print.specs.declared.refusal.Refusal.TheVariants as refusal;
ghost use Rattle.eirene.specs.Workspaces.{empty_workspace, kind_of};
ghost use Rattle.eirene.specs.Replies.{next, reply_to};
ghost use Rattle.eirene.specs.Answers.{IsAnswer};
ghost use Rattle.eirene.specs.Scripts.{line_reply, replies};
ghost use Rattle.eirene.specs.Steps.{AnswersLines, AnswersPiece, IsIdle, cut_on};
ghost use Rattle.eirene.specs.Versions.{HasVersions};

use crate::outbox::Outbox;
use crate::reply::{add_refusal, add_reply};
use crate::workspace::Workspace;
use eir_io::{Sink, Stop};
use eir_print::{Refusal, Reply};
use eir_script::{Cutter, LineBytes};
use eir_term::Memory;
use std::alloc::Global;

/// What a script has after some of its bytes: the workspace that its lines left, the line that is not ended, and the
/// replies that are not written.
#[derive(Drop)]
pub struct Script {
    alloc: Global,
    workspace: Workspace,
    cutter: Cutter,
    pending: Outbox,
}

impl Script {
    /// A script of which nothing was read.
    pub fn new(alloc: Global) -> Result<Script, Memory>
        ensures workspace { IfOk result (λ s. s.workspace ≡ empty_workspace) }
        ensures cutter { IfOk result (λ s. s.cutter ≡ nothing_taken) }
        ensures pending { IfOk result (λ s. s.pending ≡ []) }
    {
        Ok(Script {
            alloc,
            workspace: Workspace::new(alloc),
            cutter: Cutter::new(alloc)?,
            pending: Outbox::new(alloc)?,
        })
    }

    /// Answers each line that these bytes end, and writes the replies.
    pub fn take<K: Sink>(&mut self, bytes: &[u8], out: &mut K) -> Result<(), Stop>
        requires idle { IsIdle self.old }
        requires held { (tail : List ℕ) × Holds self.old.cutter tail }
        requires versions { HasVersions self.old.workspace (length bytes.now) }
        ensures ok { (tail : List ℕ) → Holds self.old.cutter tail →
            OnOk result (AnswersLines self.old self.new (K.written out.old) (K.written out.new) tail bytes.now) }
        ensures err { (tail : List ℕ) → Holds self.old.cutter tail →
            OnErr result (AppendsPrefix (K.written out.old) (K.written out.new)
            (replies self.old.workspace (cut_on tail bytes.now).whole)) }
        ensures cause { HasStopCause (K.faults out.old) (K.faults out.new) result }
    {
        let mut rest = bytes;
        while !rest.is_empty() {
            let taken = self.take_line(rest, out)?;
            rest = &rest[taken..];
        }
        self.pending.flush(out)
    }

    /// Takes the bytes up to the end of the line, or all where there is none, and answers the line that they end. The
    /// reply is pending. Says how many bytes were taken.
    fn take_line<K: Sink>(&mut self, bytes: &[u8], out: &mut K) -> Result<usize, Stop>
        requires unended { self.old.cutter.ended ≡ false }
        requires held { (tail : List ℕ) × Holds self.old.cutter tail }
        requires some { 1 ≤ length bytes.now }
        requires versions { HasVersions self.old.workspace 1 }
        ensures some { IfOk result (λ n. (1 ≤ n) × (n ≤ length bytes.now)) }
        ensures unended { OnOk result (self.new.cutter.ended ≡ false) }
        ensures versions { OnOk result (self.new.workspace.work.drawn ≤ self.old.workspace.work.drawn + 1) }
        ensures ok { (tail : List ℕ) → Holds self.old.cutter tail → IfOk result (λ n.
            AnswersPiece self.old self.new (K.written out.old) (K.written out.new) tail (take n bytes.now)) }
        ensures err { (tail : List ℕ) → Holds self.old.cutter tail →
            OnErr result (AppendsPrefix (K.written out.old) (K.written out.new)
            (self.old.pending ++ replies self.old.workspace (cut_on tail bytes.now).whole)) }
        ensures cause { HasStopCause (K.faults out.old) (K.faults out.new) result }
    {
        let fed = self.cutter.feed(bytes);
        if !fed.line {
            return Ok(fed.taken);
        }
        self.answer(out)?;
        Ok(fed.taken)
    }

    /// Answers the last line, where no line feed ends it, and writes the reply.
    pub fn end<K: Sink>(&mut self, out: &mut K) -> Result<(), Stop>
        requires idle { IsIdle self.old }
        requires versions { HasVersions self.old.workspace 1 }
        ensures ok { (tail : List ℕ) → Holds self.old.cutter tail →
            OnOk result (Appends (K.written out.old) (K.written out.new)
            (replies self.old.workspace (last_line tail))) }
        ensures err { (tail : List ℕ) → Holds self.old.cutter tail →
            OnErr result (AppendsPrefix (K.written out.old) (K.written out.new)
            (replies self.old.workspace (last_line tail))) }
        ensures cause { HasStopCause (K.faults out.old) (K.faults out.new) result }
    {
        if self.cutter.empty() {
            return Ok(());
        }
        self.answer(out)?;
        self.pending.flush(out)
    }

    /// Answers the line that was taken, and begins a new one. The reply is pending.
    fn answer<K: Sink>(&mut self, out: &mut K) -> Result<(), Stop>
        requires { HasVersions self.old.workspace 1 }
        ensures ok { (line : List ℕ) → Holds self.old.cutter line →
            OnOk result (AppendsBut (K.written out.old) (K.written out.new) self.new.pending
            (self.old.pending ++ line_reply self.old.workspace (trimmed line))) }
        ensures next { (line : List ℕ) → Holds self.old.cutter line →
            OnOk result (self.new.workspace ≡ next (trimmed line) self.old.workspace) }
        ensures begun { OnOk result (self.new.cutter ≡ nothing_taken) }
        ensures err { (line : List ℕ) → Holds self.old.cutter line →
            OnErr result (AppendsPrefix (K.written out.old) (K.written out.new)
            (self.old.pending ++ line_reply self.old.workspace (trimmed line))) }
        ensures cause { HasStopCause (K.faults out.old) (K.faults out.new) result }
    {
        if self.has_no_bytes() {
            self.cutter.next();
            return Ok(());
        }
        let reply = self.reply();
        self.cutter.next();
        match reply {
            Ok(None) => Ok(()),
            Ok(Some(reply)) => add_reply(
                self.alloc,
                &reply,
                &self.workspace,
                &mut self.pending,
                out,
            ),
            Err(refusal) => add_refusal(&refusal, &mut self.pending, out),
        }
    }

    /// Whether the line that was taken has no bytes. Such a line asks nothing.
    fn has_no_bytes(&self) -> bool
        ensures { (line : List ℕ) → Holds self.now.cutter line → IsTrue result → trimmed line ≡ [] }
    {
        match self.cutter.line() {
            LineBytes::Bytes(line) => line.is_empty(),
            LineBytes::Long => false,
        }
    }

    /// What the line that was taken is answered; the workspace is that after it.
    fn reply(&mut self) -> Result<Option<Reply>, Refusal>
        requires { HasVersions self.old.workspace 1 }
        ensures answer { (line : List ℕ) → Holds self.old.cutter line →
            IsAnswer result (reply_to (trimmed line) self.old.workspace) (kind_of self.new.workspace) }
        ensures next { (line : List ℕ) → Holds self.old.cutter line →
            (result ≡ Err refusal.Memory) ⊎ (self.new.workspace ≡ next (trimmed line) self.old.workspace) }
        ensures cutter { self.new.cutter ≡ self.old.cutter }
        ensures pending { self.new.pending ≡ self.old.pending }
    {
        match self.cutter.line() {
            LineBytes::Bytes(line) => self.workspace.answer(line),
            LineBytes::Long => Err(Refusal::Line),
        }
    }
}
