//! The texts of what lines are answered, in the outbox.
ghost use Rattle.std.specs.Prelude.{◌≡◌, ◌++◌, List, ℕ, Some, OnOk, OnErr};
ghost use Rattle.eir_io.specs.Causes.{HasStopCause};
ghost use Rattle.eir_print.specs.declared.refusal.Refusal.TheVariants as cause;
ghost use Rattle.eir_print.specs.Refusals.{refusal_text};
ghost use Rattle.eirene.specs.Workspaces.{kind_of};
ghost use Rattle.eirene.specs.Replies.{Answer};
ghost use Rattle.eirene.specs.Answers.{IsReply};
ghost use Rattle.eirene.specs.Outcomes.{AppendsPrefix, AppendsBut};
ghost use Rattle.eirene.specs.Texts.{reply_text};

use crate::outbox::Outbox;
use crate::workspace::Workspace;
use eir_io::{Sink, Stop};
use eir_print::{Refusal, Reply, print_refusal, print_reply};
use std::alloc::Global;

/// Adds the text of a reply to what is pending.
#[inline(never)]
pub fn add_reply<K: Sink>(
    alloc: Global,
    reply: &Reply,
    workspace: &Workspace,
    pending: &mut Outbox,
    out: &mut K,
) -> Result<(), Stop>
    ensures ok { (a : Answer) → IsReply reply.now a (kind_of workspace.now)
        → OnOk result (AppendsBut (K.written out.old) (K.written out.new) pending.new
        (pending.old ++ reply_text workspace.now (Some a))) }
    ensures err { (a : Answer) → IsReply reply.now a (kind_of workspace.now)
        → OnErr result (AppendsPrefix (K.written out.old) (K.written out.new)
        (pending.old ++ reply_text workspace.now (Some a))) }
    ensures cause { HasStopCause (K.faults out.old) (K.faults out.new) result }
{
    print_reply(
        alloc,
        reply,
        &workspace.schema,
        &workspace.names,
        workspace.examples.list(),
        &mut pending.text,
    )?;
    pending.settle(out)
}

/// Adds the text of a refusal to what is pending. Want of memory has none, and is told as such.
#[inline(never)]
pub fn add_refusal<K: Sink>(
    refusal: &Refusal,
    pending: &mut Outbox,
    out: &mut K,
) -> Result<(), Stop>
    ensures told { OnOk result (refusal.now ≡ cause.Memory → ⊥) }
    ensures ok { OnOk result (AppendsBut (K.written out.old) (K.written out.new) pending.new
        (pending.old ++ refusal_text refusal.now)) }
    ensures err { OnErr result (AppendsPrefix (K.written out.old) (K.written out.new)
        (pending.old ++ refusal_text refusal.now)) }
    ensures cause { HasStopCause (K.faults out.old) (K.faults out.new) result }
{
    match refusal {
        Refusal::Memory => Err(Stop::Memory),
        _ => print_told(refusal, pending, out),
    }
}

/// The same of a refusal that has a text.
fn print_told<K: Sink>(refusal: &Refusal, pending: &mut Outbox, out: &mut K) -> Result<(), Stop>
    ensures ok { OnOk result (AppendsBut (K.written out.old) (K.written out.new) pending.new
        (pending.old ++ refusal_text refusal.now)) }
    ensures err { OnErr result (AppendsPrefix (K.written out.old) (K.written out.new)
        (pending.old ++ refusal_text refusal.now)) }
    ensures cause { HasStopCause (K.faults out.old) (K.faults out.new) result }
{
    print_refusal(refusal, &mut pending.text)?;
    pending.settle(out)
}
