//! The texts of replies.
ghost use Rattle.std.specs.Prelude.{◌≡◌, ◌++◌, OnOk, OnErr};
ghost use Rattle.eir_print.specs.Prefixes.{AppendsPrefix};
ghost use Rattle.eir_edit.specs.Pairs.{examples_of};
ghost use Rattle.eir_print.specs.Replies.{at_text, cert_text, spent_at_text, spent_text, reply_text};

use crate::chased::print_chased;
use crate::exchange::print_exchange;
use crate::reduced::print_reduced;
use crate::verdict::print_verdict;
use crate::words::{print_counted, print_number};
use crate::{At, Reply};
use eir_edit::Example;
use eir_schema::{Names, Schema};
use eir_term::{Memory, Text};
use std::alloc::Global;
use std::rc::Rc;

/// Appends a reply. Places in a verdict are those of these examples.
///
/// # Errors
/// `Memory`, which leaves a prefix of the text behind what there was.
pub fn print_reply(
    alloc: Global,
    reply: &Reply,
    schema: &Schema,
    names: &Names,
    examples: &[Rc<Example>],
    out: &mut Text,
) -> Result<(), Memory>
    ensures ok { OnOk result (out.new ≡ out.old
        ++ reply_text schema.now names.now (examples_of examples.now) reply.now) }
    ensures err { OnErr result (AppendsPrefix out.old out.new
        (reply_text schema.now names.now (examples_of examples.now) reply.now)) }
{
    match reply {
        Reply::Done => out.push_all(b"ok\n"),
        Reply::Verdict(kind, verdict) => {
            print_verdict(alloc, *kind, verdict, schema, names, examples, out)
        }
        Reply::Spent { limit, pairs } => print_spent(*limit, *pairs, out),
        Reply::SpentAt { limit, at } => print_spent_at(*limit, *at, out),
        Reply::Tries(tries) => print_counted(b"tries", *tries, out),
        Reply::Reduced(kind, reduction) => print_reduced(alloc, *kind, reduction, schema, out),
        Reply::Chased(name, facts) => print_chased(name, facts, schema, names, out),
        Reply::Cert(file, bytes) => print_cert(file, *bytes, out),
        Reply::Exchange(files) => print_exchange(files.as_slice(), out),
    }
}

/// Appends the budget that was used up, and the number of pairs that were decided.
fn print_spent(limit: u64, pairs: u64, out: &mut Text) -> Result<(), Memory>
    ensures ok { OnOk result (out.new ≡ out.old ++ spent_text limit pairs) }
    ensures err { OnErr result (AppendsPrefix out.old out.new (spent_text limit pairs)) }
{
    out.push_all(b"spent ")?;
    print_number(limit, out)?;
    out.push_all(b" after ")?;
    print_number(pairs, out)?;
    out.push_all(b" pairs\n")
}

/// Appends the budget that was used up, and where it was.
fn print_spent_at(limit: u64, at: At, out: &mut Text) -> Result<(), Memory>
    ensures ok { OnOk result (out.new ≡ out.old ++ spent_at_text limit at) }
    ensures err { OnErr result (AppendsPrefix out.old out.new (spent_at_text limit at)) }
{
    out.push_all(b"spent ")?;
    print_number(limit, out)?;
    out.push_all(b" at ")?;
    print_at(at, out)?;
    out.push_all(b"\n")
}

/// Appends where a budget was used up.
fn print_at(at: At, out: &mut Text) -> Result<(), Memory>
    ensures ok { OnOk result (out.new ≡ out.old ++ at_text at) }
    ensures err { OnErr result (AppendsPrefix out.old out.new (at_text at)) }
{
    match at {
        At::Part(part) => {
            out.push_all(b"part ")?;
            print_number(part, out)
        }
        At::Chase => out.push_all(b"chase"),
        At::Exchange => out.push_all(b"exchange"),
        At::Cert => out.push_all(b"cert"),
    }
}

/// Appends the file of a certificate, and the number of its bytes.
fn print_cert(file: &Text, bytes: u64, out: &mut Text) -> Result<(), Memory>
    ensures ok { OnOk result (out.new ≡ out.old ++ cert_text file.now bytes) }
    ensures err { OnErr result (AppendsPrefix out.old out.new (cert_text file.now bytes)) }
{
    out.push_all(b"cert ")?;
    print_counted(file.bytes(), bytes, out)
}
