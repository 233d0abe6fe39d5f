//! The reply of a reduction.
ghost use Rattle.std.specs.Prelude.{◌≡◌, ◌++◌, ◌∷◌, [], OnOk, OnErr, length, flat_map};
ghost use Rattle.eir_print.specs.Prefixes.{AppendsPrefix};
ghost use Rattle.eir_print.specs.Words.{text_line};
ghost use Rattle.eir_print.specs.Replies.{counts_line, reduced_head, reduced_text};

use crate::mapping::print_mapping;
use crate::words::{kind_word, print_number};
use eir_dep::Mapping;
use eir_schema::Schema;
use eir_term::{Kind, Memory, Text};
use std::alloc::Global;
use std::marker::Model;

/// Why the parts of a mapping were taken away: a line for each, without its end, in the order in which they were.
#[derive(Drop)]
pub struct Reasons {
    lines: Vec<Text>,
}

impl Model for Reasons {
    ghost use Rattle.std.specs.Prelude.{List, ℕ};

    ghost Value = { List (List ℕ) };

    ghost view = { λ r. r.lines.items };
}

impl Reasons {
    /// No line.
    pub fn new(alloc: Global) -> Reasons
        ensures { result ≡ [] }
    {
        Reasons {
            lines: Vec::new(alloc),
        }
    }

    /// Puts a line behind the others.
    pub fn push(&mut self, line: Text) -> Result<(), Memory>
        ensures ok { OnOk result (self.new ≡ self.old ++ line ∷ []) }
        ensures err { OnErr result (self.new ≡ self.old) }
    {
        self.lines.push(line)?;
        Ok(())
    }

    /// The lines, lent.
    pub fn as_slice(&self) -> &[Text]
        ensures { result.now ≡ self.now }
    {
        self.lines.as_slice()
    }
}

/// A reduced mapping, with why each part was taken away.
#[derive(Drop)]
pub struct Reduction {
    pub mapping: Mapping,
    pub lines: Reasons,
}

/// Appends the kind, the numbers of dependencies and of reasons, and each of them on a line.
pub(crate) fn print_reduced(
    alloc: Global,
    kind: Kind,
    reduction: &Reduction,
    schema: &Schema,
    out: &mut Text,
) -> Result<(), Memory>
    ensures ok { OnOk result (out.new ≡ out.old ++ reduced_text kind schema.now reduction.now) }
    ensures err { OnErr result (AppendsPrefix out.old out.new (reduced_text kind schema.now reduction.now)) }
{
    let reasons = reduction.lines.as_slice();
    print_head(
        kind,
        reduction.mapping.len() as u64,
        reasons.len() as u64,
        out,
    )?;
    print_mapping(alloc, &reduction.mapping, schema, out)?;
    print_lines(reasons, out)
}

/// Appends the kind and the two numbers.
fn print_head(kind: Kind, deps: u64, reasons: u64, out: &mut Text) -> Result<(), Memory>
    ensures ok { OnOk result (out.new ≡ out.old ++ reduced_head kind deps reasons) }
    ensures err { OnErr result (AppendsPrefix out.old out.new (reduced_head kind deps reasons)) }
{
    out.push_all(b"reduced ")?;
    out.push_all(kind_word(kind))?;
    out.push_all(b" ")?;
    print_counts(deps, reasons, out)
}

/// Appends two numbers.
fn print_counts(first: u64, second: u64, out: &mut Text) -> Result<(), Memory>
    ensures ok { OnOk result (out.new ≡ out.old ++ counts_line first second) }
    ensures err { OnErr result (AppendsPrefix out.old out.new (counts_line first second)) }
{
    print_number(first, out)?;
    out.push_all(b" ")?;
    print_number(second, out)?;
    out.push_all(b"\n")
}

/// Appends each text on a line.
fn print_lines(texts: &[Text], out: &mut Text) -> Result<(), Memory>
    ensures ok { OnOk result (out.new ≡ out.old ++ flat_map text_line texts.now) }
    ensures err { OnErr result (AppendsPrefix out.old out.new (flat_map text_line texts.now)) }
{
    for text in texts {
        print_line(text, out)?;
    }
    Ok(())
}

/// Appends a text on a line.
fn print_line(text: &Text, out: &mut Text) -> Result<(), Memory>
    ensures ok { OnOk result (out.new ≡ out.old ++ text_line text.now) }
    ensures err { OnErr result (AppendsPrefix out.old out.new (text_line text.now)) }
{
    out.push_all(text.bytes())?;
    out.push_all(b"\n")
}
