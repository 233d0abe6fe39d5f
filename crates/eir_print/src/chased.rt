//! The reply of a chase.
ghost use Rattle.std.specs.Prelude.{◌≡◌, ◌++◌, OnOk, OnErr, flat_map};
ghost use Rattle.eir_print.specs.Prefixes.{AppendsPrefix};
ghost use Rattle.eir_print.specs.Words.{text_at};
ghost use Rattle.eir_print.specs.Facts.{chased_line, chased_text};

use crate::fact::{Nulls, print_fact_with};
use crate::words::print_counted;
use eir_inst::Instance;
use eir_schema::{Names, Schema};
use eir_term::{Memory, Text};

/// Appends the name of the example, the number of facts, and each fact on a line.
pub(crate) fn print_chased(
    name: &Text,
    facts: &Instance,
    schema: &Schema,
    names: &Names,
    out: &mut Text,
) -> Result<(), Memory>
    ensures ok { OnOk result (out.new ≡ out.old ++ chased_text schema.now names.now name.now facts.now.facts) }
    ensures err { OnErr result (AppendsPrefix out.old out.new
        (chased_text schema.now names.now name.now facts.now.facts)) }
{
    out.push_all(b"chase ")?;
    print_counted(name.bytes(), facts.len() as u64, out)?;
    print_facts(facts, schema, names, out)
}

/// Appends each fact on a line.
fn print_facts(
    facts: &Instance,
    schema: &Schema,
    names: &Names,
    out: &mut Text,
) -> Result<(), Memory>
    ensures ok { OnOk result (out.new ≡ out.old ++ flat_map (chased_line schema.now names.now) facts.now.facts) }
    ensures err { OnErr result (AppendsPrefix out.old out.new
        (flat_map (chased_line schema.now names.now) facts.now.facts)) }
{
    for place in 0..facts.len() {
        print_fact_at(place, facts, schema, names, out)?;
    }
    Ok(())
}

/// Appends the fact at a place on a line.
fn print_fact_at(
    place: usize,
    facts: &Instance,
    schema: &Schema,
    names: &Names,
    out: &mut Text,
) -> Result<(), Memory>
    ensures ok { OnOk result (out.new ≡ out.old
        ++ text_at (chased_line schema.now names.now) facts.now.facts place) }
    ensures err { OnErr result (AppendsPrefix out.old out.new
        (text_at (chased_line schema.now names.now) facts.now.facts place)) }
{
    match facts.fact(place) {
        Some(fact) => {
            print_fact_with(Nulls::Numbered, fact, schema, names, out)?;
            out.push_all(b"\n")
        }
        None => Ok(()),
    }
}
