//! The texts of verdicts.
ghost use Rattle.std.specs.Prelude.{◌≡◌, ◌++◌, ◌∷◌, [], OnOk, OnErr, filter, flat_map};
ghost use Rattle.eir_term.specs.declared.val.Val.TheVariants.{Const};
ghost use Rattle.eir_term.specs.Values.{is_const};
ghost use Rattle.eir_term.specs.Maps.{image};
ghost use Rattle.eir_verdict.specs.Findings.{finding_of};
ghost use Rattle.eir_print.specs.Prefixes.{AppendsPrefix};
ghost use Rattle.eir_edit.specs.Pairs.{examples_of};
ghost use Rattle.eir_print.specs.Verdicts.{example_text, source_at, constant_text, moved_text, moves_text};
ghost use Rattle.eir_print.specs.Verdicts.{domain_text, fold_text, refuted_text, fits_text, finding_text};

use crate::fact::{Nulls, print_value};
use crate::mapping::print_mapping;
use crate::words::{kind_word, print_counted};
use eir_dep::Mapping;
use eir_edit::Example;
use eir_inst::Instance;
use eir_schema::{Names, Schema};
use eir_term::{Kind, Map, Memory, Text, Val};
use eir_verdict::Verdict;
use std::alloc::Global;
use std::rc::Rc;

/// Appends what a fit for the kind found.
pub(crate) fn print_verdict(
    alloc: Global,
    kind: Kind,
    verdict: &Verdict,
    schema: &Schema,
    names: &Names,
    examples: &[Rc<Example>],
    out: &mut Text,
) -> Result<(), Memory>
    ensures ok { OnOk result (out.new ≡ out.old
        ++ finding_text kind schema.now names.now (examples_of examples.now) (finding_of verdict.now)) }
    ensures err { OnErr result (AppendsPrefix out.old out.new
        (finding_text kind schema.now names.now (examples_of examples.now) (finding_of verdict.now))) }
{
    match verdict {
        Verdict::Domain { example, constant } => {
            print_domain(*example, *constant, names, examples, out)
        }
        Verdict::Fold { example } => print_fold(*example, examples, out),
        Verdict::Refuted { first, second, map } => {
            print_refuted(*first, *second, map, names, examples, out)
        }
        Verdict::Fits(mapping) => print_fits(alloc, kind, mapping, schema, out),
    }
}

/// Appends the example and its foreign constant.
fn print_domain(
    example: usize,
    constant: u64,
    names: &Names,
    examples: &[Rc<Example>],
    out: &mut Text,
) -> Result<(), Memory>
    ensures ok { OnOk result (out.new ≡ out.old
        ++ domain_text names.now (examples_of examples.now) example (Const constant)) }
    ensures err { OnErr result (AppendsPrefix out.old out.new
        (domain_text names.now (examples_of examples.now) example (Const constant))) }
{
    out.push_all(b"domain ")?;
    print_example(example, examples, out)?;
    out.push_all(b" ")?;
    print_constant(Val::Const(constant), names, out)?;
    out.push_all(b"\n")
}

/// Appends the example whose target does not fold.
fn print_fold(example: usize, examples: &[Rc<Example>], out: &mut Text) -> Result<(), Memory>
    ensures ok { OnOk result (out.new ≡ out.old ++ fold_text (examples_of examples.now) example) }
    ensures err { OnErr result (AppendsPrefix out.old out.new (fold_text (examples_of examples.now) example)) }
{
    out.push_all(b"fold ")?;
    print_example(example, examples, out)?;
    out.push_all(b"\n")
}

/// Appends the two examples, and where the map sends the constants of the first one's source.
fn print_refuted(
    first: usize,
    second: usize,
    map: &Map,
    names: &Names,
    examples: &[Rc<Example>],
    out: &mut Text,
) -> Result<(), Memory>
    ensures ok { OnOk result (out.new ≡ out.old
        ++ refuted_text names.now (examples_of examples.now) first second map.now) }
    ensures err { OnErr result (AppendsPrefix out.old out.new
        (refuted_text names.now (examples_of examples.now) first second map.now)) }
{
    out.push_all(b"refuted ")?;
    print_example(first, examples, out)?;
    out.push_all(b" ")?;
    print_example(second, examples, out)?;
    print_moves_at(first, map, names, examples, out)?;
    out.push_all(b"\n")
}

/// Appends the kind, the number of dependencies, and each of them on a line.
fn print_fits(
    alloc: Global,
    kind: Kind,
    mapping: &Mapping,
    schema: &Schema,
    out: &mut Text,
) -> Result<(), Memory>
    ensures ok { OnOk result (out.new ≡ out.old ++ fits_text kind schema.now mapping.now) }
    ensures err { OnErr result (AppendsPrefix out.old out.new (fits_text kind schema.now mapping.now)) }
{
    out.push_all(b"fits ")?;
    print_counted(kind_word(kind), mapping.len() as u64, out)?;
    print_mapping(alloc, mapping, schema, out)
}

/// Appends the name of the example at a place.
fn print_example(place: usize, examples: &[Rc<Example>], out: &mut Text) -> Result<(), Memory>
    ensures ok { OnOk result (out.new ≡ out.old ++ example_text (examples_of examples.now) place) }
    ensures err { OnErr result (AppendsPrefix out.old out.new (example_text (examples_of examples.now) place)) }
{
    match examples.get(place) {
        Some(example) => out.push_all(example.name.bytes()),
        None => Ok(()),
    }
}

/// Appends where the map sends the constants of the source of the example at a place.
fn print_moves_at(
    place: usize,
    map: &Map,
    names: &Names,
    examples: &[Rc<Example>],
    out: &mut Text,
) -> Result<(), Memory>
    ensures ok { OnOk result (out.new ≡ out.old
        ++ moves_text names.now map.now (source_at (examples_of examples.now) place)) }
    ensures err { OnErr result (AppendsPrefix out.old out.new
        (moves_text names.now map.now (source_at (examples_of examples.now) place))) }
{
    match examples.get(place) {
        Some(example) => print_moves(&example.source, map, names, out),
        None => Ok(()),
    }
}

/// Appends where the map sends the constants of the instance, by first occurrence.
fn print_moves(instance: &Instance, map: &Map, names: &Names, out: &mut Text) -> Result<(), Memory>
    ensures ok { OnOk result (out.new ≡ out.old ++ moves_text names.now map.now instance.now.facts) }
    ensures err { OnErr result (AppendsPrefix out.old out.new (moves_text names.now map.now instance.now.facts)) }
{
    let facts = instance.indexed()?;
    print_moved_constants(facts.values(), map, names, out)
}

/// Appends where the map sends those of the values that are constants.
fn print_moved_constants(
    values: &[Val],
    map: &Map,
    names: &Names,
    out: &mut Text,
) -> Result<(), Memory>
    ensures ok { OnOk result (out.new ≡ out.old
        ++ flat_map (moved_text names.now map.now) (filter is_const values.now)) }
    ensures err { OnErr result (AppendsPrefix out.old out.new
        (flat_map (moved_text names.now map.now) (filter is_const values.now))) }
{
    for (place, value) in values.iter().enumerate() {
        if value.is_const() {
            print_moved(place, *value, map, names, out)?;
        }
    }
    Ok(())
}

/// Appends a space, the constant, an arrow, and its image, which is looked for at a place of the map first.
fn print_moved(
    place: usize,
    constant: Val,
    map: &Map,
    names: &Names,
    out: &mut Text,
) -> Result<(), Memory>
    ensures ok { OnOk result (out.new ≡ out.old ++ moved_text names.now map.now constant) }
    ensures err { OnErr result (AppendsPrefix out.old out.new (moved_text names.now map.now constant)) }
{
    out.push_all(b" ")?;
    print_constant(constant, names, out)?;
    out.push_all(b"->")?;
    print_constant(image_near(place, constant, map), names, out)
}

/// The image of a value, which stays where it has none. A map of a search has it at the place of the value.
fn image_near(place: usize, value: Val, map: &Map) -> Val
    ensures { result ≡ image map.now value }
{
    let _pairs = map.as_slice();
    match map.pair(place) {
        Some((from, to)) if from == value => to,
        _ => map.get(value).unwrap_or(value),
    }
}

/// Appends a constant by its name. A null has a question mark in front.
fn print_constant(value: Val, names: &Names, out: &mut Text) -> Result<(), Memory>
    ensures ok { OnOk result (out.new ≡ out.old ++ constant_text names.now value) }
    ensures err { OnErr result (AppendsPrefix out.old out.new (constant_text names.now value)) }
{
    print_value(Nulls::Named, value, names, out)
}
