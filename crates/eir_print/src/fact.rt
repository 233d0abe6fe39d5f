//! The texts of facts.
ghost use Rattle.std.specs.Prelude.{◌≡◌, ◌++◌, OnOk, OnErr, codes, flat_map};
ghost use Rattle.eir_print.specs.declared.fact.Nulls.TheVariants.{Named};
ghost use Rattle.eir_print.specs.Prefixes.{AppendsPrefix};
ghost use Rattle.eir_print.specs.Words.{joined};
ghost use Rattle.eir_print.specs.Facts.{null_text, value_text, fact_text};

use crate::words::{print_name, print_number, print_relation};
use eir_schema::{Names, Schema};
use eir_term::{Fact, Memory, Text, Val};

/// How nulls are told.
#[derive(Clone, Copy, Debug, PartialEq, Eq)]
pub(crate) enum Nulls {
    /// By their names, as the nulls of an example.
    Named,
    /// By their numbers, as those of a chase, which have no names.
    Numbered,
}

/// Appends a fact: the name of its relation, and its values in brackets. A constant is its name; a null is its name
/// with a question mark in front.
///
/// # Errors
/// `Memory`, which leaves a prefix of the text behind what there was.
pub fn print_fact(fact: &Fact, schema: &Schema, names: &Names, out: &mut Text) -> Result<(), Memory>
    ensures ok { OnOk result (out.new ≡ out.old ++ fact_text Named schema.now names.now fact.now) }
    ensures err { OnErr result (AppendsPrefix out.old out.new (fact_text Named schema.now names.now fact.now)) }
{
    print_fact_with(Nulls::Named, fact, schema, names, out)
}

/// Appends a fact, whose nulls are told so.
pub(crate) fn print_fact_with(
    nulls: Nulls,
    fact: &Fact,
    schema: &Schema,
    names: &Names,
    out: &mut Text,
) -> Result<(), Memory>
    ensures ok { OnOk result (out.new ≡ out.old ++ fact_text nulls schema.now names.now fact.now) }
    ensures err { OnErr result (AppendsPrefix out.old out.new (fact_text nulls schema.now names.now fact.now)) }
{
    print_relation(fact.rel, schema, out)?;
    out.push_all(b"(")?;
    print_values(nulls, fact.args.as_slice(), names, out)?;
    out.push_all(b")")
}

/// Appends the values, with commas between them.
fn print_values(nulls: Nulls, values: &[Val], names: &Names, out: &mut Text) -> Result<(), Memory>
    ensures ok { OnOk result (out.new ≡ out.old ++ joined (codes ",") (value_text nulls names.now) values.now) }
    ensures err { OnErr result (AppendsPrefix out.old out.new
        (joined (codes ",") (value_text nulls names.now) values.now)) }
{
    let [first, rest @ ..] = values else {
        return Ok(());
    };
    print_value(nulls, *first, names, out)?;
    print_further_values(nulls, rest, names, out)
}

/// Appends the values, with a comma in front of each.
fn print_further_values(
    nulls: Nulls,
    values: &[Val],
    names: &Names,
    out: &mut Text,
) -> Result<(), Memory>
    ensures ok { OnOk result (out.new ≡ out.old
        ++ flat_map (λ v. codes "," ++ value_text nulls names.now v) values.now) }
    ensures err { OnErr result (AppendsPrefix out.old out.new
        (flat_map (λ v. codes "," ++ value_text nulls names.now v) values.now)) }
{
    for value in values {
        print_further_value(nulls, *value, names, out)?;
    }
    Ok(())
}

/// Appends a comma and the value.
fn print_further_value(
    nulls: Nulls,
    value: Val,
    names: &Names,
    out: &mut Text,
) -> Result<(), Memory>
    ensures ok { OnOk result (out.new ≡ out.old ++ (codes "," ++ value_text nulls names.now value)) }
    ensures err { OnErr result (AppendsPrefix out.old out.new (codes "," ++ value_text nulls names.now value)) }
{
    out.push_all(b",")?;
    print_value(nulls, value, names, out)
}

/// Appends a constant by its name, and a null with a question mark in front.
pub(crate) fn print_value(
    nulls: Nulls,
    value: Val,
    names: &Names,
    out: &mut Text,
) -> Result<(), Memory>
    ensures ok { OnOk result (out.new ≡ out.old ++ value_text nulls names.now value) }
    ensures err { OnErr result (AppendsPrefix out.old out.new (value_text nulls names.now value)) }
{
    match value {
        Val::Const(number) | Val::Fixed(number) => print_name(number, names, out),
        Val::Null(number) => {
            out.push_all(b"?")?;
            print_null(nulls, number, names, out)
        }
    }
}

/// Appends the name or the number of a null.
fn print_null(nulls: Nulls, number: u64, names: &Names, out: &mut Text) -> Result<(), Memory>
    ensures ok { OnOk result (out.new ≡ out.old ++ null_text nulls names.now number) }
    ensures err { OnErr result (AppendsPrefix out.old out.new (null_text nulls names.now number)) }
{
    match nulls {
        Nulls::Named => print_name(number, names, out),
        Nulls::Numbered => print_number(number, out),
    }
}
