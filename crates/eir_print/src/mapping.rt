//! The texts of mappings.
ghost use Rattle.std.specs.Prelude.{◌≡◌, ◌++◌, OnOk, OnErr, Some, slice_get};
ghost use Rattle.eir_print.specs.Prefixes.{AppendsPrefix};
ghost use Rattle.eir_print.specs.Words.{text_at};
ghost use Rattle.eir_print.specs.Dependencies.{dependency_line, mapping_text};

use crate::opening::Opening;
use eir_dep::{Dep, Mapping};
use eir_schema::Schema;
use eir_term::{Memory, Text};
use std::alloc::Global;

/// Appends each dependency on a line. The dependencies of an example in a canonical GAV mapping have one premise, whose
/// text is made once.
pub(crate) fn print_mapping(
    alloc: Global,
    mapping: &Mapping,
    schema: &Schema,
    out: &mut Text,
) -> Result<(), Memory>
    ensures ok { OnOk result (out.new ≡ out.old ++ mapping_text schema.now mapping.now) }
    ensures err { OnErr result (AppendsPrefix out.old out.new (mapping_text schema.now mapping.now)) }
{
    match mapping.dep(0) {
        Some(first) => print_lines(alloc, first, mapping, schema, out),
        None => Ok(()),
    }
}

/// The same, where the first dependency is known.
fn print_lines<'a>(
    alloc: Global,
    first: &'a Dep,
    mapping: &'a Mapping,
    schema: &'a Schema,
    out: &mut Text,
) -> Result<(), Memory>
    requires { Some first.now ≡ slice_get mapping.now 0 }
    ensures ok { OnOk result (out.new ≡ out.old ++ mapping_text schema.now mapping.now) }
    ensures err { OnErr result (AppendsPrefix out.old out.new (mapping_text schema.now mapping.now)) }
{
    let mut opening = Opening::new(alloc, first, schema)?;
    opening.print_line(first, out)?;
    for place in 1..mapping.len() {
        print_line_at(alloc, place, mapping, &mut opening, out)?;
    }
    Ok(())
}

/// Appends the dependency at a place on a line.
fn print_line_at<'a>(
    alloc: Global,
    place: usize,
    mapping: &'a Mapping,
    opening: &mut Opening<'a>,
    out: &mut Text,
) -> Result<(), Memory>
    ensures ok { OnOk result (out.new ≡ out.old ++ text_at (dependency_line opening.old.1) mapping.now place) }
    ensures err { OnErr result (AppendsPrefix out.old out.new
        (text_at (dependency_line opening.old.1) mapping.now place)) }
    ensures schema { opening.new.1 ≡ opening.old.1 }
{
    match mapping.dep(place) {
        Some(dep) => {
            opening.turn_to(alloc, dep)?;
            opening.print_line(dep, out)
        }
        None => Ok(()),
    }
}
