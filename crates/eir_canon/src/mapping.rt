//! The canonical mapping of a list of examples.
ghost use Rattle.std.specs.Prelude.{◌≡◌, ◌++◌, None, IfOk, OnOk};
ghost use Rattle.eir_term.specs.Instances.{IsSource};
ghost use Rattle.eir_term.specs.Canonical.{canon};
ghost use Rattle.eir_term.specs.Headline.{AllSources};
ghost use Rattle.eir_term.specs.Verdicts.{domain_finding};
ghost use Rattle.eir_edit.specs.Pairs.{pair_of, paired, pairs_of};
ghost use Rattle.eir_canon.specs.Parts.{HasNoForeign, dependencies_of};

use crate::gav::push_gav;
use crate::glav::push_glav;
use eir_dep::Mapping;
use eir_edit::Example;
use eir_inst::Indexed;
use eir_term::{Kind, Memory};
use std::alloc::Global;
use std::rc::Rc;

/// The canonical mapping of the kind. No source has a null, and no constant of a target is foreign to its source. It
/// costs what it is long: each dependency has atoms of its own, and those of a GAV mapping copies of its premise.
///
/// # Errors
/// `Memory` alone. An example with more variables than 32 bits number, which no memory holds, is refused so too.
pub fn canonical(alloc: Global, kind: Kind, examples: &[Rc<Example>]) -> Result<Mapping, Memory>
    requires sources { AllSources (pairs_of examples.now) }
    requires none_foreign { domain_finding (pairs_of examples.now) ≡ None }
    ensures { IfOk result (λ m. m ≡ canon kind (pairs_of examples.now)) }
{
    let mut mapping = Mapping::new(alloc);
    for example in examples {
        push_dependencies(alloc, kind, &mut mapping, example)?;
    }
    Ok(mapping)
}

/// Appends the dependencies of an example.
fn push_dependencies(
    alloc: Global,
    kind: Kind,
    mapping: &mut Mapping,
    example: &Example,
) -> Result<(), Memory>
    requires clean { IsSource example.now.source }
    requires known { HasNoForeign (pair_of example.now) }
    ensures { OnOk result (mapping.new ≡ mapping.old ++ dependencies_of kind (pair_of example.now)) }
{
    let source = example.source.indexed()?;
    let target = example.target.indexed()?;
    push_between(alloc, kind, mapping, &source, &target)
}

/// The same of the example's facts with their index.
fn push_between(
    alloc: Global,
    kind: Kind,
    mapping: &mut Mapping,
    source: &Indexed,
    target: &Indexed,
) -> Result<(), Memory>
    requires clean { IsSource source.now.facts }
    requires known { HasNoForeign (paired source.now.facts target.now.facts) }
    ensures { OnOk result (mapping.new ≡ mapping.old
        ++ dependencies_of kind (paired source.now.facts target.now.facts)) }
{
    match kind {
        Kind::Glav => push_glav(alloc, mapping, source, target),
        Kind::Gav => push_gav(alloc, mapping, source, target),
    }
}
