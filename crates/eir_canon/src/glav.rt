//! The dependency of an example in a GLAV mapping.
ghost use Rattle.std.specs.Prelude.{◌≡◌, ◌++◌, IfOk, OnOk};
ghost use Rattle.eir_term.specs.Instances.{IsSource};
ghost use Rattle.eir_term.specs.Dependencies.{IsDependency};
ghost use Rattle.eir_term.specs.Canonical.{glav_dependency, unless_empty};
ghost use Rattle.eir_edit.specs.Pairs.{paired};
ghost use Rattle.eir_canon.specs.Parts.{HasNoForeign};

use crate::variables::Variables;
use eir_dep::{Dep, Mapping};
use eir_inst::Indexed;
use eir_term::Memory;
use std::alloc::Global;

/// Appends that all source facts imply all target facts, where there is a target fact.
pub(crate) fn push_glav(
    alloc: Global,
    mapping: &mut Mapping,
    source: &Indexed,
    target: &Indexed,
) -> Result<(), Memory>
    requires clean { IsSource source.now.facts }
    requires known { HasNoForeign (paired source.now.facts target.now.facts) }
    ensures { OnOk result (mapping.new ≡ mapping.old
        ++ unless_empty target.now.facts (glav_dependency (paired source.now.facts target.now.facts))) }
{
    match target.as_slice() {
        [] => Ok(()),
        [_, ..] => mapping.push(glav_dependency(alloc, source, target)?),
    }
}

/// All source facts imply all target facts, with a variable for each constant of the source and an existential one for
/// each null of the target.
fn glav_dependency(alloc: Global, source: &Indexed, target: &Indexed) -> Result<Dep, Memory>
    requires { IsDependency (glav_dependency (paired source.now.facts target.now.facts)) }
    ensures { IfOk result (λ d. d ≡ glav_dependency (paired source.now.facts target.now.facts)) }
{
    let mut variables = Variables::of_constants(alloc, source)?;
    let exists = variables.add_nulls(alloc, target)?;
    let premise = variables.atoms(alloc, source.as_slice())?;
    let conclusion = variables.atoms(alloc, target.as_slice())?;
    match Dep::new(premise, exists, conclusion) {
        Ok(dep) => Ok(dep),
        Err(_) => unreachable!(),
    }
}
