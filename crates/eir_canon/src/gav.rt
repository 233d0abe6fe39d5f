//! The dependencies of an example in a GAV mapping.
ghost use Rattle.std.specs.Prelude.{◌≡◌, ◌++◌, ◌∷◌, [], List, map, IfOk, OnOk};
ghost use Rattle.std.specs.List.{list_any};
ghost use Rattle.eir_term.specs.declared.fact.Fact.{Fact};
ghost use Rattle.eir_term.specs.Lists.{◌∈◌};
ghost use Rattle.eir_term.specs.Values.{is_null};
ghost use Rattle.eir_term.specs.Instances.{is_ground, ground_part};
ghost use Rattle.eir_term.specs.Dependencies.{IsDependency};
ghost use Rattle.eir_term.specs.Canonical.{atom_of, gav_dependency};
ghost use Rattle.eir_edit.specs.Pairs.{paired};
ghost use Rattle.eir_canon.specs.Parts.{HasNoForeign, implies};

use crate::variables::Variables;
use eir_dep::{Dep, Mapping};
use eir_inst::Indexed;
use eir_term::{Atom, Fact, Memory, Val};
use std::alloc::Global;

/// Appends that all source facts imply the fact, for each target fact without nulls, in order.
pub(crate) fn push_gav(
    alloc: Global,
    mapping: &mut Mapping,
    source: &Indexed,
    target: &Indexed,
) -> Result<(), Memory>
    requires { HasNoForeign (paired source.now.facts target.now.facts) }
    ensures { OnOk result (mapping.new ≡ mapping.old
        ++ map (gav_dependency (paired source.now.facts target.now.facts)) (ground_part target.now.facts)) }
{
    let variables = Variables::of_constants(alloc, source)?;
    let premise = variables.atoms(alloc, source.as_slice())?;
    push_implied(alloc, mapping, &variables, &premise, target.as_slice())
}

/// Appends that the premise implies the fact, for each of these facts without nulls.
fn push_implied(
    alloc: Global,
    mapping: &mut Mapping,
    variables: &Variables,
    premise: &[Atom],
    facts: &[Fact],
) -> Result<(), Memory>
    requires { (f : Fact) → f ∈ ground_part facts.now → IsDependency (implies premise.now (atom_of variables.now f)) }
    ensures { OnOk result (mapping.new ≡ mapping.old
        ++ map (λ f. implies premise.now (atom_of variables.now f)) (ground_part facts.now)) }
{
    for fact in facts {
        if is_ground(fact) {
            let conclusion = variables.atom(alloc, fact)?;
            mapping.push(implication(alloc, premise, conclusion)?)?;
        }
    }
    Ok(())
}

/// The premise, copied, implies the atom.
fn implication(alloc: Global, premise: &[Atom], conclusion: Atom) -> Result<Dep, Memory>
    requires { IsDependency (implies premise.now conclusion) }
    ensures { IfOk result (λ d. d ≡ implies premise.now conclusion) }
{
    let premise = copies(alloc, premise)?;
    let mut conclusions = Vec::with_capacity(alloc, 1)?;
    conclusions.push(conclusion)?;
    match Dep::new(premise, Vec::new(alloc), conclusions) {
        Ok(dep) => Ok(dep),
        Err(_) => unreachable!(),
    }
}

/// Equal atoms, in order.
fn copies(alloc: Global, atoms: &[Atom]) -> Result<Vec<Atom>, Memory>
    ensures { IfOk result (λ v. v.items ≡ atoms.now) }
{
    let mut copies = Vec::with_capacity(alloc, atoms.len())?;
    for atom in atoms {
        copies.push(atom.copy(alloc)?)?;
    }
    Ok(copies)
}

/// Whether the fact has no null.
fn is_ground(fact: &Fact) -> bool
    ensures { result ≡ is_ground fact.now }
{
    !has_null(fact.args.as_slice())
}

/// Whether a null is among these values.
fn has_null(values: &[Val]) -> bool
    ensures { result ≡ list_any is_null values.now }
{
    values.iter().any(|value| value.is_null())
}
