//! The canonical mappings of worked examples, with ample memory. A body that always wants memory would pass the check.
ghost use Rattle.std.specs.Prelude.{◌≡◌, ◌++◌, ◌∷◌, [], None, IfOk};
ghost use Rattle.eir_term.specs.declared.val.Val.TheVariants as val;
ghost use Rattle.eir_term.specs.Headline.{AllSources};
ghost use Rattle.eir_term.specs.Verdicts.{domain_finding};
ghost use Rattle.eir_edit.specs.Pairs.{pair_of};

use crate::canonical;
use eir_dep::{Dep, Mapping};
use eir_edit::Example;
use eir_inst::Instance;
use eir_term::Val::{Const, Fixed, Null};
use eir_term::{Atom, Fact, Kind, Term, Text, Val};
use std::alloc::Global;
use std::rc::Rc;
use std::test::Fail;

/// The source relation of the examples.
const E: u32 = 0;

/// The target relation of the examples.
const P: u32 = 1;

/// The instance with no fact.
fn no_facts(alloc: Global) -> Instance
    ensures facts { result.facts ≡ [] }
    ensures limit { result.limit ≡ 512 }
{
    Instance::new(alloc, 512)
}

/// The instance with one more fact, of a relation with two columns.
fn with_fact(
    alloc: Global,
    instance: Instance,
    rel: u32,
    first: Val,
    second: Val,
) -> Result<Instance, Fail>
    ensures facts { IfOk result (λ i. i.facts
        ≡ instance.facts ++ record { rel = rel; args = first ∷ second ∷ [] } ∷ []) }
    ensures limit { IfOk result (λ i. i.limit ≡ instance.limit) }
{
    let mut instance = instance;
    instance.insert(Fact::make(alloc, rel, &[first, second])?)?;
    Ok(instance)
}

/// The example of these two instances.
fn example(alloc: Global, source: Instance, target: Instance) -> Result<Rc<Example>, Fail>
    requires source { source.limit ≡ 512 }
    requires target { target.limit ≡ 512 }
    ensures source { IfOk result (λ x. x.value.source ≡ source.facts) }
    ensures target { IfOk result (λ x. x.value.target ≡ target.facts) }
{
    let example = Example {
        name: Text::make(alloc, b"e")?,
        version: 0,
        source: Rc::new(alloc, source)?,
        target: Rc::new(alloc, target)?,
    };
    let example = Rc::new(alloc, example)?;
    Ok(example)
}

/// The source `E(c1,c2)` with the target `P(c1,?7), P(c2,c1)`.
fn plain(alloc: Global) -> Result<Rc<Example>, Fail>
    ensures source { IfOk result (λ x. x.value.source
        ≡ record { rel = 0; args = val.Const 1 ∷ val.Const 2 ∷ [] } ∷ []) }
    ensures target { IfOk result (λ x. x.value.target ≡ record { rel = 1; args = val.Const 1 ∷ val.Null 7 ∷ [] }
        ∷ record { rel = 1; args = val.Const 2 ∷ val.Const 1 ∷ [] } ∷ []) }
{
    let source = with_fact(alloc, no_facts(alloc), E, Const(1), Const(2))?;
    let target = with_fact(alloc, no_facts(alloc), P, Const(1), Null(7))?;
    let target = with_fact(alloc, target, P, Const(2), Const(1))?;
    example(alloc, source, target)
}

/// The source `E(c5,f1)`, whose second value is a fixed constant, with the target `P(f2,c5), P(?3,?2)`.
fn fixed(alloc: Global) -> Result<Rc<Example>, Fail>
    ensures source { IfOk result (λ x. x.value.source
        ≡ record { rel = 0; args = val.Const 5 ∷ val.Fixed 1 ∷ [] } ∷ []) }
    ensures target { IfOk result (λ x. x.value.target ≡ record { rel = 1; args = val.Fixed 2 ∷ val.Const 5 ∷ [] }
        ∷ record { rel = 1; args = val.Null 3 ∷ val.Null 2 ∷ [] } ∷ []) }
{
    let source = with_fact(alloc, no_facts(alloc), E, Const(5), Fixed(1))?;
    let target = with_fact(alloc, no_facts(alloc), P, Fixed(2), Const(5))?;
    let target = with_fact(alloc, target, P, Null(3), Null(2))?;
    example(alloc, source, target)
}

/// The source `E(c1,c2)` with no target fact.
fn without_target(alloc: Global) -> Result<Rc<Example>, Fail>
    ensures source { IfOk result (λ x. x.value.source
        ≡ record { rel = 0; args = val.Const 1 ∷ val.Const 2 ∷ [] } ∷ []) }
    ensures target { IfOk result (λ x. x.value.target ≡ []) }
{
    let source = with_fact(alloc, no_facts(alloc), E, Const(1), Const(2))?;
    example(alloc, source, no_facts(alloc))
}

/// The target `P(?4,?4)` with no source fact.
fn without_source(alloc: Global) -> Result<Rc<Example>, Fail>
    ensures source { IfOk result (λ x. x.value.source ≡ []) }
    ensures target { IfOk result (λ x. x.value.target ≡ record { rel = 1; args = val.Null 4 ∷ val.Null 4 ∷ [] } ∷ []) }
{
    let target = with_fact(alloc, no_facts(alloc), P, Null(4), Null(4))?;
    example(alloc, no_facts(alloc), target)
}

/// The canonical mapping of one example.
fn canonical_of(alloc: Global, kind: Kind, example: Rc<Example>) -> Result<Mapping, Fail>
    requires sources { AllSources (pair_of example.value ∷ []) }
    requires none_foreign { domain_finding (pair_of example.value ∷ []) ≡ None }
{
    let mapping = canonical(alloc, kind, &[example])?;
    Ok(mapping)
}

/// A variable.
const fn var(number: u32) -> Term {
    Term::Var(number)
}

/// The terms of the premise's atoms, the existential variables, and the terms of the conclusion's atoms.
type Parts<'a> = (&'a [[Term; 2]], &'a [u32], &'a [[Term; 2]]);

/// Whether the atoms are of the relation, with these terms.
fn are(atoms: &[Atom], rel: u32, terms: &[[Term; 2]]) -> bool {
    let mut same = atoms.len() == terms.len();
    for (atom, terms) in atoms.iter().zip(terms) {
        same = same && atom.rel == rel && atom.args.as_slice() == terms.as_slice();
    }
    same
}

/// Whether the dependency has these parts.
fn implies(dep: &Dep, parts: &Parts) -> bool {
    are(dep.premise(), E, parts.0) && dep.exists() == parts.1 && are(dep.conclusion(), P, parts.2)
}

/// Whether the mapping has dependencies of these parts, in order.
fn consists_of(mapping: &Mapping, dependencies: &[Parts]) -> bool {
    let mut same = mapping.len() == dependencies.len();
    for (place, parts) in dependencies.iter().enumerate() {
        same = same && mapping.dep(place).is_some_and(|dep| implies(dep, parts));
    }
    same
}

#[test]
fn all_target_facts_at_once(rt: HostRuntime) -> Result<(), Fail> {
    let alloc = rt.alloc();
    let mapping = canonical_of(alloc, Kind::Glav, plain(alloc)?)?;
    let conclusion = [[var(1), var(3)], [var(2), var(1)]];
    assert!(rt; consists_of(&mapping, &[(&[[var(1), var(2)]], &[3], &conclusion)]));
    Ok(())
}

#[test]
fn each_fact_without_nulls_alone(rt: HostRuntime) -> Result<(), Fail> {
    let alloc = rt.alloc();
    let mapping = canonical_of(alloc, Kind::Gav, plain(alloc)?)?;
    assert!(rt; consists_of(&mapping, &[(&[[var(1), var(2)]], &[], &[[var(2), var(1)]])]));
    Ok(())
}

#[test]
fn fixed_constants_stay(rt: HostRuntime) -> Result<(), Fail> {
    let alloc = rt.alloc();
    let glav = canonical_of(alloc, Kind::Glav, fixed(alloc)?)?;
    let gav = canonical_of(alloc, Kind::Gav, fixed(alloc)?)?;
    let premise = [[var(1), Term::Fixed(1)]];
    let conclusion = [[Term::Fixed(2), var(1)], [var(2), var(3)]];
    assert!(rt; consists_of(&glav, &[(&premise, &[2, 3], &conclusion)]));
    assert!(rt; consists_of(&gav, &[(&premise, &[], &[[Term::Fixed(2), var(1)]])]));
    Ok(())
}

#[test]
fn an_empty_target_asks_for_nothing(rt: HostRuntime) -> Result<(), Fail> {
    let alloc = rt.alloc();
    let glav = canonical_of(alloc, Kind::Glav, without_target(alloc)?)?;
    let gav = canonical_of(alloc, Kind::Gav, without_target(alloc)?)?;
    assert!(rt; consists_of(&glav, &[]) && consists_of(&gav, &[]));
    Ok(())
}

#[test]
fn an_empty_source_implies_nulls(rt: HostRuntime) -> Result<(), Fail> {
    let alloc = rt.alloc();
    let glav = canonical_of(alloc, Kind::Glav, without_source(alloc)?)?;
    let gav = canonical_of(alloc, Kind::Gav, without_source(alloc)?)?;
    assert!(rt; consists_of(&glav, &[(&[], &[1], &[[var(1), var(1)]])]) && consists_of(&gav, &[]));
    Ok(())
}

#[test]
fn examples_in_order(rt: HostRuntime) -> Result<(), Fail> {
    let alloc = rt.alloc();
    let examples = [fixed(alloc)?, without_target(alloc)?, plain(alloc)?];
    let mapping = canonical(alloc, Kind::Gav, &examples)?;
    let first = [[var(1), Term::Fixed(1)]];
    assert!(rt;
        consists_of(
            &mapping,
            &[
                (&first, &[], &[[Term::Fixed(2), var(1)]]),
                (&[[var(1), var(2)]], &[], &[[var(2), var(1)]]),
            ]
        )
    );
    Ok(())
}

#[test]
fn no_example(rt: HostRuntime) -> Result<(), Fail> {
    let mapping = canonical(rt.alloc(), Kind::Glav, &[])?;
    assert_eq!(rt; mapping.len(), 0);
    Ok(())
}
