//! The verdict on the present examples: the order of its tests.
ghost use Rattle.std.specs.Prelude.{◌≡◌, ◌<◌, None, IfOk, option_map};
ghost use Rattle.eir_term.specs.declared.val.Kind.TheVariants.{Gav};
ghost use Rattle.eir_term.specs.Headline.{AllSources};
ghost use Rattle.eir_term.specs.Verdicts.{domain_finding, first_finding, first_foreign, first_refuting, fold_finding};
ghost use Rattle.eir_term.specs.Verdicts.{or_else, refuted, refuted_finding, verdict};
ghost use Rattle.eir_edit.specs.Pairs.{pair_of, pairs_of};
ghost use Rattle.eir_verdict.specs.Findings.{finding_of};

mod unlimited;

use self::unlimited::{first_refuting, has_fold};
use eir_canon::canonical;
use eir_edit::Example;
use eir_search::Steps;
use eir_term::{Kind, Memory};
use eir_verdict::{Verdict, first_foreign};
use std::alloc::Global;
use std::marker::Brand;
use std::rc::Rc;
use std::sync::ledger::{Blank, Ledger};

/// The first fault or refutation for mappings of the kind, else the canonical mapping.
pub fn verdict_on(alloc: Global, kind: Kind, examples: &[Rc<Example>]) -> Result<Verdict, Memory>
    requires { AllSources (pairs_of examples.now) }
    ensures { IfOk result (λ v. finding_of v ≡ verdict kind (pairs_of examples.now)) }
{
    if let Some(found) = domain_finding(examples) {
        return Ok(found);
    }
    if let Some(found) = searched_finding::<Brand>(alloc, kind, examples, Blank::new(1))? {
        return Ok(found);
    }
    let mapping = canonical(alloc, kind, examples)?;
    Ok(Verdict::Fits(mapping))
}

/// The first example with a foreign constant, and the first such constant.
fn domain_finding(examples: &[Rc<Example>]) -> Option<Verdict>
    ensures { option_map finding_of result ≡ domain_finding (pairs_of examples.now) }
{
    for place in 0..examples.len() {
        if let Some(constant) = first_foreign(&examples[place]) {
            return Some(Verdict::Domain {
                example: place,
                constant,
            });
        }
    }
    None
}

/// What searches find, where no constant is foreign: the first fold fault, which GAV alone has, else the first refutation.
/// The tries are counted.
fn searched_finding<L: Ledger>(
    alloc: Global,
    kind: Kind,
    examples: &[Rc<Example>],
    blank: Blank,
) -> Result<Option<Verdict>, Memory>
    requires known { domain_finding (pairs_of examples.now) ≡ None }
    requires name { blank.name ≡ L.name }
    requires parts { blank.parts ≡ L.parts }
    requires some { 0 < blank.parts }
    ensures { IfOk result (λ o. option_map finding_of o
        ≡ or_else (fold_finding kind (pairs_of examples.now)) (refuted_finding (pairs_of examples.now))) }
{
    let mut steps = Steps::<L>::open(blank);
    if let Some(found) = fold_finding(alloc, kind, examples, &mut steps)? {
        return Ok(Some(found));
    }
    refuted_finding(alloc, examples, &mut steps)
}

/// For GAV, the first example whose target does not fold.
fn fold_finding<L: Ledger>(
    alloc: Global,
    kind: Kind,
    examples: &[Rc<Example>],
    steps: &mut Steps<L>,
) -> Result<Option<Verdict>, Memory>
    ensures { IfOk result (λ o. option_map finding_of o ≡ fold_finding kind (pairs_of examples.now)) }
{
    match kind {
        Kind::Glav => Ok(None),
        Kind::Gav => first_fold_fault(alloc, examples, steps),
    }
}

/// The first example whose target does not fold.
fn first_fold_fault<L: Ledger>(
    alloc: Global,
    examples: &[Rc<Example>],
    steps: &mut Steps<L>,
) -> Result<Option<Verdict>, Memory>
    ensures { IfOk result (λ o. option_map finding_of o ≡ fold_finding Gav (pairs_of examples.now)) }
{
    for place in 0..examples.len() {
        if !has_fold(alloc, &examples[place], steps)? {
            return Ok(Some(Verdict::Fold { example: place }));
        }
    }
    Ok(None)
}

/// The first pair of examples with a refuting homomorphism, and the first such one. An example is paired with itself
/// too.
fn refuted_finding<L: Ledger>(
    alloc: Global,
    examples: &[Rc<Example>],
    steps: &mut Steps<L>,
) -> Result<Option<Verdict>, Memory>
    requires { domain_finding (pairs_of examples.now) ≡ None }
    ensures { IfOk result (λ o. option_map finding_of o ≡ refuted_finding (pairs_of examples.now)) }
{
    for place in 0..examples.len() {
        if let Some(found) = refuted_from(alloc, place, &examples[place], examples, steps)? {
            return Ok(Some(found));
        }
    }
    Ok(None)
}

/// The first refuting homomorphism from this example, which stands at this place.
fn refuted_from<L: Ledger>(
    alloc: Global,
    place: usize,
    first: &Rc<Example>,
    examples: &[Rc<Example>],
    steps: &mut Steps<L>,
) -> Result<Option<Verdict>, Memory>
    requires { first_foreign (pair_of first.now.value) ≡ None }
    ensures { IfOk result (λ o. option_map finding_of o ≡
        first_finding (λ j f. option_map (refuted place j) (first_refuting (pair_of first.now.value) f)) 0
        (pairs_of examples.now)) }
{
    for other in 0..examples.len() {
        if let Some(map) = first_refuting(alloc, first, &examples[other], steps)? {
            return Ok(Some(Verdict::Refuted {
                first: place,
                second: other,
                map,
            }));
        }
    }
    Ok(None)
}
