//! The fold test, turn by turn.
ghost use Rattle.std.specs.Prelude.{◌≡◌, ◌+◌, ◌-◌, ◌<◌, ◌≤◌, true, false, None, IfOk};
ghost use Rattle.eir_term.specs.Instances.{ground_part};
ghost use Rattle.eir_term.specs.Search.{constants_fixed, foldneed, homs};
ghost use Rattle.eir_term.specs.Verdicts.{has_fold};
ghost use Rattle.eir_verdict.specs.Foldings.{decision};

use eir_edit::Example;
use eir_hom::{HomTurn, Homs};
use eir_inst::{Indexed, Instance};
use eir_search::{Fuel, Steps};
use eir_term::{Map, Memory};
use std::alloc::Global;
use std::marker::Model;
use std::rc::Rc;
use std::sync::ledger::Ledger;

/// How a turn of a fold test ended.
#[derive(Clone, Copy, Debug, PartialEq, Eq)]
pub enum FoldTurn {
    /// As many tries were made as the turn may make, a try is next, and the fuel is not used up.
    Going,
    /// The target folds.
    Folds,
    /// The target does not fold.
    Fault,
    /// A try is next, and the fuel is used up.
    Spent,
}

/// A test whether the target of an example folds: whether some homomorphism into its ground part, the facts without
/// nulls, fixes constants (this project's own). It is one search, which ends with the first such homomorphism.
#[derive(Drop)]
pub struct FoldTest {
    homs: Homs,
    /// The answer, once it is known.
    folds: Option<bool>,
}

impl Model for FoldTest {
    ghost use Rattle.eir_verdict.specs.Foldings.{Folding, tries_left, IsFolding};

    ghost Value = { Folding };

    ghost view = { λ t. record { target = t.homs.source; tries = tries_left t.folds t.homs.tries } };

    ghost invariant = { λ t. IsFolding t.homs t.folds };
}

impl FoldTest {
    /// Begins a test, and takes all the memory that it needs.
    ///
    /// # Errors
    /// `Memory` alone.
    pub fn begin(alloc: Global, example: &Rc<Example>) -> Result<FoldTest, Memory>
        ensures { IfOk result (λ t. t ≡ record {
          target = example.now.value.target;
          tries = foldneed example.now.value.target;
        }) }
    {
        let homs = folding_homs(alloc, &example.target)?;
        Ok(FoldTest { homs, folds: None })
    }

    /// Makes up to `at_most` tries, until the test is decided or the fuel is used up. It takes no memory. A test that
    /// is decided makes no more tries, and answers the same.
    pub fn turn<L: Ledger>(
        &mut self,
        at_most: u64,
        fuel: &mut Fuel,
        steps: &mut Steps<L>,
    ) -> FoldTurn
        ensures target { self.new.target ≡ self.old.target }
        ensures folds { result ≡ FoldTurn.Folds → (has_fold self.old.target ≡ true) × (self.new.tries ≡ 0) }
        ensures fault { result ≡ FoldTurn.Fault → (has_fold self.old.target ≡ false) × (self.new.tries ≡ 0)
            × (self.old.tries ≡ fuel.new.used - fuel.old.used) }
        ensures going { result ≡ FoldTurn.Going
            → (fuel.new.used ≡ fuel.old.used + at_most) × (fuel.new.used < fuel.new.limit) × (0 < self.new.tries) }
        ensures spent { result ≡ FoldTurn.Spent → (fuel.new.used ≡ fuel.new.limit) × (0 < self.new.tries) }
        ensures undecided { 0 < self.new.tries → self.old.tries ≡ (fuel.new.used - fuel.old.used) + self.new.tries }
        ensures tries { fuel.new.used - fuel.old.used ≤ self.old.tries }
        ensures at_most { fuel.new.used ≤ fuel.old.used + at_most }
        ensures used { fuel.old.used ≤ fuel.new.used }
        ensures limit { fuel.new.limit ≡ fuel.old.limit }
        ensures steps { steps.new + fuel.old.used ≡ steps.old + fuel.new.used }
    {
        if let Some(folds) = self.folds {
            return decided(folds);
        }
        match self.homs.turn(at_most, fuel, steps) {
            HomTurn::Going => FoldTurn::Going,
            HomTurn::Spent => FoldTurn::Spent,
            HomTurn::Found => {
                self.folds = Some(true);
                FoldTurn::Folds
            }
            HomTurn::Done => {
                self.folds = Some(false);
                FoldTurn::Fault
            }
        }
    }
}

/// How a turn of a decided test ends.
fn decided(folds: bool) -> FoldTurn
    ensures { result ≡ decision folds }
{
    if folds {
        FoldTurn::Folds
    } else {
        FoldTurn::Fault
    }
}

/// The homomorphisms from the instance into its ground part that fix constants.
fn folding_homs(alloc: Global, target: &Rc<Instance>) -> Result<Homs, Memory>
    ensures { IfOk result (λ h. h ≡ record {
      source = target.now.value.facts;
      target = ground_part target.now.value.facts;
      start = constants_fixed target.now.value.facts;
      found = None;
      to_come = homs target.now.value.facts (ground_part target.now.value.facts)
          (constants_fixed target.now.value.facts);
      tries = foldneed target.now.value.facts;
    }) }
{
    let ground = Rc::new(alloc, target.ground_part()?)?;
    let facts = target.indexed()?;
    let start = constants_fixed(alloc, &facts)?;
    Homs::begin(alloc, target, &ground, &start)
}

/// The map that fixes each constant of the instance.
fn constants_fixed(alloc: Global, instance: &Indexed) -> Result<Map, Memory>
    ensures { IfOk result (λ m. m ≡ constants_fixed instance.now.facts) }
{
    let mut map = Map::new(alloc);
    for value in instance.values() {
        if value.is_const() {
            map.put(*value, *value)?;
        }
    }
    Ok(map)
}
