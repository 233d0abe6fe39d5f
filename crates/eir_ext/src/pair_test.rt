//! The test of a pair of examples.
ghost use Rattle.std.specs.Prelude.{◌≡◌, ◌≢◌, ◌+◌, ◌-◌, ◌<◌, ◌≤◌, List, [], ◌∷◌, Some, None, IfOk, IsSome};
ghost use Rattle.eir_term.specs.declared.val.Val.{Val};
ghost use Rattle.eir_term.specs.Search.{homs};
ghost use Rattle.eir_term.specs.Verdicts.{first_foreign, first_refuting};
ghost use Rattle.eir_edit.specs.Pairs.{pair_of};
ghost use Rattle.eir_ext.specs.Trials.{begun_trial};
ghost use Rattle.eir_ext.specs.Searching.{first_trial};

use crate::Turn;
use crate::searches::Searches;
use eir_edit::Example;
use eir_hom::Homs;
use eir_search::{Fuel, Steps};
use eir_term::{Map, Memory};
use std::alloc::Global;
use std::marker::Model;
use std::rc::Rc;
use std::sync::ledger::Ledger;

/// A test whether each homomorphism from the source of one example to that of another extends to the targets: whether
/// some homomorphism between the targets agrees with it on the constants of the first target (Alexe, ten Cate, Kolaitis,
/// Tan 2011; here neither need fix a constant). It can stop at any try and go on, and takes no memory once it is begun.
/// The examples are shared and stay as they are.
#[derive(Drop)]
pub struct PairTest {
    searches: Searches,
}

impl Model for PairTest {
    ghost use Rattle.eir_ext.specs.Trials.{Trial};

    ghost Value = { Trial };

    ghost use Rattle.eir_ext.specs.Searching.{trial_of, AreSearches};

    ghost view = { λ t. trial_of t.searches };

    ghost invariant = { λ t. AreSearches t.searches };
}

impl PairTest {
    /// Begins a test, and takes all the memory that it needs. Each constant of the first example's target occurs in its
    /// source.
    ///
    /// # Errors
    /// `Memory` alone.
    pub fn begin(
        alloc: Global,
        first: &Rc<Example>,
        second: &Rc<Example>,
    ) -> Result<PairTest, Memory>
        requires { first_foreign (pair_of first.now.value) ≡ None }
        ensures { IfOk result (λ t. t ≡ begun_trial (pair_of first.now.value) (pair_of second.now.value)) }
    {
        let searches = Searches::begin(alloc, first, second)?;
        Ok(PairTest { searches })
    }

    /// Begins a test where the search between the sources has found its first homomorphism.
    pub(crate) fn after_first(
        alloc: Global,
        first: &Example,
        second: &Example,
        sources: Homs,
    ) -> Result<PairTest, Memory>
        requires foreign { first_foreign (pair_of first.now) ≡ None }
        requires source { sources.source ≡ first.now.source }
        requires target { sources.target ≡ second.now.source }
        requires found { (m : List (Val × Val)) × (sources.found ≡ Some m)
            × (homs first.now.source second.now.source [] ≡ m ∷ sources.to_come) }
        ensures { IfOk result (λ t. t ≡ first_trial (pair_of first.now) (pair_of second.now) sources) }
    {
        let searches = Searches::after_first(alloc, first, second, sources)?;
        Ok(PairTest { searches })
    }

    /// Goes on by up to `at_most` tries, until the pair is decided or the fuel is used up. A test that is decided makes
    /// no further try, and answers the same again. It takes no memory.
    pub fn turn<L: Ledger>(&mut self, at_most: u64, fuel: &mut Fuel, steps: &mut Steps<L>) -> Turn
        ensures first { self.new.first ≡ self.old.first }
        ensures second { self.new.second ≡ self.old.second }
        ensures extends { result ≡ Turn.Extends
            → (first_refuting self.old.first self.old.second ≡ None)
            × (self.new.tries ≡ 0) × (self.new.source_tries ≡ 0) }
        ensures fails { result ≡ Turn.Fails
            → IsSome self.new.refuting
            × (self.new.refuting ≡ first_refuting self.old.first self.old.second) × (self.new.tries ≡ 0) }
        ensures going { result ≡ Turn.Going
            → (fuel.new.used ≡ fuel.old.used + at_most) × (fuel.new.used < fuel.new.limit) × (0 < self.new.tries) }
        ensures spent { result ≡ Turn.Spent → (fuel.new.used ≡ fuel.new.limit) × (0 < self.new.tries) }
        ensures tries { (fuel.new.used - fuel.old.used) + self.new.tries ≤ self.old.tries }
        ensures source_tries { self.old.source_tries ≤ (fuel.new.used - fuel.old.used) + self.new.source_tries }
        ensures at_most { fuel.new.used ≤ fuel.old.used + at_most }
        ensures used { fuel.old.used ≤ fuel.new.used }
        ensures limit { fuel.new.limit ≡ fuel.old.limit }
        ensures steps { steps.new + fuel.old.used ≡ steps.old + fuel.new.used }
    {
        self.searches.turn(at_most, fuel, steps)
    }

    /// The first homomorphism between the sources that does not extend, lent where the last turn answered `Fails`.
    pub fn map(&self) -> &Map
        requires { IsSome self.now.refuting }
        ensures { Some result.now ≡ self.now.refuting }
    {
        self.searches.sources.map()
    }
}
