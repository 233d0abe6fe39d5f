//! The two searches of the test of a pair.
ghost use Rattle.std.specs.Prelude.{◌≡◌, ◌+◌, ◌<◌, ◌≤◌, List, [], ◌∷◌, IfOk, Some, None};
ghost use Rattle.eir_term.specs.declared.val.Val.{Val};
ghost use Rattle.eir_term.specs.Search.{homs};
ghost use Rattle.eir_term.specs.Verdicts.{first_foreign};
ghost use Rattle.eir_edit.specs.Pairs.{pair_of};
ghost use Rattle.eir_ext.specs.Trials.{begun_trial};
ghost use Rattle.eir_ext.specs.Searching.{AreSearches, EndsAs, GoOn, first_trial, trial_of, turns_left};

use crate::Turn;
use crate::start::{Constants, constants_of, follow};
use eir_edit::Example;
use eir_hom::{HomTurn, Homs};
use eir_search::{Fuel, Steps};
use eir_term::{Map, Memory};
use std::alloc::Global;
use std::sync::ledger::Ledger;

/// Which search is gone on with, or what is decided.
#[derive(Clone, Copy)]
pub(crate) enum Stage {
    /// The next homomorphism between the sources is sought.
    Sources,
    /// An extension of the one found last is sought.
    Targets,
    /// Each homomorphism extends.
    Extends,
    /// The one found last does not.
    Fails,
}

/// The search between the sources, and that between the targets, which begins anew for each homomorphism that the first
/// one finds. The start and the numbers are those of the constants of the first target.
#[derive(Drop)]
pub(crate) struct Searches {
    pub(crate) sources: Homs,
    pub(crate) targets: Homs,
    pub(crate) start: Map,
    pub(crate) numbers: Vec<usize>,
    pub(crate) stage: Stage,
}

impl Searches {
    /// Begins both searches: that between the targets from the constants themselves, which the first homomorphism moves.
    pub(crate) fn begin(
        alloc: Global,
        first: &Example,
        second: &Example,
    ) -> Result<Searches, Memory>
        requires { first_foreign (pair_of first.now) ≡ None }
        ensures searches { IfOk result (λ s. AreSearches s) }
        ensures begun { IfOk result (λ s. trial_of s ≡ begun_trial (pair_of first.now) (pair_of second.now)) }
    {
        let sources = Homs::begin(alloc, &first.source, &second.source, &Map::new(alloc))?;
        let Constants { start, numbers } = constants_of(alloc, first)?;
        let targets = Homs::begin(alloc, &first.target, &second.target, &start)?;
        Ok(Searches {
            sources,
            targets,
            start,
            numbers,
            stage: Stage::Sources,
        })
    }

    /// Begins the search between the targets where that between the sources has found its first homomorphism.
    pub(crate) fn after_first(
        alloc: Global,
        first: &Example,
        second: &Example,
        sources: Homs,
    ) -> Result<Searches, Memory>
        requires foreign { first_foreign (pair_of first.now) ≡ None }
        requires source { sources.source ≡ first.now.source }
        requires target { sources.target ≡ second.now.source }
        requires found { (m : List (Val × Val)) × (sources.found ≡ Some m)
            × (homs first.now.source second.now.source [] ≡ m ∷ sources.to_come) }
        ensures searches { IfOk result (λ s. AreSearches s) }
        ensures begun { IfOk result (λ s. trial_of s ≡ first_trial (pair_of first.now) (pair_of second.now) sources) }
    {
        let Constants { mut start, numbers } = constants_of(alloc, first)?;
        follow(&mut start, &numbers, sources.map());
        let targets = Homs::begin(alloc, &first.target, &second.target, &start)?;
        Ok(Searches {
            sources,
            targets,
            start,
            numbers,
            stage: Stage::Targets,
        })
    }

    /// Goes on with one search after the other, by up to `at_most` tries in all.
    pub(crate) fn turn<L: Ledger>(
        &mut self,
        at_most: u64,
        fuel: &mut Fuel,
        steps: &mut Steps<L>,
    ) -> Turn
        requires { AreSearches self.old }
        ensures searches { AreSearches self.new }
        ensures ends { EndsAs (Some result) (trial_of self.old) (trial_of self.new) at_most fuel.old fuel.new }
        ensures go_on { GoOn (trial_of self.old) (trial_of self.new) fuel.old fuel.new }
        ensures at_most { fuel.new.used ≤ fuel.old.used + at_most }
        ensures used { fuel.old.used ≤ fuel.new.used }
        ensures limit { fuel.new.limit ≡ fuel.old.limit }
        ensures steps { steps.new + fuel.old.used ≡ steps.old + fuel.new.used }
    {
        let mut left = at_most;
        'searches: loop {
            let before = fuel.used();
            if let Some(turn) = self.step(left, fuel, steps) {
                return turn;
            }
            left -= fuel.used() - before;
        }
    }

    /// Goes on with the search of the stage, by up to `at_most` tries: how the turn ends, or `None` where the other
    /// search is next.
    fn step<L: Ledger>(
        &mut self,
        at_most: u64,
        fuel: &mut Fuel,
        steps: &mut Steps<L>,
    ) -> Option<Turn>
        requires { AreSearches self.old }
        ensures searches { AreSearches self.new }
        ensures ends { EndsAs result (trial_of self.old) (trial_of self.new) at_most fuel.old fuel.new }
        ensures go_on { GoOn (trial_of self.old) (trial_of self.new) fuel.old fuel.new }
        ensures fewer { result ≡ None → turns_left self.new < turns_left self.old }
        ensures at_most { fuel.new.used ≤ fuel.old.used + at_most }
        ensures used { fuel.old.used ≤ fuel.new.used }
        ensures limit { fuel.new.limit ≡ fuel.old.limit }
        ensures steps { steps.new + fuel.old.used ≡ steps.old + fuel.new.used }
    {
        match self.stage {
            Stage::Sources => self.seek(at_most, fuel, steps),
            Stage::Targets => self.extend(at_most, fuel, steps),
            Stage::Extends => Some(Turn::Extends),
            Stage::Fails => Some(Turn::Fails),
        }
    }

    /// Seeks the next homomorphism between the sources. Where there is one, the search between the targets begins anew.
    fn seek<L: Ledger>(
        &mut self,
        at_most: u64,
        fuel: &mut Fuel,
        steps: &mut Steps<L>,
    ) -> Option<Turn>
        requires searches { AreSearches self.old }
        requires stage { self.old.stage ≡ Stage.Sources }
        ensures searches { AreSearches self.new }
        ensures ends { EndsAs result (trial_of self.old) (trial_of self.new) at_most fuel.old fuel.new }
        ensures go_on { GoOn (trial_of self.old) (trial_of self.new) fuel.old fuel.new }
        ensures fewer { result ≡ None → turns_left self.new < turns_left self.old }
        ensures at_most { fuel.new.used ≤ fuel.old.used + at_most }
        ensures used { fuel.old.used ≤ fuel.new.used }
        ensures limit { fuel.new.limit ≡ fuel.old.limit }
        ensures steps { steps.new + fuel.old.used ≡ steps.old + fuel.new.used }
    {
        match self.sources.turn(at_most, fuel, steps) {
            HomTurn::Going => Some(Turn::Going),
            HomTurn::Found => {
                follow(&mut self.start, &self.numbers, self.sources.map());
                self.targets.restart(&self.start);
                self.stage = Stage::Targets;
                None
            }
            HomTurn::Done => {
                self.stage = Stage::Extends;
                Some(Turn::Extends)
            }
            HomTurn::Spent => Some(Turn::Spent),
        }
    }

    /// Seeks an extension of the homomorphism found last. Where there is one, the search between the sources is next.
    fn extend<L: Ledger>(
        &mut self,
        at_most: u64,
        fuel: &mut Fuel,
        steps: &mut Steps<L>,
    ) -> Option<Turn>
        requires searches { AreSearches self.old }
        requires stage { self.old.stage ≡ Stage.Targets }
        ensures searches { AreSearches self.new }
        ensures ends { EndsAs result (trial_of self.old) (trial_of self.new) at_most fuel.old fuel.new }
        ensures go_on { GoOn (trial_of self.old) (trial_of self.new) fuel.old fuel.new }
        ensures fewer { result ≡ None → turns_left self.new < turns_left self.old }
        ensures at_most { fuel.new.used ≤ fuel.old.used + at_most }
        ensures used { fuel.old.used ≤ fuel.new.used }
        ensures limit { fuel.new.limit ≡ fuel.old.limit }
        ensures steps { steps.new + fuel.old.used ≡ steps.old + fuel.new.used }
    {
        match self.targets.turn(at_most, fuel, steps) {
            HomTurn::Going => Some(Turn::Going),
            HomTurn::Found => {
                self.stage = Stage::Sources;
                None
            }
            HomTurn::Done => {
                self.stage = Stage::Fails;
                Some(Turn::Fails)
            }
            HomTurn::Spent => Some(Turn::Spent),
        }
    }
}
