//! The search.
ghost use Rattle.std.specs.Prelude.{◌≡◌, ◌≢◌, ℕ, ◌+◌, ◌-◌, ◌<◌, ◌≤◌, ◌^◌, ◌↔◌, [], length, take, IsTrue, IfOk, IfErr, IfSome, IfNone};
ghost use Rattle.eir_search.specs.Spaces.{full_lists, need};
ghost use Rattle.eir_search.specs.Tries.{coming, tries_left, told};

use crate::run::{Run, make_tries};
use crate::{Fuel, Problem, Room, Steps};
use std::alloc::Global;
use std::marker::Model;
use std::sync::ledger::Ledger;

/// What a step did.
#[derive(Clone, Copy, Debug, PartialEq, Eq)]
pub enum Step {
    /// One choice was tried, and no full list was completed.
    Tried,
    /// The last try completed a good full list; or there are no levels, and the empty list was not told yet.
    Found,
    /// Nothing is left.
    Done,
    /// A try is next, and the fuel is used up.
    Spent,
}

/// How a turn ended.
#[derive(Clone, Copy, Debug, PartialEq, Eq)]
pub enum Turn {
    /// As many tries were made as the turn may make, a try is next, and the fuel is not used up.
    Going,
    /// The last try completed a good full list; or there are no levels, and the empty list was not told yet.
    Found,
    /// Nothing is left.
    Done,
    /// A try is next, and the fuel is used up.
    Spent,
}

/// There was no memory for the choices; the problem is handed back.
#[derive(Drop)]
pub struct BeginRefused<P> {
    /// The problem that was handed in.
    pub problem: P,
}

/// A search for the good full lists of a problem, in order.
#[derive(Drop)]
pub struct Search<P: Problem> {
    problem: P,
    choices: Vec<usize>,
    depth: usize,
    next: usize,
}

impl<P: Problem> Model for Search<P> {
    ghost use Rattle.std.specs.Prelude.{take};
    ghost use Rattle.eir_search.specs.Standings.{Standing};

    ghost Value = { Standing P };

    ghost view = { λ s. record { problem = s.problem; choices = take s.depth s.choices.items; next = s.next } };

    ghost use Rattle.std.specs.Prelude.{◌≡◌, ℕ, ◌+◌, ◌<◌, ◌≤◌, ◌^◌, vec_len, slice_index};

    // There is room for all levels, and after each choice there is a number for the next one. A full list was told,
    // but where there are no levels.
    ghost invariant = { λ s.
        ((P.space s.problem).levels ≤ vec_len s.choices)
        × (s.depth ≤ (P.space s.problem).levels)
        × (P.placed s.problem ≡ take s.depth s.choices.items)
        × (s.depth ≡ (P.space s.problem).levels → s.next ≡ 0 → (P.space s.problem).levels ≡ 0)
        × ((k : ℕ) → slice_index s.choices.items k + 1 < 2 ^ 64) };
}

impl<P: Problem> Search<P> {
    ghost use Rattle.eir_search.specs.Outcomes.{TakesFirst, TakesRun, tries_of};

    /// Begins a search in memory of its own. It will tell all good full lists, in order, and make as many tries as they
    /// need.
    pub fn begin(alloc: Global, problem: P) -> Result<Search<P>, BeginRefused<P>>
        requires { P.placed problem ≡ [] }
        ensures ok { IfOk result (λ search. search ≡ record { problem = problem; choices = []; next = 0 }) }
        ensures err { IfErr result (λ refused. refused.problem ≡ problem) }
        ensures lists { told (coming (P.space problem) [] 0)
            ≡ full_lists (P.space problem) (P.space problem).levels [] }
        ensures tries { tries_left (P.space problem) [] 0 ≡ need (P.space problem) (P.space problem).levels [] }
    {
        match Room::new(alloc, problem.levels()) {
            Ok(room) => Ok(Search::again(problem, room)),
            Err(_) => Err(BeginRefused { problem }),
        }
    }

    /// Begins a search in memory that is there.
    pub fn again(problem: P, room: Room) -> Search<P>
        requires placed { P.placed problem ≡ [] }
        requires room { (P.space problem).levels ≤ room }
        ensures start { result ≡ record { problem = problem; choices = []; next = 0 } }
        ensures lists { told (coming (P.space problem) [] 0)
            ≡ full_lists (P.space problem) (P.space problem).levels [] }
        ensures tries { tries_left (P.space problem) [] 0 ≡ need (P.space problem) (P.space problem).levels [] }
    {
        Search {
            problem,
            choices: room.into_slots(),
            depth: 0,
            next: 0,
        }
    }

    /// Lifts what is placed, the last first, and hands back the problem and the memory.
    pub fn end(mut self) -> (P, Room)
        ensures space { P.space result.0 ≡ P.space self.problem }
        ensures base { P.base result.0 ≡ P.base self.problem }
        ensures placed { P.placed result.0 ≡ [] }
        ensures room { (P.space self.problem).levels ≤ result.1 }
    {
        self.lift_to(0);
        let Search {
            problem,
            choices,
            depth: _,
            next: _,
        } = self;
        (problem, Room::of(choices))
    }

    /// The problem, lent.
    pub fn problem(&self) -> &P
        ensures { result.now ≡ self.now.problem }
    {
        &self.problem
    }

    /// The choices that are placed, lent.
    pub fn choices(&self) -> &[usize]
        ensures choices { result.now ≡ self.now.choices }
        ensures placed { result.now ≡ P.placed self.now.problem }
        ensures within { length result.now ≤ (P.space self.now.problem).levels }
    {
        &self.choices[..self.depth]
    }

    /// Makes the next try, if one is next and the fuel is not used up.
    pub fn step<L: Ledger>(&mut self, fuel: &mut Fuel, steps: &mut Steps<L>) -> Step
        ensures space { P.space self.new.problem ≡ P.space self.old.problem }
        ensures base { P.base self.new.problem ≡ P.base self.old.problem }
        ensures takes { TakesFirst result
            (coming (P.space self.old.problem) self.old.choices self.old.next)
            (coming (P.space self.new.problem) self.new.choices self.new.next)
            self.new.choices }
        ensures left { tries_left (P.space self.old.problem) self.old.choices self.old.next
            ≡ tries_of result (P.space self.old.problem)
            + tries_left (P.space self.new.problem) self.new.choices self.new.next }
        ensures done { (result ≡ Step.Done) ↔ (coming (P.space self.old.problem) self.old.choices self.old.next ≡ []) }
        ensures done_stays { result ≡ Step.Done → self.new ≡ self.old }
        ensures spent { (result ≡ Step.Spent)
            ↔ ((0 < tries_left (P.space self.old.problem) self.old.choices self.old.next)
            × (fuel.old.used ≡ fuel.old.limit)) }
        ensures spent_stays { result ≡ Step.Spent → self.new ≡ self.old }
        ensures fuel { fuel.new ≡ record {
          limit = fuel.old.limit;
          used = fuel.old.used + tries_of result (P.space self.old.problem);
        } }
        ensures steps { steps.new ≡ steps.old + tries_of result (P.space self.old.problem) }
    {
        if self.is_untold() {
            self.next = 1;
            return Step::Found;
        }
        let Some((level, choice)) = self.next_try() else {
            return Step::Done;
        };
        if fuel.left() == 0 {
            return Step::Spent;
        }
        self.lift_to(level);
        fuel.burn(1);
        steps.tick_by(1);
        self.try_choice(choice)
    }

    /// Makes up to `at_most` tries, until one completes a good full list, none is left or the fuel is used up. With
    /// `at_most` 0 it looks whether a try is next. It is faster than as many steps, and lifts a level that has no
    /// choice left at once and not before the next try.
    pub fn turn<L: Ledger>(&mut self, at_most: u64, fuel: &mut Fuel, steps: &mut Steps<L>) -> Turn
        ensures space { P.space self.new.problem ≡ P.space self.old.problem }
        ensures base { P.base self.new.problem ≡ P.base self.old.problem }
        ensures takes { TakesRun result (P.space self.old.problem) (fuel.new.used - fuel.old.used)
            (coming (P.space self.old.problem) self.old.choices self.old.next)
            (coming (P.space self.new.problem) self.new.choices self.new.next)
            self.new.choices }
        ensures left { tries_left (P.space self.old.problem) self.old.choices self.old.next
            ≡ fuel.new.used - fuel.old.used + tries_left (P.space self.new.problem) self.new.choices self.new.next }
        ensures going { result ≡ Turn.Going
            → (fuel.new.used ≡ fuel.old.used + at_most)
            × (fuel.new.used < fuel.new.limit)
            × (0 < tries_left (P.space self.new.problem) self.new.choices self.new.next) }
        ensures spent { result ≡ Turn.Spent
            → (fuel.new.used ≡ fuel.new.limit)
            × (0 < tries_left (P.space self.new.problem) self.new.choices self.new.next) }
        ensures at_most { fuel.new.used ≤ fuel.old.used + at_most }
        ensures used { fuel.old.used ≤ fuel.new.used }
        ensures limit { fuel.new.limit ≡ fuel.old.limit }
        ensures steps { steps.new + fuel.old.used ≡ steps.old + fuel.new.used }
    {
        if self.is_untold() {
            self.next = 1;
            return Turn::Found;
        }
        let tries = at_most.min(fuel.left());
        let Run {
            turn,
            level,
            choice,
            left,
        } = make_tries(
            &mut self.problem,
            &mut self.choices,
            self.depth,
            self.next,
            tries,
        );
        self.depth = level;
        self.next = choice;
        fuel.burn(tries - left);
        steps.tick_by(tries - left);
        match turn {
            Turn::Going if fuel.left() == 0 => Turn::Spent,
            turn => turn,
        }
    }

    /// Whether there are no levels and the empty list was not told yet.
    fn is_untold(&self) -> bool
        ensures untold { IsTrue result
            ↔ ((length self.now.choices ≡ (P.space self.now.problem).levels) × (self.now.next ≡ 0)) }
        ensures empty { IsTrue result → (P.space self.now.problem).levels ≡ 0 }
        ensures within { length self.now.choices ≤ (P.space self.now.problem).levels }
    {
        self.next == 0 && self.depth == self.problem.levels()
    }

    /// Where the next try is made, as a level and a choice.
    fn next_try(&self) -> Option<(usize, usize)>
        requires { length self.now.choices ≡ (P.space self.now.problem).levels → 0 < self.now.next }
        ensures none { IfNone result (coming (P.space self.now.problem) self.now.choices self.now.next ≡ []) }
        ensures within { IfSome result (λ at. at.0 ≤ length self.now.choices) }
        ensures below { IfSome result (λ at. at.0 < (P.space self.now.problem).levels) }
        ensures choice { IfSome result
            (λ at. at.1 < (P.space self.now.problem).width (take at.0 self.now.choices)) }
        ensures fits { IfSome result (λ at. at.1 + 1 < 2 ^ 64) }
        ensures same { IfSome result
            (λ at.
            coming (P.space self.now.problem) self.now.choices self.now.next
            ≡ coming (P.space self.now.problem) (take at.0 self.now.choices) at.1) }
    {
        let levels = self.problem.levels();
        let mut level = self.depth;
        let mut choice = self.next;
        while level == levels || choice >= self.problem.width(level) {
            if level == 0 {
                return None;
            }
            level -= 1;
            choice = self.choices[level] + 1;
        }
        Some((level, choice))
    }

    /// Lifts what is placed at this level and below it.
    fn lift_to(&mut self, level: usize)
        requires { level ≤ length self.old.choices }
        ensures space { P.space self.new.problem ≡ P.space self.old.problem }
        ensures base { P.base self.new.problem ≡ P.base self.old.problem }
        ensures choices { self.new.choices ≡ take level self.old.choices }
    {
        while self.depth > level {
            self.problem.lift(self.depth - 1);
            self.depth -= 1;
        }
    }

    /// Tries a choice at the next level.
    fn try_choice(&mut self, choice: usize) -> Step
        requires below { length self.old.choices < (P.space self.old.problem).levels }
        requires choice { choice < (P.space self.old.problem).width self.old.choices }
        requires fits { choice + 1 < 2 ^ 64 }
        ensures space { P.space self.new.problem ≡ P.space self.old.problem }
        ensures base { P.base self.new.problem ≡ P.base self.old.problem }
        ensures takes { TakesFirst result
            (coming (P.space self.old.problem) self.old.choices choice)
            (coming (P.space self.new.problem) self.new.choices self.new.next)
            self.new.choices }
        ensures one { tries_of result (P.space self.old.problem) ≡ 1 }
        ensures not_done { result ≢ Step.Done }
        ensures not_spent { result ≢ Step.Spent }
    {
        let level = self.depth;
        if !self.problem.place(level, choice) {
            self.next = choice + 1;
            return Step::Tried;
        }
        self.choices[level] = choice;
        self.depth = level + 1;
        if level + 1 < self.problem.levels() {
            self.next = 0;
            return Step::Tried;
        }
        self.next = 1;
        Step::Found
    }
}
