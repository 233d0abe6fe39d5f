//! A matcher whose levels are compiled as the search first comes to them.
ghost use Rattle.std.specs.Prelude.{◌≡◌, ℕ, ◌+◌, ◌<◌, [], IfOk, Some, true, get_or, length, map, take};
ghost use Rattle.eir_term.specs.Instances.{values};
ghost use Rattle.eir_hom.specs.FactRows.{Within};
ghost use Rattle.eir_hom.specs.Compiling.{AreReadyDrafts, drafts_of, slot_in};
ghost use Rattle.eir_hom.specs.Lazy.{all_levels, IsCut, IsReached};
ghost use Rattle.eir_hom.specs.Matching.{Bindings, bound_to, matched, match_space, with_number};
ghost use Rattle.eir_hom.specs.Columns.{is_among};

use crate::matching::Matcher;
use eir_inst::Indexed;
use eir_search::Problem;
use eir_term::Memory;
use std::marker::Model;
use std::rc::Rc;

/// A matcher that goes through a level for each fact of its source, in plan order. The levels that are placed are
/// compiled, and the next one is.
#[derive(Drop)]
pub(crate) struct LazyMatcher {
    source: Rc<Indexed>,
    matcher: Matcher,
}

impl Model for LazyMatcher {
    ghost use Rattle.eir_hom.specs.Matching.{Match};

    ghost Value = { Match };

    ghost use Rattle.eir_hom.specs.Lazy.{all_levels, IsCut, IsReached};

    ghost view = { λ p. record p.matcher { levels = all_levels p.source.value.facts p.matcher } };

    ghost invariant = { λ p. IsCut p.source.value.facts p.matcher × IsReached p.source.value.facts p.matcher };
}

impl LazyMatcher {
    /// The matcher that begins with what this one binds, which has no level, and goes through those of the facts.
    pub(crate) fn new(source: &Rc<Indexed>, mut matcher: Matcher) -> Result<LazyMatcher, Memory>
        requires facts { length matcher.shapes ≡ length source.now.value.facts }
        requires slots { length (values source.now.value.facts) < matcher.slots }
        requires ready { AreReadyDrafts source.now.value.facts matcher.tables (map (λ p. p.0) matcher.start)
            (drafts_of 0 matcher.shapes) }
        requires levels { matcher.levels ≡ [] }
        requires placed { matcher.placed ≡ [] }
        ensures { IfOk result (λ m. m ≡ record matcher { levels = all_levels source.now.value.facts matcher }) }
    {
        reach(&mut matcher, source);
        Ok(LazyMatcher {
            source: source.clone()?,
            matcher,
        })
    }

    /// Gives a slot that is bound at the start another number.
    pub(crate) fn set_start(&mut self, slot: usize, number: usize)
        requires placed { self.old.placed ≡ [] }
        requires bound { is_among slot (map (λ p. p.0) self.old.start) ≡ true }
        ensures { self.new ≡ record self.old { start = with_number self.old.start slot number } }
    {
        self.matcher.set_start(slot, number);
    }

    /// The numbers of all slots, lent; a slot that is not bound has any.
    pub(crate) fn images(&self) -> &[usize]
        ensures { (m : Bindings) → matched self.now.levels self.now.start self.now.placed ≡ Some m
            → (slot w : ℕ) → bound_to m slot ≡ Some w
            → (slot < length result.now) × (get_or result.now slot 0 ≡ w) }
    {
        self.matcher.images()
    }
}

impl Problem for LazyMatcher {
    type Base = LazyMatcher;

    ghost space = { λ m. match_space m.levels m.start };

    ghost placed = { λ m. m.placed };

    ghost base = { λ m. record m { placed = [] } };

    fn levels(&self) -> usize {
        self.source.len()
    }

    fn width(&self, level: usize) -> usize {
        self.matcher.width(level)
    }

    fn place(&mut self, level: usize, choice: usize) -> bool {
        // The choice is below the width, so there is a number behind it.
        let _width = self.width(level);
        self.scan(level, choice, choice + 1) == choice
    }

    fn scan(&mut self, level: usize, from: usize, to: usize) -> usize {
        let found = self.matcher.scan(level, from, to);
        if found < to {
            reach(&mut self.matcher, &self.source);
        }
        found
    }

    fn lift(&mut self, level: usize) {
        self.matcher.lift(level);
    }
}

/// Compiles the level behind those that are placed, if there is one and it is not compiled.
fn reach(matcher: &mut Matcher, source: &Indexed)
    requires { IsCut source.now.facts matcher.old }
    ensures cut { IsCut source.now.facts matcher.new }
    ensures reached { IsReached source.now.facts matcher.new }
    ensures same { matcher.new ≡ record matcher.old { levels = matcher.new.levels } }
{
    let depth = matcher.depth();
    if depth == matcher.len() && depth < source.len() {
        push_next(matcher, source);
    }
}

/// Compiles the next level, where all that are compiled are placed.
#[cold]
#[inline(never)]
fn push_next(matcher: &mut Matcher, source: &Indexed)
    requires cut { IsCut source.now.facts matcher.old }
    requires placed { length matcher.old.placed ≡ length matcher.old.levels }
    requires more { length matcher.old.levels < length source.now.facts }
    ensures { matcher.new ≡ record matcher.old {
      levels = take (length matcher.old.levels + 1) (all_levels source.now.facts matcher.old);
    } }
{
    let level = matcher.len();
    let shape = matcher.shape(level);
    let numbers = source.numbers_at(shape.place);
    let key = key_slot(source, shape.column, numbers);
    matcher.push_level(key, shape.column, numbers);
}

/// The slot of the number at the column, or the slot of no value where no column is named.
fn key_slot(a: &Indexed, column: Option<usize>, numbers: &[usize]) -> usize
    requires { Within column numbers.now }
    ensures { result ≡ slot_in (length (values a.now.facts)) column numbers.now }
{
    match column {
        Some(column) => numbers[column],
        None => a.values().len(),
    }
}
