//! All homomorphisms, one after the other.
ghost use Rattle.std.specs.Prelude.{◌≡◌, ◌≢◌, ◌↔◌, ℕ, ◌+◌, ◌-◌, ◌<◌, ◌≤◌, List, [], ◌∷◌, length, Some, None, IfOk};
ghost use Rattle.std.specs.Prelude.{IsSome, slice_get};
ghost use Rattle.eir_term.specs.declared.val.Val.{Val};
ghost use Rattle.eir_term.specs.Lists.{◌∈◌};
ghost use Rattle.eir_term.specs.Instances as instances;
ghost use Rattle.eir_term.specs.Maps.{domain_of, image_at};
ghost use Rattle.eir_term.specs.Order.{KeepsFixed};
ghost use Rattle.eir_term.specs.Search as all;
ghost use Rattle.eir_hom.specs.Matching.{Bindings, bound_to, matched};
ghost use Rattle.eir_hom.specs.Courses.{shapes_of};

use crate::compile::compile;
use crate::course::Course;
use crate::given::{Given, list_given};
use crate::lazy::LazyMatcher;
use crate::planner::Chooser;
use crate::restart::give_start;
use crate::{Guard, Planner};
use eir_inst::{Indexed, Instance};
use eir_search::{Fuel, Search, Steps, Turn};
use eir_term::{Map, Memory};
use std::alloc::Global;
use std::marker::Model;
use std::rc::Rc;
use std::snapshot::Snapshot;
use std::sync::ledger::Ledger;

/// How a turn of a listing ended.
#[derive(Clone, Copy, Debug, PartialEq, Eq)]
pub enum HomTurn {
    /// As many tries were made as the turn may make, a try is next, and the fuel is not used up.
    Going,
    /// A homomorphism was found; `Homs::map` has it.
    Found,
    /// There is no further homomorphism.
    Done,
    /// A try is next, and the fuel is used up.
    Spent,
}

/// A listing of the homomorphisms from an instance `a` to an instance `b` that agree with a start map: those maps,
/// with the values of `a` alone as first members, that send each fact of `a` to a fact of `b`, fix each fixed constant
/// and send what the start names where the start sends it (Fagin, Kolaitis, Miller, Popa 2005; here they may move
/// constants). They come in the order of the places in `b` of the images of `a`'s facts, the facts taken in plan
/// order. The instances are shared and stay as they are.
#[derive(Drop)]
pub struct Homs {
    a: Rc<Indexed>,
    b: Rc<Indexed>,
    start: Snapshot<Map>,
    given: Vec<Given>,
    map: Map,
    search: Option<Search<LazyMatcher>>,
    is_found: bool,
}

impl Model for Homs {
    ghost use Rattle.eir_hom.specs.Progress.{Progress};

    ghost Value = { Progress };

    ghost use Rattle.eir_hom.specs.Listings.{homs_to_come, tries_to_come, found_hom, IsListing};

    ghost view = { λ h. record {
      source = h.a.value.facts;
      target = h.b.value.facts;
      start = h.start.value;
      found = found_hom h.is_found h.map;
      to_come = homs_to_come h.a.value.facts h.b.value.facts h.start.value h.search;
      tries = tries_to_come h.search;
    } };

    ghost invariant = { λ h. IsListing h.a.value.facts h.b.value.facts h.start.value h.given.items h.map h.search };
}

impl Homs {
    /// Begins a listing, and takes all the memory that it needs. The start may name values that `a` lacks, and sends
    /// each fixed constant that it names to itself.
    ///
    /// # Errors
    /// `Memory` alone.
    pub fn begin(
        alloc: Global,
        a: &Rc<Instance>,
        b: &Rc<Instance>,
        start: &Map,
    ) -> Result<Homs, Memory>
        requires fixed { KeepsFixed start.now }
        ensures { IfOk result (λ h. h ≡ record {
          source = a.now.value.facts;
          target = b.now.value.facts;
          start = start.now;
          found = None;
          to_come = all.homs a.now.value.facts b.now.value.facts start.now;
          tries = all.need a.now.value.facts b.now.value.facts start.now;
        }) }
    {
        let source = a.indexed()?;
        let target = b.indexed()?;
        Homs::begin_between(alloc, &source, &target, start)
    }

    /// Begins a listing as `begin` does, with a planner and a guard of the caller's: the planner is asked for the
    /// weights of facts, and the guard for profiles, now and never later.
    ///
    /// # Errors
    /// `Memory` alone.
    pub fn begin_with(
        alloc: Global,
        planner: &Planner,
        guard: &Guard,
        a: &Rc<Instance>,
        b: &Rc<Instance>,
        start: &Map,
    ) -> Result<Homs, Memory>
        requires fixed { KeepsFixed start.now }
        ensures { IfOk result (λ h. h ≡ record {
          source = a.now.value.facts;
          target = b.now.value.facts;
          start = start.now;
          found = None;
          to_come = all.homs a.now.value.facts b.now.value.facts start.now;
          tries = all.need a.now.value.facts b.now.value.facts start.now;
        }) }
    {
        let source = a.indexed()?;
        let target = b.indexed()?;
        Homs::begin_asking(alloc, planner, guard, &source, &target, start)
    }

    /// Begins a listing between facts with their index.
    fn begin_between(
        alloc: Global,
        a: &Rc<Indexed>,
        b: &Rc<Indexed>,
        start: &Map,
    ) -> Result<Homs, Memory>
        requires fixed { KeepsFixed start.now }
        ensures { IfOk result (λ h. h ≡ record {
          source = a.now.value.facts;
          target = b.now.value.facts;
          start = start.now;
          found = None;
          to_come = all.homs a.now.value.facts b.now.value.facts start.now;
          tries = all.need a.now.value.facts b.now.value.facts start.now;
        }) }
    {
        let course = Course::new(alloc, &Chooser::Standard, a, b, start)?;
        Homs::begin_along(alloc, &Guard::standard(), a, b, start, course)
    }

    /// The same with a planner and a guard of the caller's.
    fn begin_asking(
        alloc: Global,
        planner: &Planner,
        guard: &Guard,
        a: &Rc<Indexed>,
        b: &Rc<Indexed>,
        start: &Map,
    ) -> Result<Homs, Memory>
        requires fixed { KeepsFixed start.now }
        ensures { IfOk result (λ h. h ≡ record {
          source = a.now.value.facts;
          target = b.now.value.facts;
          start = start.now;
          found = None;
          to_come = all.homs a.now.value.facts b.now.value.facts start.now;
          tries = all.need a.now.value.facts b.now.value.facts start.now;
        }) }
    {
        let chooser = Chooser::Planned(planner);
        let mut course = Course::new(alloc, &chooser, a, b, start)?;
        course.list_all(&chooser, a);
        Homs::begin_along(alloc, guard, a, b, start, course)
    }

    /// Begins a listing that places the facts in the order of this course.
    fn begin_along(
        alloc: Global,
        guard: &Guard,
        a: &Rc<Indexed>,
        b: &Rc<Indexed>,
        start: &Map,
        course: Course,
    ) -> Result<Homs, Memory>
        requires fixed { KeepsFixed start.now }
        requires source { course.source ≡ a.now.value.facts }
        requires shapes { course.shapes ≡ shapes_of a.now.value.facts b.now.value.facts start.now }
        ensures { IfOk result (λ h. h ≡ record {
          source = a.now.value.facts;
          target = b.now.value.facts;
          start = start.now;
          found = None;
          to_come = all.homs a.now.value.facts b.now.value.facts start.now;
          tries = all.need a.now.value.facts b.now.value.facts start.now;
        }) }
    {
        let matcher = compile(alloc, guard, a, b, start, course)?;
        let given = list_given(alloc, a, start)?;
        let map = each_to_itself(alloc, a)?;
        let Ok(search) = Search::begin(alloc, matcher) else {
            return Err(Memory);
        };
        let _facts = b.as_slice();
        let _pairs = start.as_slice();
        Ok(Homs {
            a: a.clone()?,
            b: b.clone()?,
            start: Snapshot::of(start),
            given,
            map,
            search: Some(search),
            is_found: false,
        })
    }

    /// Makes up to `at_most` tries, until one completes a homomorphism, none is left or the fuel is used up. It takes
    /// no memory.
    pub fn turn<L: Ledger>(
        &mut self,
        at_most: u64,
        fuel: &mut Fuel,
        steps: &mut Steps<L>,
    ) -> HomTurn
        ensures source { self.new.source ≡ self.old.source }
        ensures target { self.new.target ≡ self.old.target }
        ensures start { self.new.start ≡ self.old.start }
        ensures found { result ≡ HomTurn.Found
            → (m : List (Val × Val)) × (self.new.found ≡ Some m) × (self.old.to_come ≡ m ∷ self.new.to_come) }
        ensures not_found { result ≢ HomTurn.Found
            → (self.new.found ≡ None) × (self.new.to_come ≡ self.old.to_come) }
        ensures done { result ≡ HomTurn.Done → (self.new.to_come ≡ []) × (self.new.tries ≡ 0) }
        ensures going { result ≡ HomTurn.Going
            → (fuel.new.used ≡ fuel.old.used + at_most) × (fuel.new.used < fuel.new.limit) × (0 < self.new.tries) }
        ensures spent { result ≡ HomTurn.Spent → (fuel.new.used ≡ fuel.new.limit) × (0 < self.new.tries) }
        ensures tries { self.old.tries ≡ (fuel.new.used - fuel.old.used) + self.new.tries }
        ensures at_most { fuel.new.used ≤ fuel.old.used + at_most }
        ensures used { fuel.old.used ≤ fuel.new.used }
        ensures limit { fuel.new.limit ≡ fuel.old.limit }
        ensures steps { steps.new + fuel.old.used ≡ steps.old + fuel.new.used }
    {
        let Some(search) = &mut self.search else {
            unreachable!()
        };
        let turn = search.turn(at_most, fuel, steps);
        self.is_found = false;
        match turn {
            Turn::Going => HomTurn::Going,
            Turn::Found => {
                write_images(&mut self.map, search, &self.b);
                self.is_found = true;
                HomTurn::Found
            }
            Turn::Done => HomTurn::Done,
            Turn::Spent => HomTurn::Spent,
        }
    }

    /// The homomorphism that the last turn found, lent.
    pub fn map(&self) -> &Map
        requires { IsSome self.now.found }
        ensures { Some result.now ≡ self.now.found }
    {
        &self.map
    }

    /// Begins anew from another start, which names the same values of `a` as the one before, and sends each fixed
    /// constant that it names to itself. It takes no memory. It is fastest where the pairs stand in the same order as
    /// before: then an image that did not change costs a comparison.
    pub fn restart(&mut self, start: &Map)
        requires fixed { KeepsFixed start.now }
        requires same { (v : Val) → v ∈ instances.values self.old.source
            → (v ∈ domain_of start.now) ↔ (v ∈ domain_of self.old.start) }
        ensures { self.new ≡ record {
          source = self.old.source;
          target = self.old.target;
          start = start.now;
          found = None;
          to_come = all.homs self.old.source self.old.target start.now;
          tries = all.need self.old.source self.old.target start.now;
        } }
    {
        let Some(search) = self.search.take() else {
            unreachable!()
        };
        let (mut matcher, room) = search.end();
        give_start(
            &mut matcher,
            &mut self.given,
            &self.a,
            &self.b,
            &self.start,
            start,
        );
        self.search = Some(Search::again(matcher, room));
        self.start = Snapshot::of(start);
        self.is_found = false;
    }

    /// The homomorphism that the last turn found; the listing ends.
    pub(crate) fn into_map(self) -> Map
        requires { IsSome self.found }
        ensures { Some result ≡ self.found }
    {
        self.map
    }
}

/// The map that sends each value of an instance to itself.
fn each_to_itself(alloc: Global, instance: &Indexed) -> Result<Map, Memory>
    ensures { IfOk result (λ m. domain_of m ≡ instances.values instance.now.facts) }
{
    let mut map = Map::new(alloc);
    for value in instance.values() {
        map.put(*value, *value)?;
    }
    Ok(map)
}

/// Writes the images that a search has found into a map of all values of the source.
fn write_images(map: &mut Map, search: &Search<LazyMatcher>, target: &Indexed)
    requires bound { (m : Bindings)
        → matched search.now.problem.levels search.now.problem.start search.now.choices ≡ Some m
        → (slot : ℕ) → slot < length map.old
        → (w : ℕ) × (bound_to m slot ≡ Some w) × (w < length (instances.values target.now.facts)) }
    requires there { IsSome (matched search.now.problem.levels search.now.problem.start search.now.choices) }
    ensures domain { domain_of map.new ≡ domain_of map.old }
    ensures images { (m : Bindings)
        → matched search.now.problem.levels search.now.problem.start search.now.choices ≡ Some m
        → (slot : ℕ) → slot < length map.old → (w : ℕ) → bound_to m slot ≡ Some w
        → image_at map.new slot ≡ slice_get (instances.values target.now.facts) w }
{
    let matcher = search.problem();
    let images = matcher.images();
    let _choices = search.choices();
    let values = target.values();
    for slot in 0..map.len() {
        map.set_at(slot, values[images[slot]]);
    }
}
