//! The facts of a source in plan order, worked out one after the other.
ghost use Rattle.std.specs.Prelude.{◌≡◌, ◌+◌, ◌<◌, ◌≤◌, IfOk, Some, length, map, slice_get, take};
ghost use Rattle.eir_hom.specs.FactRows.{AllUnder};
ghost use Rattle.eir_hom.specs.Occurring.{columns_of};
ghost use Rattle.eir_hom.specs.Compiling.{first_set};
ghost use Rattle.eir_hom.specs.Courses.{shapes_of};

use crate::front::Front;
use crate::occurrences::Occurrences;
use crate::plan::{columns_of, given, seats_of};
use crate::planner::Chooser;
use eir_inst::Indexed;
use eir_term::{Map, Memory};
use std::alloc::Global;
use std::marker::Model;
use std::snapshot::Snapshot;

/// A fact of the source, by its place, and the column by which the facts that it may go to are found: the first whose
/// value is known when it is placed.
#[derive(Clone, Copy, Debug, PartialEq, Eq)]
pub(crate) struct Shape {
    pub(crate) place: usize,
    pub(crate) column: Option<usize>,
}

/// The shapes of a source's facts in plan order, of which the first are listed. The next one is worked out when it is
/// asked for, in memory that was taken when the course was made.
#[derive(Drop)]
pub(crate) struct Course {
    source: Snapshot<Indexed>,
    target: Snapshot<Indexed>,
    start: Snapshot<Map>,
    front: Front,
    occurrences: Occurrences,
    known: Vec<bool>,
    shapes: Vec<Shape>,
}

impl Model for Course {
    ghost use Rattle.eir_hom.specs.Courses.{CourseView};

    ghost Value = { CourseView };

    ghost use Rattle.std.specs.Prelude.{length, vec_capacity};
    ghost use Rattle.eir_hom.specs.Courses.{shapes_of, IsCourse};

    ghost view = { λ c. record {
      source = c.source.value.facts;
      shapes = shapes_of c.source.value.facts c.target.value.facts c.start.value;
      listed = length c.shapes.items;
    } };

    ghost invariant = { λ c. IsCourse c.source.value.facts c.target.value.facts c.start.value
        c.front c.occurrences c.known.items c.shapes.items (vec_capacity c.shapes) };
}

impl Course {
    /// The course of a search from `a` to `b` over this start, of which nothing is listed.
    pub(crate) fn new(
        alloc: Global,
        chooser: &Chooser,
        a: &Indexed,
        b: &Indexed,
        start: &Map,
    ) -> Result<Course, Memory>
        ensures { IfOk result (λ c. c ≡ record {
          source = a.now.facts;
          shapes = shapes_of a.now.facts b.now.facts start.now;
          listed = 0;
        }) }
    {
        let known = given(alloc, a, start)?;
        let columns = columns_of(alloc, a)?;
        let occurrences = Occurrences::new(alloc, columns, known.len())?;
        let seats = seats_of(alloc, a, b, start, &known)?;
        let front = Front::new(alloc, chooser, seats)?;
        let shapes = Vec::with_capacity(alloc, a.len())?;
        Ok(Course {
            source: Snapshot::of(a),
            target: Snapshot::of(b),
            start: Snapshot::of(start),
            front,
            occurrences,
            known,
            shapes,
        })
    }

    /// How many shapes are listed. There is one for each fact of the source.
    pub(crate) fn len(&self) -> usize
        ensures listed { result ≡ self.now.listed }
        ensures within { self.now.listed ≤ length self.now.shapes }
        ensures facts { length self.now.shapes ≡ length self.now.source }
    {
        self.shapes.len()
    }

    /// How many columns the facts of the source have together.
    pub(crate) fn column_count(&self) -> usize
        ensures { result ≡ length (columns_of self.now.source) }
    {
        self.occurrences.len()
    }

    /// Lists the next shape, where the source is `a`. It takes no memory.
    pub(crate) fn list_next(&mut self, chooser: &Chooser, a: &Indexed)
        requires source { a.now.facts ≡ self.old.source }
        requires more { self.old.listed < length self.old.shapes }
        ensures { self.new ≡ record self.old { listed = self.old.listed + 1 } }
    {
        let Some(place) = self.front.list_lightest() else {
            unreachable!()
        };
        let numbers = a.numbers_at(place);
        let column = first_known(&self.known, numbers);
        let Ok(()) = self.shapes.push(Shape { place, column }) else {
            unreachable!()
        };
        self.front
            .learn_all(chooser, &self.occurrences, &mut self.known, numbers);
    }

    /// Lists all shapes, where the source is `a`. It takes no memory.
    pub(crate) fn list_all(&mut self, chooser: &Chooser, a: &Indexed)
        requires { a.now.facts ≡ self.old.source }
        ensures { self.new ≡ record self.old { listed = length self.old.shapes } }
    {
        for _ in self.len()..a.len() {
            self.list_next(chooser, a);
        }
    }

    /// The places of the facts whose shapes are listed, in plan order.
    pub(crate) fn places(&self, alloc: Global) -> Result<Vec<usize>, Memory>
        ensures { IfOk result (λ v. v.items ≡ map (λ s. s.place) (take self.now.listed self.now.shapes)) }
    {
        let mut places = Vec::with_capacity(alloc, self.shapes.len())?;
        for shape in &self.shapes {
            places.push(shape.place)?;
        }
        Ok(places)
    }

    /// A shape that is listed, by its place in plan order.
    pub(crate) fn get(&self, index: usize) -> Shape
        requires { index < self.now.listed }
        ensures { Some result ≡ slice_get self.now.shapes index }
    {
        self.shapes[index]
    }
}

/// The first column whose number is marked.
fn first_known(known: &[bool], numbers: &[usize]) -> Option<usize>
    requires { AllUnder (length known.now) numbers.now }
    ensures { result ≡ first_set known.now 0 numbers.now }
{
    for column in 0..numbers.len() {
        if known[numbers[column]] {
            return Some(column);
        }
    }
    None
}
