//! The order in which a search places the facts of its source.
ghost use Rattle.std.specs.Prelude.{◌≡◌, ◌++◌, ◌<◌, ◌≤◌, [], ℕ, true, OnOk, IfOk, filter, length, map, slice_index};
ghost use Rattle.std.specs.Prelude.{slice_set};
ghost use Rattle.eir_term.specs.Lists.{place_of};
ghost use Rattle.eir_term.specs.Values.{val_eq};
ghost use Rattle.eir_term.specs.Instances.{values};
ghost use Rattle.eir_term.specs.Plans as plans;
ghost use Rattle.eir_hom.specs.Occurring as columns;
ghost use Rattle.eir_hom.specs.Occurring.{columns_with, is_marked};
ghost use Rattle.eir_hom.specs.Fronts.{AreViews, first_seat};

use crate::AtomView;
use crate::counts::count_in;
use crate::course::Course;
use crate::front::Seat;
use crate::occurrences::Column;
use crate::planner::Chooser;
use eir_inst::{Indexed, Instance};
use eir_term::{Map, Memory, Val};
use std::alloc::Global;

/// The places of the facts of `a` in the order in which a search into `b` over this start places them: the lightest
/// first, the first of them among equals (this project's own). For `c` columns of `n` facts it costs `c log n`.
pub fn plan_of(alloc: Global, a: &Instance, b: &Instance, start: &Map) -> Result<Vec<usize>, Memory>
    ensures { IfOk result (λ order. order.items ≡ plans.plan a.now.facts b.now.facts start.now) }
{
    let source = a.indexed()?;
    let target = b.indexed()?;
    plan_between(alloc, &source, &target, start)
}

/// The same of facts with their index.
fn plan_between(alloc: Global, a: &Indexed, b: &Indexed, start: &Map) -> Result<Vec<usize>, Memory>
    ensures { IfOk result (λ order. order.items ≡ plans.plan a.now.facts b.now.facts start.now) }
{
    let mut course = Course::new(alloc, &Chooser::Standard, a, b, start)?;
    course.list_all(&Chooser::Standard, a);
    let places = course.places(alloc)?;
    Ok(places)
}

/// For each value of `a`, by its number, whether it is fixed or given by the start.
pub(crate) fn given(alloc: Global, a: &Indexed, start: &Map) -> Result<Vec<bool>, Memory>
    ensures { IfOk result (λ known. known.items ≡ map (plans.is_known start.now []) (values a.now.facts)) }
{
    let mut known = Vec::with_capacity(alloc, a.values().len())?;
    for value in a.values() {
        known.push(value.is_fixed())?;
    }
    mark_given(a, start, &mut known);
    Ok(known)
}

/// Marks the values that are given by the start.
fn mark_given(a: &Indexed, start: &Map, known: &mut [bool])
    requires { known.old ≡ map (plans.is_known [] []) (values a.now.facts) }
    ensures { known.new ≡ map (plans.is_known start.now []) (values a.now.facts) }
{
    for place in 0..start.len() {
        if let Some((value, _)) = start.pair(place) {
            mark(a, known, value);
        }
    }
}

/// Marks a value, if it occurs.
fn mark(a: &Indexed, known: &mut [bool], value: Val)
    requires { length known.old ≡ length (values a.now.facts) }
    ensures { known.new ≡ slice_set known.old (place_of val_eq value (values a.now.facts)) true }
{
    if let Some(number) = a.number_of(value) {
        known[number] = true;
    }
}

/// The columns of the facts, fact by fact.
pub(crate) fn columns_of(alloc: Global, a: &Indexed) -> Result<Vec<Column>, Memory>
    ensures { IfOk result (λ cs. cs.items ≡ columns.columns_of a.now.facts) }
{
    let mut columns = Vec::new(alloc);
    for place in 0..a.len() {
        append_columns(&mut columns, place, a.numbers_at(place))?;
    }
    Ok(columns)
}

/// Appends the columns of the fact at a place, which has values of these numbers.
fn append_columns(columns: &mut Vec<Column>, place: usize, row: &[usize]) -> Result<(), Memory>
    ensures { OnOk result (columns.new.items ≡ columns.old.items ++ columns_with place row.now) }
{
    for value in row {
        columns.push(Column {
            fact: place,
            value: *value,
        })?;
    }
    Ok(())
}

/// The facts as they are seen while none is listed.
pub(crate) fn seats_of(
    alloc: Global,
    a: &Indexed,
    b: &Indexed,
    start: &Map,
    known: &[bool],
) -> Result<Vec<Seat>, Memory>
    requires { known.now ≡ map (plans.is_known start.now []) (values a.now.facts) }
    ensures seats { IfOk result (λ seats. seats.items ≡ map (first_seat b.now.facts start.now) a.now.facts) }
    ensures views { IfOk result (λ seats. AreViews seats.items) }
{
    let mut seats = Vec::with_capacity(alloc, a.len())?;
    let mut counts = [None; 16];
    for place in 0..a.len() {
        let fact = &a.as_slice()[place];
        let rel = fact.rel;
        let view = AtomView {
            rel,
            arity: fact.args.as_slice().len() as u32,
            bound: known_among(known, a.numbers_at(place)),
            count: count_in(b, rel, &mut counts),
        };
        seats.push(Seat {
            view,
            is_listed: false,
        })?;
    }
    Ok(seats)
}

/// How many of these numbers are marked as known.
fn known_among(known: &[bool], row: &[usize]) -> u32
    requires numbered { (k : ℕ) → k < length row.now → slice_index row.now k < length known.now }
    requires few { length row.now ≤ 16 }
    ensures known { result ≡ length (filter (is_marked known.now) row.now) }
    ensures within { result ≤ length row.now }
{
    let mut count = 0;
    for value in row {
        if known[*value] {
            count += 1;
        }
    }
    count
}
