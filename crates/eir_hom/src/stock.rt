//! The tables that a search needs, in which the rows of a key are laid when they are first asked for.
ghost use Rattle.std.specs.Prelude.{◌≡◌, ℕ, ◌+◌, ◌*◌, ◌<◌, ◌≤◌, [], IfOk, IsOk, OnOk, Some, length, map, take};
ghost use Rattle.std.specs.Prelude.{slice_get, slice_index_or, vec_capacity};
ghost use Rattle.std.specs.List.{sum_by};
ghost use Rattle.eir_hom.specs.Occurring.{columns_of};
ghost use Rattle.eir_hom.specs.Levels.{but_at};
ghost use Rattle.eir_hom.specs.FactRows.{Within, numbers_at};
ghost use Rattle.eir_hom.specs.Fits.{AreFits, are_fits};
ghost use Rattle.eir_hom.specs.Tables.{rows_in, table_at};
ghost use Rattle.eir_hom.specs.Stocks.{AreShapes, IsShape, IsStocked, key_count, may_be_at, rel_of, row_length};
ghost use Rattle.eir_hom.specs.Stocks.{shape_table, under_key};

use crate::course::{Course, Shape};
use crate::fits::Fits;
use crate::planner::Chooser;
use crate::tables::{Range, Tables};
use eir_inst::Indexed;
use eir_term::Memory;
use std::alloc::Global;
use std::marker::Model;
use std::rc::Rc;

/// A table for each shape of a course: the rows of the facts that the fact of the shape may go to, under the numbers at
/// its column. A shape is listed, a table added, and a key laid, when it is first asked for, in memory that was taken
/// when the stock was made. `places` is where the facts of a key are gathered before their rows are laid.
#[derive(Drop)]
pub(crate) struct Stock {
    source: Rc<Indexed>,
    target: Rc<Indexed>,
    fits: Fits,
    course: Course,
    tables: Tables,
    places: Vec<usize>,
}

impl Model for Stock {
    ghost use Rattle.eir_hom.specs.Tables.{TablesView};

    ghost Value = { TablesView };

    ghost use Rattle.std.specs.Prelude.{◌≡◌, ◌≤◌, length, map, vec_capacity};
    ghost use Rattle.eir_hom.specs.Fits.{AreFits};
    ghost use Rattle.eir_hom.specs.Stocks.{IsStocked, shape_table};

    ghost view = { λ s. record {
      cells = s.tables.cells;
      tables = map (shape_table s.source.value.facts s.target.value.facts) s.course.shapes;
      shapes = s.course.shapes;
    } };

    ghost invariant = { λ s. (s.course.source ≡ s.source.value.facts)
        × AreFits s.source.value.facts s.target.value.facts s.fits
        × (length s.target.value.facts ≤ vec_capacity s.places)
        × IsStocked s.source.value.facts s.target.value.facts s.course.shapes s.tables };
}

impl Stock {
    /// The tables of this course's shapes, none of which is laid, with the memory for all of them.
    pub(crate) fn new(
        alloc: Global,
        a: &Rc<Indexed>,
        b: &Rc<Indexed>,
        fits: Fits,
        course: Course,
    ) -> Result<Stock, Memory>
        requires fits { AreFits a.now.value.facts b.now.value.facts fits }
        requires source { course.source ≡ a.now.value.facts }
        requires shapes { AreShapes a.now.value.facts course.shapes }
        requires columns { sum_by (row_length a.now.value.facts) course.shapes ≤ length (columns_of a.now.value.facts) }
        requires facts { length course.shapes ≡ length a.now.value.facts }
        ensures { IfOk result (λ s. s ≡ record {
          cells = [];
          tables = map (shape_table a.now.value.facts b.now.value.facts) course.shapes;
          shapes = course.shapes;
        }) }
    {
        let cells = times(b.len(), course.column_count())?;
        let ranges = times(a.len(), b.values().len() + 1)?;
        let tables = Tables::with_room(alloc, cells, ranges, a.len())?;
        let places = Vec::with_capacity(alloc, b.len())?;
        let source = a.clone()?;
        let target = b.clone()?;
        Ok(Stock {
            source,
            target,
            fits,
            course,
            tables,
            places,
        })
    }

    /// A shape, by its place in plan order. It lists those up to it that are not listed yet, and takes no memory.
    pub(crate) fn shape(&mut self, index: usize) -> Shape
        requires { index < length self.old.shapes }
        ensures same { self.new ≡ self.old }
        ensures shape { Some result ≡ slice_get self.old.shapes index }
    {
        shape_at(&mut self.course, &self.source, index)
    }

    /// Where the rows of a table under a key stand; the empty range for a key that the table has not. It lays them,
    /// where they are not laid yet, behind the cells that are there, and takes no memory.
    pub(crate) fn range(&mut self, table: usize, key: usize) -> Range
        requires { table < length self.old.tables }
        ensures tables { self.new.tables ≡ self.old.tables }
        ensures shapes { self.new.shapes ≡ self.old.shapes }
        ensures cells { take (length self.old.cells) self.new.cells ≡ self.old.cells }
        ensures rows { rows_in self.new.cells (table_at self.old.tables table).stride result
            ≡ slice_index_or (table_at self.old.tables table).rows key [] }
        ensures within { result.first + result.count * (table_at self.old.tables table).stride ≤ length self.new.cells }
    {
        match self.tables.laid(table, key) {
            Some(range) => range,
            None => self.lay(table, key),
        }
    }

    /// The same, where the rows may not be laid yet; it adds the tables that are not there.
    #[cold]
    #[inline(never)]
    fn lay(&mut self, table: usize, key: usize) -> Range
        requires { table < length self.old.tables }
        ensures tables { self.new.tables ≡ self.old.tables }
        ensures shapes { self.new.shapes ≡ self.old.shapes }
        ensures cells { take (length self.old.cells) self.new.cells ≡ self.old.cells }
        ensures rows { rows_in self.new.cells (table_at self.old.tables table).stride result
            ≡ slice_index_or (table_at self.old.tables table).rows key [] }
        ensures within { result.first + result.count * (table_at self.old.tables table).stride ≤ length self.new.cells }
    {
        add_to(
            &self.source,
            &self.target,
            &mut self.course,
            &mut self.tables,
            table,
        );
        if let Some(range) = self.tables.range(table, key) {
            return range;
        }
        let shape = shape_at(&mut self.course, &self.source, table);
        let Ok(()) = gather(
            &mut self.places,
            &self.source,
            &self.target,
            &self.fits,
            shape,
            key,
        ) else {
            unreachable!()
        };
        self.tables
            .lay(table, key, shape.column, &self.target, &self.places)
    }

    /// The cells that the rows stand in, lent.
    pub(crate) fn cells(&self) -> &[usize]
        ensures { result.now ≡ self.now.cells }
    {
        self.tables.cells()
    }
}

/// A product; no memory has so many places where that is no number of a machine word.
fn times(count: usize, each: usize) -> Result<usize, Memory>
    ensures { IfOk result (λ n. n ≡ count * each) }
{
    match count.checked_mul(each) {
        Some(product) => Ok(product),
        None => Err(Memory),
    }
}

/// The shape at an index of a course whose source is `a`; it lists those up to it that are not listed yet.
#[inline(never)]
fn shape_at(course: &mut Course, a: &Indexed, index: usize) -> Shape
    requires source { a.now.facts ≡ course.old.source }
    requires index { index < length course.old.shapes }
    ensures source { course.new.source ≡ course.old.source }
    ensures shapes { course.new.shapes ≡ course.old.shapes }
    ensures shape { Some result ≡ slice_get course.old.shapes index }
{
    while course.len() <= index {
        course.list_next(&Chooser::Standard, a);
    }
    course.get(index)
}

/// Adds the tables up to that of a shape that are not there, with no key laid.
fn add_to(a: &Indexed, b: &Indexed, course: &mut Course, tables: &mut Tables, last: usize)
    requires source { a.now.facts ≡ course.old.source }
    requires last { last < length course.old.shapes }
    requires stocked { IsStocked a.now.facts b.now.facts course.old.shapes tables.old }
    ensures source { course.new.source ≡ course.old.source }
    ensures shapes { course.new.shapes ≡ course.old.shapes }
    ensures stocked { IsStocked a.now.facts b.now.facts course.old.shapes tables.new }
    ensures cells { tables.new.cells ≡ tables.old.cells }
    ensures last { last < length tables.new.tables }
{
    while tables.len() <= last {
        let shape = shape_at(course, a, tables.len());
        let stride = stride_of(shape.column, a.numbers_at(shape.place));
        tables.add(stride, keys_for(shape.column, b));
    }
}

/// The length of a row but for the column.
pub(crate) fn stride_of(column: Option<usize>, numbers: &[usize]) -> usize
    requires { Within column numbers.now }
    ensures { result ≡ length (but_at column numbers.now) }
{
    match column {
        Some(_) => numbers.len() - 1,
        None => numbers.len(),
    }
}

/// The number of keys of a table: one for each number in `b`, and one for what is no value of `b`.
fn keys_for(column: Option<usize>, b: &Indexed) -> usize
    ensures { result ≡ key_count b.now.facts column }
{
    match column {
        Some(_) => b.values().len() + 1,
        None => 1,
    }
}

/// The relation of the fact at a place.
fn rel_at(a: &Indexed, place: usize) -> u32
    requires { place < length a.now.facts }
    ensures { result ≡ rel_of a.now.facts place }
{
    a.as_slice()[place].rel
}

/// The places of the facts of a relation under a key, ascending: those that have the value with this number at the
/// column, or all where no column is named.
fn places_under(b: &Indexed, rel: u32, column: Option<usize>, key: usize) -> &[usize]
    ensures { result.now ≡ under_key b.now.facts rel column key }
{
    match column {
        None => b.places_of(rel),
        Some(column) => match b.values().get(key) {
            Some(value) => b.places_with(rel, column, *value),
            None => &[],
        },
    }
}

/// The places of the facts under a key that the fact of the shape may go to. It fails only where room is missing.
#[inline(never)]
fn gather(
    places: &mut Vec<usize>,
    a: &Indexed,
    b: &Indexed,
    fits: &Fits,
    shape: Shape,
    key: usize,
) -> Result<(), Memory>
    requires fits { AreFits a.now.facts b.now.facts fits.now }
    requires shape { IsShape a.now.facts shape }
    ensures places { OnOk result
        (places.new.items ≡ may_be_at a.now.facts b.now.facts (are_fits a.now.facts b.now.facts) shape key) }
    ensures capacity { vec_capacity places.old ≤ vec_capacity places.new }
    ensures room { length b.now.facts ≤ vec_capacity places.old → IsOk result }
{
    places.clear();
    let row = a.numbers_at(shape.place);
    for place in places_under(b, rel_at(a, shape.place), shape.column, key) {
        if fits.pass(a, b, row, b.numbers_at(*place)) {
            places.push(*place)?;
        }
    }
    Ok(())
}
