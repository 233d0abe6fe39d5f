//! What the search goes through: rows of numbers, level by level.
ghost use Rattle.std.specs.Prelude.{◌≡◌, ◌≢◌, ℕ, ◌+◌, ◌<◌, ◌≤◌, get_or, slice_get, ◌++◌, ◌∷◌, [], Some, None, true};
ghost use Rattle.std.specs.Prelude.{length, take, map, IfOk, IsOk, OnOk, OnErr, vec_capacity};
ghost use Rattle.std.specs.List.{sum_by};
ghost use Rattle.eir_hom.specs.Levels.{but_at};
ghost use Rattle.eir_hom.specs.FactRows.{Within};
ghost use Rattle.eir_hom.specs.Tables.{table_at};
ghost use Rattle.eir_hom.specs.Matching.{Bindings, bound_to, matched, match_space, with_number};
ghost use Rattle.eir_hom.specs.declared.matching.CompiledLevel.{CompiledLevel};
ghost use Rattle.eir_hom.specs.declared.tables.Range.{Range};
ghost use Rattle.eir_hom.specs.MatcherParts.{IsRangeFor};
ghost use Rattle.eir_hom.specs.Columns.{is_among, bound_slots, unmarked, AreBelow};

use crate::columns::{Column, mark_new};
use crate::course::Shape;
use crate::rows::scan_rows;
use crate::stock::{Stock, stride_of};
use crate::tables::Range;
use eir_search::Problem;
use eir_term::Memory;
use std::alloc::Global;
use std::marker::Model;

/// Where a level's parts stand: the slot that picks its rows, its table, and its columns, which are as many as a row
/// has numbers.
#[derive(Clone, Copy, Debug, PartialEq, Eq)]
struct CompiledLevel {
    key: usize,
    table: usize,
    first_column: usize,
    stride: usize,
}

/// Rows of numbers that are matched level by level: a row of each level is chosen among those that the number of the
/// level's key slot picks, and binds the level's slots to its numbers; a slot keeps the number that it was first bound
/// to.
///
/// A slot's number stands in one cell, and so does the range of a level's rows. What a lifted level wrote stays, and
/// nobody reads it until it is written anew; so no try takes memory, and none hashes or looks through anything but its
/// row, once the rows for each number are laid.
#[derive(Drop)]
pub(crate) struct Matcher {
    stock: Box<Stock>,
    levels: Vec<CompiledLevel>,
    columns: Vec<Column>,
    ranges: Vec<Range>,
    images: Vec<usize>,
    is_bound: Vec<bool>,
    given: Vec<usize>,
    placed: Vec<usize>,
    depth: usize,
}

impl Model for Matcher {
    ghost use Rattle.eir_hom.specs.Matching.{Match};

    ghost Value = { Match };

    ghost use Rattle.std.specs.Prelude.{length, take, vec_capacity};
    ghost use Rattle.eir_hom.specs.MatcherParts.{levels_in, start_in, HasLevelRoom, IsMatcher};

    ghost view = { λ p. record {
      slots = length p.images.items;
      tables = p.stock.value.tables;
      shapes = p.stock.value.shapes;
      levels = levels_in p.stock.value p.columns.items p.levels.items;
      start = start_in p.given.items p.images.items;
      placed = take p.depth p.placed.items;
    } };

    ghost invariant = { λ p. IsMatcher p.stock.value p.columns.items p.levels.items p.given.items p.images.items
        p.is_bound.items p.ranges.items p.placed.items p.depth
        × HasLevelRoom p.stock.value.tables (length p.levels.items) (length p.columns.items) (vec_capacity p.levels)
        (vec_capacity p.columns) (length p.ranges.items) (length p.placed.items) };
}

impl Matcher {
    /// A matcher of so many slots that has no level and binds nothing, with room for so many levels, with so many
    /// columns together: one level for each table.
    pub(crate) fn new(
        alloc: Global,
        stock: Stock,
        slots: usize,
        levels: usize,
        columns: usize,
    ) -> Result<Matcher, Memory>
        requires levels { length stock.tables ≤ levels }
        requires columns { sum_by (λ t. t.stride) stock.tables ≤ columns }
        ensures { IfOk result (λ m. m ≡ record {
          slots = slots;
          tables = stock.tables;
          shapes = stock.shapes;
          levels = [];
          start = [];
          placed = [];
        }) }
    {
        let range = Range { first: 0, count: 0 };
        Ok(Matcher {
            stock: Box::new(alloc, stock)?,
            levels: Vec::with_capacity(alloc, levels)?,
            columns: Vec::with_capacity(alloc, columns)?,
            ranges: vec![in alloc; range; levels]?,
            images: vec![in alloc; 0usize; slots]?,
            is_bound: vec![in alloc; false; slots]?,
            given: Vec::new(alloc),
            placed: vec![in alloc; 0usize; levels]?,
            depth: 0,
        })
    }

    /// The number of levels.
    pub(crate) fn len(&self) -> usize
        ensures { result ≡ length self.now.levels }
    {
        self.levels.len()
    }

    /// The number of levels that are placed.
    pub(crate) fn depth(&self) -> usize
        ensures { result ≡ length self.now.placed }
    {
        self.depth
    }

    /// The shape of a level that is there or is still to be pushed, by its place in plan order.
    pub(crate) fn shape(&mut self, level: usize) -> Shape
        requires { level < length self.old.shapes }
        ensures same { self.new ≡ self.old }
        ensures shape { Some result ≡ slice_get self.old.shapes level }
    {
        self.stock.shape(level)
    }

    /// Binds a slot to a number at the start.
    pub(crate) fn bind(&mut self, slot: usize, number: usize) -> Result<(), Memory>
        requires levels { self.old.levels ≡ [] }
        requires slot { slot < self.old.slots }
        requires unbound { bound_to self.old.start slot ≡ None }
        ensures ok { OnOk result
            (self.new ≡ record self.old { start = self.old.start ++ (slot, number) ∷ [] }) }
        ensures err { OnErr result (self.new ≡ self.old) }
    {
        self.given.push(slot)?;
        self.images[slot] = number;
        self.is_bound[slot] = true;
        Ok(())
    }

    /// Appends a level, where all that are there are placed: the rows of its table, that after those of the other
    /// levels, for the number of the slot `key` bind the slots of these numbers but that at the column. The slot `key`
    /// is bound before. It takes no memory.
    pub(crate) fn push_level(&mut self, key: usize, column: Option<usize>, numbers: &[usize])
        requires placed { length self.old.placed ≡ length self.old.levels }
        requires table { length self.old.levels < length self.old.tables }
        requires column { Within column numbers.now }
        requires key { is_among key (bound_slots (map (λ p. p.0) self.old.start) self.old.levels) ≡ true }
        requires slots { AreBelow (but_at column numbers.now) self.old.slots }
        requires stride { (table_at self.old.tables (length self.old.levels)).stride
            ≡ length (but_at column numbers.now) }
        ensures { self.new ≡ record self.old {
          levels = self.old.levels ++ (record {
            key = key;
            slots = but_at column numbers.now;
            rows = (table_at self.old.tables (length self.old.levels)).rows;
          }) ∷ [];
        } }
    {
        let level = self.levels.len();
        let first_column = self.columns.len();
        let stride = stride_of(column, numbers);
        let Ok(()) = append_row(&mut self.columns, column, numbers) else {
            unreachable!()
        };
        let Ok(()) = self.levels.push(CompiledLevel {
            key,
            table: level,
            first_column,
            stride,
        })
        else {
            unreachable!()
        };
        mark_new(&mut self.columns[first_column..], &mut self.is_bound);
        set_range(
            &mut self.stock,
            &self.levels,
            &self.images,
            &mut self.ranges,
            level,
        );
    }

    /// Gives a slot that is bound at the start another number.
    pub(crate) fn set_start(&mut self, slot: usize, number: usize)
        requires placed { self.old.placed ≡ [] }
        requires bound { is_among slot (map (λ p. p.0) self.old.start) ≡ true }
        ensures { self.new ≡ record self.old { start = with_number self.old.start slot number } }
    {
        self.images[slot] = number;
        renew_range(
            &mut self.stock,
            &self.levels,
            &self.images,
            &mut self.ranges,
            slot,
        );
    }

    /// The numbers of all slots, lent; a slot that is not bound has any.
    pub(crate) fn images(&self) -> &[usize]
        ensures { (m : Bindings) → matched self.now.levels self.now.start self.now.placed ≡ Some m
            → (slot w : ℕ) → bound_to m slot ≡ Some w
            → (slot < length result.now) × (get_or result.now slot 0 ≡ w) }
    {
        &self.images
    }
}

impl Problem for Matcher {
    type Base = Matcher;

    ghost space = { λ m. match_space m.levels m.start };

    ghost placed = { λ m. m.placed };

    ghost base = { λ m. record m { placed = [] } };

    fn levels(&self) -> usize {
        self.levels.len()
    }

    fn width(&self, level: usize) -> usize {
        self.ranges[level].count
    }

    fn place(&mut self, level: usize, choice: usize) -> bool {
        // The choice is below the width, so there is a number behind it.
        let _width = self.width(level);
        self.scan(level, choice, choice + 1) == choice
    }

    fn scan(&mut self, level: usize, from: usize, to: usize) -> usize {
        let CompiledLevel {
            first_column,
            stride,
            ..
        } = self.levels[level];
        let first = self.ranges[level].first;
        let columns = &self.columns[first_column..first_column + stride];
        let found = scan_rows(
            columns,
            self.stock.cells(),
            first,
            from,
            to,
            &mut self.images,
        );
        if found < to {
            self.placed[level] = found;
            self.depth = level + 1;
            set_range(
                &mut self.stock,
                &self.levels,
                &self.images,
                &mut self.ranges,
                level + 1,
            );
        }
        found
    }

    fn lift(&mut self, level: usize) {
        self.depth = level;
    }
}

/// Appends a column for each of these numbers but that at the column, none of which is new so far. It fails only where
/// room is missing.
fn append_row(
    columns: &mut Vec<Column>,
    column: Option<usize>,
    numbers: &[usize],
) -> Result<(), Memory>
    requires { Within column numbers.now }
    ensures items { OnOk result (columns.new.items ≡ columns.old.items ++ map unmarked (but_at column numbers.now)) }
    ensures capacity { vec_capacity columns.old ≤ vec_capacity columns.new }
    ensures room { length columns.old.items + length (but_at column numbers.now) ≤ vec_capacity columns.old
        → IsOk result }
{
    match column {
        None => append_columns(columns, numbers)?,
        Some(i) => {
            append_columns(columns, &numbers[..i])?;
            append_columns(columns, &numbers[i + 1..])?;
        }
    }
    Ok(())
}

/// Appends a column for each of these slots, none of which is new so far. It fails only where room is missing.
fn append_columns(columns: &mut Vec<Column>, slots: &[usize]) -> Result<(), Memory>
    ensures items { OnOk result (columns.new.items ≡ columns.old.items ++ map unmarked slots.now) }
    ensures capacity { vec_capacity columns.old ≤ vec_capacity columns.new }
    ensures room { length columns.old.items + length slots.now ≤ vec_capacity columns.old → IsOk result }
{
    for &slot in slots {
        columns.push(Column {
            slot,
            is_new: false,
        })?;
    }
    Ok(())
}

/// Sets the range of a level to where its rows stand for the number of its key slot, which lays them where that was not
/// done yet; nothing past the last level.
fn set_range(
    stock: &mut Stock,
    levels: &[CompiledLevel],
    images: &[usize],
    ranges: &mut [Range],
    level: usize,
)
    requires room { length levels.now ≤ length ranges.old }
    requires parts { (l : CompiledLevel) → slice_get levels.now level ≡ Some l
        → (l.table < length stock.old.tables) × (l.key < length images.now) }
    ensures tables { stock.new.tables ≡ stock.old.tables }
    ensures shapes { stock.new.shapes ≡ stock.old.shapes }
    ensures cells { take (length stock.old.cells) stock.new.cells ≡ stock.old.cells }
    ensures length { length ranges.new ≡ length ranges.old }
    ensures others { (k : ℕ) → k ≢ level → slice_get ranges.new k ≡ slice_get ranges.old k }
    ensures range { (l : CompiledLevel) (r : Range) → slice_get levels.now level ≡ Some l
        → slice_get ranges.new level ≡ Some r
        → IsRangeFor stock.new l (get_or images.now l.key 0) r }
{
    if level < levels.len() {
        let CompiledLevel { key, table, .. } = levels[level];
        ranges[level] = stock.range(table, images[key]);
    }
}

/// Sets the range of the first level anew where this slot, whose number is another now, is the one that picks its rows.
fn renew_range(
    stock: &mut Stock,
    levels: &[CompiledLevel],
    images: &[usize],
    ranges: &mut [Range],
    slot: usize,
)
    requires room { length levels.now ≤ length ranges.old }
    requires parts { (l : CompiledLevel) → slice_get levels.now 0 ≡ Some l
        → (l.table < length stock.old.tables) × (l.key < length images.now) }
    requires others { (l : CompiledLevel) (r : Range) → slice_get levels.now 0 ≡ Some l
        → slice_get ranges.old 0 ≡ Some r → l.key ≢ slot
        → IsRangeFor stock.old l (get_or images.now l.key 0) r }
    ensures tables { stock.new.tables ≡ stock.old.tables }
    ensures shapes { stock.new.shapes ≡ stock.old.shapes }
    ensures cells { take (length stock.old.cells) stock.new.cells ≡ stock.old.cells }
    ensures length { length ranges.new ≡ length ranges.old }
    ensures range { (l : CompiledLevel) (r : Range) → slice_get levels.now 0 ≡ Some l
        → slice_get ranges.new 0 ≡ Some r
        → IsRangeFor stock.new l (get_or images.now l.key 0) r }
{
    if !levels.is_empty() && levels[0].key == slot {
        set_range(stock, levels, images, ranges, 0);
    }
}
