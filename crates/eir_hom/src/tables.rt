//! Rows of numbers in flat memory.
ghost use Rattle.std.specs.Prelude.{◌≡◌, ℕ, ◌+◌, ◌*◌, ◌<◌, ◌≤◌, [], ◌∷◌, ◌++◌, None, Some, IfOk, IfSome, IsOk, OnOk};
ghost use Rattle.std.specs.Prelude.{length, map, flat_map, option_map, replicate, slice_index_or, slice_set};
ghost use Rattle.std.specs.Prelude.{vec_capacity};
ghost use Rattle.eir_term.specs.Lists.{◌∈◌};
ghost use Rattle.eir_hom.specs.Levels.{but_at};
ghost use Rattle.eir_hom.specs.FactRows.{HaveRows, IsPlace, Within, row_at};
ghost use Rattle.eir_hom.specs.Tables.{laid_at, rows_in, with_rows};

use eir_inst::Indexed;
use eir_term::Memory;
use std::alloc::Global;
use std::marker::Model;

/// Where rows stand in the cells: `count` of them, one behind the other, from the cell `first` on.
#[derive(Clone, Copy, Debug, PartialEq, Eq)]
pub(crate) struct Range {
    pub(crate) first: usize,
    pub(crate) count: usize,
}

/// Where a table's ranges stand: those of its keys, from the range `first` on, each with rows of `stride` numbers.
#[derive(Clone, Copy, Debug, PartialEq, Eq)]
struct Layout {
    first: usize,
    keys: usize,
    stride: usize,
}

/// Rows of numbers, for each table those of the keys that are laid so far. A table has a range for each key, and none
/// where the key is not laid.
#[derive(Drop)]
pub(crate) struct Tables {
    cells: Vec<usize>,
    ranges: Vec<Option<Range>>,
    layouts: Vec<Layout>,
}

impl Model for Tables {
    ghost use Rattle.eir_hom.specs.Tables.{LaidView};

    ghost Value = { LaidView };

    ghost use Rattle.std.specs.Prelude.{length, map, vec_capacity};
    ghost use Rattle.eir_hom.specs.Layouts.{AreLaid, table_of};

    ghost view = { λ t. record {
      cells = t.cells.items;
      tables = map (table_of t.cells.items t.ranges.items) t.layouts.items;
      ranges = length t.ranges.items;
      cells_room = vec_capacity t.cells;
      ranges_room = vec_capacity t.ranges;
      tables_room = vec_capacity t.layouts;
    } };

    ghost invariant = { λ t. AreLaid t.cells.items t.ranges.items 0 t.layouts.items };
}

impl Tables {
    /// No table, with room for so many tables, with so many cells and ranges together.
    pub(crate) fn with_room(
        alloc: Global,
        cells: usize,
        ranges: usize,
        tables: usize,
    ) -> Result<Tables, Memory>
        ensures { IfOk result (λ t. t ≡ record {
          cells = [];
          tables = [];
          ranges = 0;
          cells_room = cells;
          ranges_room = ranges;
          tables_room = tables;
        }) }
    {
        Ok(Tables {
            cells: Vec::with_capacity(alloc, cells)?,
            ranges: Vec::with_capacity(alloc, ranges)?,
            layouts: Vec::with_capacity(alloc, tables)?,
        })
    }

    /// The number of tables.
    pub(crate) fn len(&self) -> usize
        ensures { result ≡ length self.now.tables }
    {
        self.layouts.len()
    }

    /// Adds a table behind these, for which there is room. None of its keys is laid.
    #[inline(never)]
    pub(crate) fn add(&mut self, stride: usize, keys: usize)
        requires ranges_room { self.old.ranges + keys ≤ self.old.ranges_room }
        requires tables_room { length self.old.tables < self.old.tables_room }
        ensures tables { self.new.tables ≡ self.old.tables
            ++ record { stride = stride; rows = replicate keys None } ∷ [] }
        ensures cells { self.new.cells ≡ self.old.cells }
        ensures ranges { self.new.ranges ≡ self.old.ranges + keys }
        ensures cells_kept { self.old.cells_room ≤ self.new.cells_room }
        ensures ranges_kept { self.old.ranges_room ≤ self.new.ranges_room }
        ensures tables_kept { self.old.tables_room ≤ self.new.tables_room }
    {
        let first = self.ranges.len();
        let Ok(()) = self.ranges.resize(first + keys, None) else {
            unreachable!()
        };
        let Ok(()) = self.layouts.push(Layout {
            first,
            keys,
            stride,
        })
        else {
            unreachable!()
        };
    }

    /// Where the rows of a key stand, if it is laid; the empty range for a key that the table has not.
    pub(crate) fn range(&self, table: usize, key: usize) -> Option<Range>
        requires { table < length self.now.tables }
        ensures rows { option_map (rows_in self.now.cells (laid_at self.now.tables table).stride) result
            ≡ slice_index_or (laid_at self.now.tables table).rows key (Some []) }
        ensures within { IfSome result (λ range. range.first + range.count * (laid_at self.now.tables table).stride
            ≤ length self.now.cells) }
    {
        let layout = self.layouts[table];
        if key < layout.keys {
            self.ranges[layout.first + key]
        } else {
            Some(Range { first: 0, count: 0 })
        }
    }

    /// Where the rows of a key stand, if its table is there and the key is one of its keys and is laid.
    pub(crate) fn laid(&self, table: usize, key: usize) -> Option<Range>
        ensures table { IfSome result (λ _. table < length self.now.tables) }
        ensures rows { IfSome result (λ range.
            Some (rows_in self.now.cells (laid_at self.now.tables table).stride range)
            ≡ slice_index_or (laid_at self.now.tables table).rows key (Some [])) }
        ensures within { IfSome result (λ range. range.first + range.count * (laid_at self.now.tables table).stride
            ≤ length self.now.cells) }
    {
        if table < self.layouts.len() {
            let layout = self.layouts[table];
            if key < layout.keys {
                return self.ranges[layout.first + key];
            }
        }
        None
    }

    /// Lays the rows of the facts at these places under a key, for which there is room, and answers where they stand.
    /// The rows leave out the column.
    #[inline(never)]
    pub(crate) fn lay(
        &mut self,
        table: usize,
        key: usize,
        column: Option<usize>,
        b: &Indexed,
        places: &[usize],
    ) -> Range
        requires table { table < length self.old.tables }
        requires key { key < length (laid_at self.old.tables table).rows }
        requires rows { HaveRows b.now.facts column (laid_at self.old.tables table).stride places.now }
        requires cells_room { length self.old.cells + length places.now * (laid_at self.old.tables table).stride
            ≤ self.old.cells_room }
        ensures tables { self.new.tables ≡ slice_set self.old.tables table
            (with_rows (laid_at self.old.tables table) key (map (row_at b.now.facts column) places.now)) }
        ensures cells { self.new.cells ≡ self.old.cells ++ flat_map (row_at b.now.facts column) places.now }
        ensures ranges { self.new.ranges ≡ self.old.ranges }
        ensures cells_kept { self.old.cells_room ≤ self.new.cells_room }
        ensures ranges_kept { self.old.ranges_room ≤ self.new.ranges_room }
        ensures tables_kept { self.old.tables_room ≤ self.new.tables_room }
        ensures rows { rows_in self.new.cells (laid_at self.old.tables table).stride result
            ≡ map (row_at b.now.facts column) places.now }
        ensures within { result.first + result.count * (laid_at self.old.tables table).stride ≤ length self.new.cells }
    {
        let range = Range {
            first: self.cells.len(),
            count: places.len(),
        };
        let Ok(()) = push_rows(&mut self.cells, column, b, places) else {
            unreachable!()
        };
        let first = self.layouts[table].first;
        self.ranges[first + key] = Some(range);
        range
    }

    /// The cells that the rows stand in, lent.
    pub(crate) fn cells(&self) -> &[usize]
        ensures { result.now ≡ self.now.cells }
    {
        self.cells.as_slice()
    }
}

/// Appends the rows of the facts at these places. It fails only where room is missing.
fn push_rows(
    cells: &mut Vec<usize>,
    column: Option<usize>,
    b: &Indexed,
    places: &[usize],
) -> Result<(), Memory>
    requires { (p : ℕ) → p ∈ places.now → IsPlace b.now.facts column p }
    ensures cells { OnOk result (cells.new.items ≡ cells.old.items ++ flat_map (row_at b.now.facts column) places.now) }
    ensures capacity { vec_capacity cells.old ≤ vec_capacity cells.new }
    ensures room { length cells.old.items + length (flat_map (row_at b.now.facts column) places.now)
        ≤ vec_capacity cells.old → IsOk result }
{
    for place in places {
        push_row(cells, column, b.numbers_at(*place))?;
    }
    Ok(())
}

/// Appends the numbers but that of the column. It fails only where room is missing.
pub(crate) fn push_row(
    cells: &mut Vec<usize>,
    column: Option<usize>,
    numbers: &[usize],
) -> Result<(), Memory>
    requires { Within column numbers.now }
    ensures cells { OnOk result (cells.new.items ≡ cells.old.items ++ but_at column numbers.now) }
    ensures capacity { vec_capacity cells.old ≤ vec_capacity cells.new }
    ensures room { length cells.old.items + length (but_at column numbers.now) ≤ vec_capacity cells.old → IsOk result }
{
    match column {
        None => cells.extend_from_slice(numbers)?,
        Some(i) => {
            cells.extend_from_slice(&numbers[..i])?;
            cells.extend_from_slice(&numbers[i + 1..])?;
        }
    }
    Ok(())
}
