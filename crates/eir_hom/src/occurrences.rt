//! The occurrences of each value, one after the other.
ghost use Rattle.std.specs.Prelude.{◌≡◌, ◌+◌, ◌<◌, IfOk, length, slice_get};
ghost use Rattle.eir_hom.specs.Occurring.{column_at, IsNextOf, AreNumbered, AreLinked, AreLinkedFrom};

use eir_term::Memory;
use std::alloc::Global;
use std::marker::Model;

/// A column of a fact: the place of the fact, and the number of the value.
#[derive(Clone, Copy, Debug)]
pub(crate) struct Column {
    pub(crate) fact: usize,
    pub(crate) value: usize,
}

/// The columns of some facts, in which those of one value can be followed from one to the next.
#[derive(Drop)]
pub(crate) struct Occurrences {
    columns: Vec<Column>,
    firsts: Vec<usize>,
    nexts: Vec<usize>,
}

impl Model for Occurrences {
    ghost use Rattle.std.specs.Prelude.{length};
    ghost use Rattle.eir_hom.specs.Occurring.{Occurring, AreLinked};

    ghost Value = { Occurring };

    ghost view = { λ o. record { columns = o.columns.items; values = length o.firsts.items } };

    ghost invariant = { λ o. AreLinked o.columns.items o.firsts.items o.nexts.items };
}

impl Occurrences {
    /// These columns, of values that are numbered below `values`.
    pub(crate) fn new(
        alloc: Global,
        columns: Vec<Column>,
        values: usize,
    ) -> Result<Occurrences, Memory>
        requires { AreNumbered columns.items values }
        ensures { IfOk result (λ o. o ≡ record { columns = columns.items; values = values }) }
    {
        let mut firsts = vec![in alloc; columns.len(); values]?;
        let mut nexts = vec![in alloc; columns.len(); columns.len()]?;
        link(&columns, &mut firsts, &mut nexts);
        Ok(Occurrences {
            columns,
            firsts,
            nexts,
        })
    }

    /// The number of columns.
    pub(crate) fn len(&self) -> usize
        ensures { result ≡ length self.now.columns }
    {
        self.columns.len()
    }

    /// The column at a place.
    pub(crate) fn get(&self, place: usize) -> Option<Column>
        ensures { result ≡ slice_get self.now.columns place }
    {
        self.columns.get(place).copied()
    }

    /// The place of the first column with a value, or the end.
    pub(crate) fn first(&self, value: usize) -> usize
        requires { value < self.now.values }
        ensures { IsNextOf self.now.columns value 0 result }
    {
        self.firsts[value]
    }

    /// The place of the next column with the value of this one, or the end.
    pub(crate) fn after(&self, place: usize) -> usize
        requires { place < length self.now.columns }
        ensures { IsNextOf self.now.columns (column_at self.now.columns place).value (place + 1) result }
    {
        self.nexts[place]
    }
}

/// Links each column to the next one with its value, the last first. Where there is none, the link is the end.
fn link(columns: &[Column], firsts: &mut [usize], nexts: &mut [usize])
    requires numbered { AreNumbered columns.now (length firsts.old) }
    requires blank { AreLinkedFrom columns.now (length columns.now) firsts.old nexts.old }
    ensures { AreLinked columns.now firsts.new nexts.new }
{
    let mut place = columns.len();
    while place > 0 {
        place -= 1;
        let value = columns[place].value;
        nexts[place] = firsts[value];
        firsts[value] = place;
    }
}
