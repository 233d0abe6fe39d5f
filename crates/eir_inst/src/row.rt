//! The values of a fact, by number.
ghost use Rattle.std.specs.Prelude.{◌≡◌, ◌++◌, ◌∷◌, [], OnOk, OnErr};

use eir_term::Memory;
use smallvec::SmallVec;
use std::alloc::Global;
use std::marker::Model;

/// The numbers of a fact's values, column by column. Up to four stand in the row itself.
#[derive(Drop)]
pub struct Row {
    numbers: SmallVec<usize, 4>,
}

impl Model for Row {
    ghost use Rattle.std.specs.Prelude.{ℕ, List};

    ghost Value = { List ℕ };

    ghost view = { λ r. r.numbers.items };
}

impl Row {
    /// The row of no column.
    pub(crate) fn new(alloc: Global) -> Row
        ensures { result ≡ [] }
    {
        Row {
            numbers: SmallVec::new(alloc),
        }
    }

    /// Puts the number of one more column behind the others.
    pub(crate) fn push(&mut self, number: usize) -> Result<(), Memory>
        ensures ok { OnOk result (self.new ≡ self.old ++ number ∷ []) }
        ensures err { OnErr result (self.new ≡ self.old) }
    {
        self.numbers.push(number)?;
        Ok(())
    }

    /// The numbers, lent.
    pub(crate) fn as_slice(&self) -> &[usize]
        ensures { result.now ≡ self.now }
    {
        self.numbers.as_slice()
    }
}
