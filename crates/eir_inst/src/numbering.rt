//! The values of an instance by first occurrence, each fact's values by their numbers in this list, and the profiles of
//! the values.
ghost use Rattle.std.specs.Prelude.{◌≡◌, ◌++◌, ◌∷◌, ◌-◌, ◌<◌, ◌^◌, [], ℕ, IfOk, OnOk, OnErr, length, take, slice_get};
ghost use Rattle.std.specs.Prelude.{option_map};
ghost use Rattle.indexmap.specs.IndexSet.{insert_all};
ghost use Rattle.eir_term.specs.Values.{val_eq};
ghost use Rattle.eir_inst.specs.Numbers.{numbers_of};
ghost use Rattle.eir_inst.specs.Grown.{grown, blank};

use crate::profile::Profile;
use crate::profiles::push_marks;
use crate::row::Row;
use eir_term::{Fact, Memory, Val};
use indexmap::IndexSet;
use std::alloc::Global;

/// The values by first occurrence, with the profile of each, and a row of numbers for each fact.
#[derive(Drop)]
pub struct Numbering {
    alloc: Global,
    pub(crate) values: IndexSet<Val>,
    pub(crate) rows: Vec<Row>,
    pub(crate) profiles: Vec<Profile>,
}

impl Numbering {
    /// No value and no fact.
    pub(crate) fn new(alloc: Global) -> Numbering
        ensures values { result.values.keys ≡ [] }
        ensures rows { result.rows.items ≡ [] }
        ensures profiles { result.profiles.items ≡ [] }
    {
        Numbering {
            alloc,
            values: IndexSet::new(alloc),
            rows: Vec::new(alloc),
            profiles: Vec::new(alloc),
        }
    }

    /// Numbers the values of one more fact, and adds its columns to their profiles.
    pub(crate) fn push(&mut self, fact: &Fact) -> Result<(), Memory>
        requires { length fact.now.args < 2 ^ 32 }
        ensures values { OnOk result (self.new.values.keys ≡ insert_all val_eq self.old.values.keys fact.now.args) }
        ensures rows { OnOk result (self.new.rows.items
            ≡ self.old.rows.items ++ numbers_of self.new.values.keys fact.now.args ∷ []) }
        ensures profiles { OnOk result ((n : ℕ) → slice_get self.new.profiles.items n
            ≡ option_map (grown fact.now.rel 0 (numbers_of self.new.values.keys fact.now.args) n)
            (slice_get (self.old.profiles.items
            ++ blank (length self.new.values.keys - length self.old.profiles.items)) n)) }
        ensures same_values { OnErr result (self.new.values.keys ≡ self.old.values.keys) }
        ensures same_rows { OnErr result (self.new.rows.items ≡ self.old.rows.items) }
        ensures same_profiles { OnErr result (self.new.profiles.items ≡ self.old.profiles.items) }
    {
        let known = self.values.len();
        let facts = self.rows.len();
        let pushed = self.push_all(fact);
        if pushed.is_err() {
            self.values.truncate(known);
            self.rows.truncate(facts);
        }
        pushed
    }

    /// The same, where values and a row may be left over after a want of memory.
    fn push_all(&mut self, fact: &Fact) -> Result<(), Memory>
        requires { length fact.now.args < 2 ^ 32 }
        ensures values { OnOk result (self.new.values.keys ≡ insert_all val_eq self.old.values.keys fact.now.args) }
        ensures rows { OnOk result (self.new.rows.items
            ≡ self.old.rows.items ++ numbers_of self.new.values.keys fact.now.args ∷ []) }
        ensures profiles { OnOk result ((n : ℕ) → slice_get self.new.profiles.items n
            ≡ option_map (grown fact.now.rel 0 (numbers_of self.new.values.keys fact.now.args) n)
            (slice_get (self.old.profiles.items
            ++ blank (length self.new.values.keys - length self.old.profiles.items)) n)) }
        ensures kept_values { take (length self.old.values.keys) self.new.values.keys ≡ self.old.values.keys }
        ensures kept_rows { take (length self.old.rows.items) self.new.rows.items ≡ self.old.rows.items }
        ensures same_profiles { OnErr result (self.new.profiles.items ≡ self.old.profiles.items) }
    {
        let row = number_all(self.alloc, &mut self.values, fact.args.as_slice())?;
        let place = self.rows.len();
        self.rows.push(row)?;
        let count = self.values.len();
        push_marks(
            self.alloc,
            &mut self.profiles,
            count,
            fact.rel,
            self.rows[place].as_slice(),
        )
    }
}

/// The numbers of these values; those that are new get the next ones.
fn number_all(alloc: Global, values: &mut IndexSet<Val>, vals: &[Val]) -> Result<Row, Memory>
    ensures row { IfOk result (λ row. row ≡ numbers_of values.new.keys vals.now) }
    ensures values { OnOk result (values.new.keys ≡ insert_all val_eq values.old.keys vals.now) }
    ensures kept { take (length values.old.keys) values.new.keys ≡ values.old.keys }
{
    let mut row = Row::new(alloc);
    for val in vals {
        let (number, _) = values.insert_full(*val)?;
        row.push(number)?;
    }
    Ok(row)
}
