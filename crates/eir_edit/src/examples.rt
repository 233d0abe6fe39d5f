//! The examples of a workspace, with what an undo goes back to.
ghost use Rattle.std.specs.Prelude.{◌≡◌, ◌+◌, ◌∷◌, ◌↔◌, ◌⊎◌, [], ℕ, false, None, IsTrue, IfErr, IfOk, OnErr, OnOk, length, map, position};
ghost use Rattle.eir_term.specs.Lists.{◌∈◌, IsDistinct};
ghost use Rattle.eir_schema.specs.Stamps.{stamp};
ghost use Rattle.eir_edit.specs.declared.refused.EditRefused.TheVariants.{Memory as WantsMemory};
ghost use Rattle.eir_edit.specs.Causes.{first_cause, told};
ghost use Rattle.eir_edit.specs.Histories.{empty_history, has_name, has_version, edited, undone, is_live};
ghost use Rattle.eir_edit.specs.Edits.{versioned, is_null_in_source, add_tests, add_done, put_tests, put_done};
ghost use Rattle.eir_edit.specs.Edits.{cut_tests, cut_done, drop_tests, drop_done, undo_tests};
ghost use Rattle.eir_edit.specs.Edits.{loan_of, loan_tests, borrow_tests, borrow_done};
ghost use Rattle.eir_edit.specs.Goods.{IsGoodList, IsGoodHistory};

use crate::example::Example;
use crate::lists;
use crate::lists::{place_of, with_new, with_set, with_shared, without};
use crate::refused::EditRefused;
use crate::versions::Versions;
use eir_schema::Schema;
use eir_term::{Fact, Memory, Side, Text};
use indexmap::IndexSet;
use std::alloc::Global;
use std::marker::Model;
use std::mem;
use std::rc::Rc;

/// The most examples.
const EXAMPLE_LIMIT: usize = 64;

/// The most lists that an undo goes back to.
const UNDO_LIMIT: usize = 32;

/// The present list of examples, and the older lists that an undo goes back to, the newest first. The lists share their
/// examples. An edit costs its line, a reference for each example, and a copy of the one instance that it changes, since
/// the instance before it is kept; the copy shares the index with it.
#[derive(Drop)]
pub struct Examples {
    alloc: Global,
    list: Vec<Rc<Example>>,
    undo: Vec<Vec<Rc<Example>>>,
}

impl Model for Examples {
    ghost use Rattle.std.specs.Prelude.{map};
    ghost use Rattle.eir_edit.specs.Histories.{History};

    ghost Value = { History };

    ghost use Rattle.eir_edit.specs.Histories.{history_of};
    ghost use Rattle.eir_edit.specs.Goods.{IsGoodHistory};

    ghost view = { λ e. history_of (map (λ x. x.value) e.list.items) (map (λ l. map (λ x. x.value) l.items) e.undo.items) };

    ghost invariant = { λ e. IsGoodHistory 512 (history_of (map (λ x. x.value) e.list.items) (map (λ l. map (λ x. x.value) l.items) e.undo.items)) };
}

impl Examples {
    /// No example, and nothing to undo.
    pub fn new(alloc: Global) -> Examples
        ensures { result ≡ empty_history }
    {
        Examples {
            alloc,
            list: Vec::new(alloc),
            undo: Vec::new(alloc),
        }
    }

    /// The present examples, in order.
    pub fn list(&self) -> &[Rc<Example>]
        ensures exact { map (λ x. x.value) result.now ≡ self.now.list }
        ensures good { IsGoodHistory 512 self.now }
    {
        &self.list
    }

    /// The place of the example of this name in the present list, from 0.
    pub fn find(&self, name: &Text) -> Option<usize>
        ensures { result ≡ position (has_name name.now) self.now.list }
    {
        place_of(&self.list, name)
    }

    /// Whether an example of this version is in the present list or in one that an undo goes back to. It compares
    /// numbers alone.
    pub fn live(&self, version: u64) -> bool
        ensures { result ≡ is_live version self.now }
    {
        lists::has_version(&self.list, version) || lists::has_version_in(&self.undo, version)
    }

    /// The number of lists that an undo goes back to.
    pub fn undo_len(&self) -> usize
        ensures { result ≡ length self.now.undo }
    {
        self.undo.len()
    }

    /// The versions that are live, each once, in any order.
    pub fn versions(&self) -> Result<Vec<u64>, Memory>
        ensures live { IfOk result (λ vs. (v : ℕ) → (v ∈ vs.items) ↔ IsTrue (is_live v self.now)) }
        ensures distinct { IfOk result (λ vs. IsDistinct vs.items) }
    {
        let mut live = IndexSet::new(self.alloc);
        insert_versions(&mut live, &self.list)?;
        'lists: for place in 0..self.undo.len() {
            insert_versions(&mut live, &self.undo[place])?;
        }
        Ok(live.as_slice().to_vec(self.alloc)?)
    }

    /// Adds an example with no facts, behind the others. Refused, in this order: `Taken`, `Full(64)`, `Full` of the
    /// versions, `Memory`.
    pub fn add(&mut self, versions: &mut Versions, name: &Text) -> Result<(), EditRefused>
        ensures ok { OnOk result ((first_cause (versioned versions.old (add_tests name.now self.old)) ≡ None)
            × (self.new ≡ add_done versions.old name.now self.old) × (versions.new ≡ versions.old + 1)) }
        ensures refused { IfErr result (λ e. told e ≡ first_cause (versioned versions.old (add_tests name.now self.old))) }
        ensures err { OnErr result ((self.new ≡ self.old) × (versions.new ≡ versions.old)) }
    {
        if self.find(name).is_some() {
            return Err(EditRefused::Taken);
        }
        if self.list.len() >= EXAMPLE_LIMIT {
            return Err(EditRefused::Full(EXAMPLE_LIMIT as u64));
        }
        let version = versions.next()?;
        let example = Example::empty(self.alloc, version, name)?;
        let list = with_new(self.alloc, &self.list, example)?;
        self.edit(list)?;
        versions.draw();
        Ok(())
    }

    /// Puts a fact behind those of a side of an example. Refused, in this order: `NoExample`, `There`, `Full(512)`,
    /// `Full` of the versions, `Memory`.
    pub fn put(
        &mut self,
        versions: &mut Versions,
        name: &Text,
        side: Side,
        fact: Fact,
    ) -> Result<(), EditRefused>
        requires ground { is_null_in_source side fact.args ≡ false }
        ensures ok { OnOk result ((first_cause (versioned versions.old (put_tests 512 name.now side fact self.old)) ≡ None)
            × (self.new ≡ put_done versions.old name.now side fact self.old) × (versions.new ≡ versions.old + 1)) }
        ensures refused { IfErr result
            (λ e. told e ≡ first_cause (versioned versions.old (put_tests 512 name.now side fact self.old))) }
        ensures err { OnErr result ((self.new ≡ self.old) × (versions.new ≡ versions.old)) }
    {
        let place = self.find(name).ok_or(EditRefused::NoExample)?;
        let changed = self.list[place].after_put(self.alloc, versions, side, fact)?;
        let list = with_set(self.alloc, &self.list, place, changed)?;
        self.edit(list)?;
        versions.draw();
        Ok(())
    }

    /// Takes a fact out of a side of an example; the others stay in order. Refused, in this order: `NoExample`,
    /// `Missing`, `Full` of the versions, `Memory`.
    pub fn cut(
        &mut self,
        versions: &mut Versions,
        name: &Text,
        side: Side,
        fact: &Fact,
    ) -> Result<(), EditRefused>
        ensures ok { OnOk result ((first_cause (versioned versions.old (cut_tests name.now side fact.now self.old)) ≡ None)
            × (self.new ≡ cut_done versions.old name.now side fact.now self.old) × (versions.new ≡ versions.old + 1)) }
        ensures refused { IfErr result
            (λ e. told e ≡ first_cause (versioned versions.old (cut_tests name.now side fact.now self.old))) }
        ensures err { OnErr result ((self.new ≡ self.old) × (versions.new ≡ versions.old)) }
    {
        let place = self.find(name).ok_or(EditRefused::NoExample)?;
        let changed = self.list[place].after_cut(self.alloc, versions, side, fact)?;
        let list = with_set(self.alloc, &self.list, place, changed)?;
        self.edit(list)?;
        versions.draw();
        Ok(())
    }

    /// Takes an example away. Refused, in this order: `NoExample`, `Memory`.
    pub fn drop_one(&mut self, name: &Text) -> Result<(), EditRefused>
        ensures ok { OnOk result ((first_cause (drop_tests name.now self.old) ≡ None)
            × (self.new ≡ drop_done name.now self.old)) }
        ensures refused { IfErr result (λ e. told e ≡ first_cause (drop_tests name.now self.old)) }
        ensures err { OnErr result (self.new ≡ self.old) }
    {
        let place = self.find(name).ok_or(EditRefused::NoExample)?;
        let list = without(self.alloc, &self.list, place)?;
        self.edit(list)?;
        Ok(())
    }

    /// Goes back to the list before the last edit that is not yet undone, versions included, or is refused `Nothing`. It
    /// takes no memory.
    pub fn undo(&mut self) -> Result<(), EditRefused>
        ensures ok { OnOk result ((first_cause (undo_tests self.old) ≡ None) × (self.new ≡ undone self.old)) }
        ensures refused { IfErr result (λ e. told e ≡ first_cause (undo_tests self.old)) }
        ensures nothing { OnErr result (self.old.undo ≡ []) }
        ensures err { OnErr result (self.new ≡ self.old) }
    {
        if self.undo.is_empty() {
            return Err(EditRefused::Nothing);
        }
        self.list = self.undo.remove(0);
        Ok(())
    }

    /// Puts the lender's example of a name behind the others, with its version. Refused, in this order: `Taken` (there is
    /// an example of the name here), `NoExample` (the lender has none), `Full(64)`, `Foreign` (the stamps of the schemas
    /// differ), `Memory`. The stamps of `Foreign` want memory too.
    pub fn copy_from(
        &mut self,
        name: &Text,
        lender: &Examples,
        mine: &Schema,
        theirs: &Schema,
    ) -> Result<(), EditRefused>
        ensures ok { let loan = loan_of name.now (stamp theirs.now) lender.now in
            OnOk result ((first_cause (borrow_tests (stamp mine.now) name.now loan self.old) ≡ None)
            × (self.new ≡ borrow_done loan self.old)) }
        ensures refused { let loan = loan_of name.now (stamp theirs.now) lender.now in
            IfErr result (λ e. (told e ≡ first_cause (borrow_tests (stamp mine.now) name.now loan self.old))
            ⊎ ((e ≡ WantsMemory) × (first_cause (loan_tests name.now loan self.old) ≡ None))) }
        ensures err { OnErr result (self.new ≡ self.old) }
    {
        if self.find(name).is_some() {
            return Err(EditRefused::Taken);
        }
        let place = lender.find(name).ok_or(EditRefused::NoExample)?;
        if self.list.len() >= EXAMPLE_LIMIT {
            return Err(EditRefused::Full(EXAMPLE_LIMIT as u64));
        }
        if !mine.same_stamp(theirs) {
            return Err(EditRefused::Foreign(mine.stamp(self.alloc)?, theirs.stamp(self.alloc)?));
        }
        let list = with_shared(self.alloc, &self.list, &lender.list[place])?;
        self.edit(list)?;
        Ok(())
    }

    /// Settles the instances of the present examples, so that searches find the index of each ready. A fit calls it once
    /// before its searches. An example that is settled costs its line and two references. Without memory some examples are
    /// settled, and all are equal to what they were.
    pub fn settle(&mut self) -> Result<(), Memory>
        ensures { self.new ≡ self.old }
    {
        lists::settle(self.alloc, &mut self.list)
    }

    /// Makes a list the present one, and keeps the one before it, and up to 32 in all. Without memory all stays.
    fn edit(&mut self, list: Vec<Rc<Example>>) -> Result<(), Memory>
        requires good { IsGoodList 512 (map (λ x. x.value) list.items) }
        ensures ok { OnOk result (self.new ≡ edited (map (λ x. x.value) list.items) self.old) }
        ensures err { OnErr result (self.new ≡ self.old) }
    {
        self.undo.reserve(1)?;
        let before = mem::replace(&mut self.list, list);
        self.undo.insert(0, before).unwrap();
        self.undo.truncate(UNDO_LIMIT);
        Ok(())
    }
}

/// Puts the versions of these examples into a set.
fn insert_versions(versions: &mut IndexSet<u64>, examples: &[Rc<Example>]) -> Result<(), Memory>
    ensures ok { OnOk result ((v : ℕ) → (v ∈ versions.new.keys)
        ↔ ((v ∈ versions.old.keys) ⊎ IsTrue (has_version v (map (λ x. x.value) examples.now)))) }
    ensures distinct { IsDistinct versions.old.keys → IsDistinct versions.new.keys }
{
    'examples: for place in 0..examples.len() {
        versions.insert(examples[place].version())?;
    }
    Ok(())
}
