//! The places of the facts under each key.
ghost use Rattle.std.specs.Prelude.{◌≡◌, ◌++◌, ◌∷◌, [], ℕ, ◌-◌, ◌+◌, ◌<◌, ◌^◌, List, OnOk, OnErr, cond, length, take};
ghost use Rattle.eir_inst.specs.declared.key.Key.{Key};
ghost use Rattle.eir_inst.specs.Keys.{key_eq};
ghost use Rattle.eir_inst.specs.Postings.{listed, in_columns, in_fact};

use crate::key::Key;
use crate::places::Places;
use eir_term::{Fact, Memory, Val};
use indexmap::IndexMap;
use std::alloc::Global;

/// For each key the places of the facts that are listed under it. A key without places may stand here or not.
#[derive(Drop)]
pub struct Postings {
    alloc: Global,
    lists: IndexMap<Key, Places>,
}

impl Postings {
    /// No place under any key.
    pub(crate) fn new(alloc: Global) -> Postings
        ensures { (k : Key) → listed result.lists k ≡ [] }
    {
        Postings {
            alloc,
            lists: IndexMap::new(alloc),
        }
    }

    /// The places under a key.
    pub(crate) fn list(&self, key: Key) -> &[usize]
        ensures { result.now ≡ listed self.now.lists key }
    {
        match self.lists.get(&key) {
            Some(places) => places.as_slice(),
            None => &[],
        }
    }

    /// Puts a place under a key, behind the others.
    fn add(&mut self, key: Key, place: usize) -> Result<(), Memory>
        ensures ok { OnOk result ((k : Key)
            → listed self.new.lists k ≡ listed self.old.lists k ++ cond (key_eq k key) (place ∷ []) []) }
        ensures err { OnErr result ((k : Key) → listed self.new.lists k ≡ listed self.old.lists k) }
    {
        if let Some(places) = self.lists.get_mut(&key) {
            return places.push(place);
        }
        let mut places = Places::new(self.alloc);
        places.push(place)?;
        self.lists.insert(key, places)?;
        Ok(())
    }

    /// Takes the last place under a key off.
    fn drop_last(&mut self, key: Key)
        ensures { (k : Key) → listed self.new.lists k
            ≡ cond (key_eq k key) (take (length (listed self.old.lists k) - 1) (listed self.old.lists k))
            (listed self.old.lists k) }
    {
        if let Some(places) = self.lists.get_mut(&key) {
            places.pop();
        }
    }

    /// Puts a place under each key of the columns from `column` on, whose values these are.
    fn add_columns(
        &mut self,
        rel: u32,
        column: u32,
        vals: &[Val],
        place: usize,
    ) -> Result<(), Memory>
        requires { column + length vals.now < 2 ^ 32 }
        ensures ok { OnOk result ((k : Key)
            → listed self.new.lists k ≡ listed self.old.lists k ++ in_columns place rel column vals.now k) }
        ensures err { OnErr result ((k : Key) → listed self.new.lists k ≡ listed self.old.lists k) }
    {
        let Some((val, others)) = vals.split_first() else {
            return Ok(());
        };
        let key = Key::Column(rel, column, *val);
        self.add(key, place)?;
        let added = self.add_columns(rel, column + 1, others, place);
        if added.is_err() {
            self.drop_last(key);
        }
        added
    }

    /// Takes the last place off under each key of the columns from `column` on, whose values these are.
    fn drop_columns(&mut self, rel: u32, column: u32, vals: &[Val], place: usize)
        requires { column + length vals.now < 2 ^ 32 }
        ensures { (before : Key → List ℕ)
            → ((k : Key) → listed self.old.lists k ≡ before k ++ in_columns place rel column vals.now k)
            → (k : Key) → listed self.new.lists k ≡ before k }
    {
        if let Some((val, others)) = vals.split_first() {
            self.drop_columns(rel, column + 1, others, place);
            self.drop_last(Key::Column(rel, column, *val));
        }
    }

    /// Puts the place of a fact under each of its keys.
    pub(crate) fn push(&mut self, fact: &Fact, place: usize) -> Result<(), Memory>
        requires { length fact.now.args < 2 ^ 32 }
        ensures ok { OnOk result ((k : Key)
            → listed self.new.lists k ≡ listed self.old.lists k ++ in_fact place fact.now k) }
        ensures err { OnErr result ((k : Key) → listed self.new.lists k ≡ listed self.old.lists k) }
    {
        let key = Key::Relation(fact.rel);
        self.add(key, place)?;
        let added = self.add_columns(fact.rel, 0, fact.args.as_slice(), place);
        if added.is_err() {
            self.drop_last(key);
        }
        added
    }

    /// Takes the place of a fact, which is the last, off under each of its keys.
    pub(crate) fn pop(&mut self, fact: &Fact, place: usize)
        requires { length fact.now.args < 2 ^ 32 }
        ensures { (before : Key → List ℕ) → ((k : Key) → listed self.old.lists k ≡ before k ++ in_fact place fact.now k)
            → (k : Key) → listed self.new.lists k ≡ before k }
    {
        self.drop_columns(fact.rel, 0, fact.args.as_slice(), place);
        self.drop_last(Key::Relation(fact.rel));
    }
}
