//! Facts with their index.
ghost use Rattle.std.specs.Prelude.{List, ◌≡◌, ◌++◌, ◌∷◌, ◌<◌, ◌↔◌, ◌==◌, [], ℕ, Some, IsSome, IfOk, OnOk, OnErr};
ghost use Rattle.std.specs.Prelude.{length, map, slice_get, slice_index_or, option_map};
ghost use Rattle.eir_term.specs.declared.fact.Fact.{Fact};
ghost use Rattle.eir_term.specs.Lists.{◌∈◌, IsDistinct, places};
ghost use Rattle.eir_term.specs.Instances as instances;
ghost use Rattle.eir_term.specs.Profiles as profiles;
ghost use Rattle.eir_term.specs.Plans as plans;
ghost use Rattle.eir_inst.specs.Keys.{has_key};
ghost use Rattle.eir_inst.specs.Numbers.{numbers_of};
ghost use Rattle.eir_inst.specs.Indexes.{IsIndex};

use crate::index::Index;
use crate::key::Key;
use crate::profile::Profile;
use eir_term::{Fact, Memory, Val};
use indexmap::IndexSet;
use std::alloc::Global;
use std::marker::Model;

/// Distinct facts with an index of them, in order of insertion. None is taken out.
#[derive(Drop)]
pub struct Indexed {
    alloc: Global,
    facts: IndexSet<Fact>,
    index: Index,
}

impl Model for Indexed {
    ghost use Rattle.eir_term.specs.Lists.{IsDistinct};
    ghost use Rattle.eir_inst.specs.FactList.{FactList};
    ghost use Rattle.eir_inst.specs.Indexes.{IsIndex};

    ghost Value = { FactList };

    ghost view = { λ i. record { facts = i.facts.keys } };

    ghost invariant = { λ i. IsDistinct i.facts.keys × IsIndex i.facts.keys i.index };
}

impl Indexed {
    /// No fact.
    pub(crate) fn new(alloc: Global) -> Indexed
        ensures { result ≡ record { facts = [] } }
    {
        Indexed {
            alloc,
            facts: IndexSet::new(alloc),
            index: Index::new(alloc),
        }
    }

    /// Puts a fact in that is not there, behind the others. It costs the hashes of the fact, of its values and of its
    /// keys.
    pub(crate) fn push(&mut self, fact: Fact) -> Result<(), Memory>
        requires { fact ∈ self.old.facts → ⊥ }
        ensures ok { OnOk result (self.new.facts ≡ self.old.facts ++ fact ∷ []) }
        ensures err { OnErr result (self.new.facts ≡ self.old.facts) }
    {
        append(&mut self.facts, &mut self.index, fact)
    }

    /// The place of a fact, or none where it is not there.
    pub(crate) fn place_of(&self, fact: &Fact) -> Option<usize>
        ensures there { (n : ℕ) → (result ≡ Some n) ↔ (slice_get self.now.facts n ≡ Some fact.now) }
        ensures absent { IsSome result ↔ (fact.now ∈ self.now.facts) }
    {
        self.facts.get_index_of(fact)
    }

    /// The number of facts.
    pub fn len(&self) -> usize
        ensures { result ≡ length self.now.facts }
    {
        self.facts.len()
    }

    /// The facts, lent, for callers that go over all of them.
    pub fn as_slice(&self) -> &[Fact]
        ensures facts { result.now ≡ self.now.facts }
        ensures distinct { IsDistinct self.now.facts }
    {
        self.facts.as_slice()
    }

    /// The places of the facts that have the key, ascending.
    pub(crate) fn list(&self, key: Key) -> &[usize]
        ensures { result.now ≡ places (has_key key) 0 self.now.facts }
    {
        self.index.postings.list(key)
    }

    /// The number of facts of the relation.
    pub fn count_of(&self, rel: u32) -> usize
        ensures { result ≡ plans.count_of rel self.now.facts }
    {
        self.places_of(rel).len()
    }

    /// The places of the facts of the relation, ascending.
    pub fn places_of(&self, rel: u32) -> &[usize]
        ensures { result.now ≡ places (λ f. f.rel == rel) 0 self.now.facts }
    {
        self.list(Key::Relation(rel))
    }

    /// The places of the facts of the relation that have the value at the column, counted from 0, ascending.
    pub fn places_with(&self, rel: u32, column: usize, val: Val) -> &[usize]
        ensures { result.now ≡ places (profiles.has_at rel column val) 0 self.now.facts }
    {
        let postings = &self.index.postings;
        match u32::try_from(column) {
            Ok(column) => postings.list(Key::Column(rel, column, val)),
            Err(_) => &[],
        }
    }

    /// The values by first occurrence, fact by fact and column by column. A value's number is its place here.
    pub fn values(&self) -> &[Val]
        ensures values { result.now ≡ instances.values self.now.facts }
        ensures distinct { IsDistinct result.now }
    {
        self.index.numbering.values.as_slice()
    }

    /// The number of a value, or none where it does not occur.
    pub fn number_of(&self, val: Val) -> Option<usize>
        ensures there { (n : ℕ) → (result ≡ Some n) ↔ (slice_get (instances.values self.now.facts) n ≡ Some val) }
        ensures absent { IsSome result ↔ (val ∈ instances.values self.now.facts) }
    {
        self.index.numbering.values.get_index_of(&val)
    }

    /// The numbers of the values of the fact at a place, column by column.
    pub fn numbers_at(&self, place: usize) -> &[usize]
        requires { place < length self.now.facts }
        ensures { Some result.now
            ≡ option_map (λ f. numbers_of (instances.values self.now.facts) f.args) (slice_get self.now.facts place) }
    {
        self.index.numbering.rows[place].as_slice()
    }

    /// The profile of each value, by its number.
    pub fn profiles(&self) -> &[Profile]
        ensures { result.now ≡ map (profiles.profile self.now.facts) (instances.values self.now.facts) }
    {
        self.index.numbering.profiles.as_slice()
    }

    /// The profile of a value, which is empty where the value does not occur.
    pub(crate) fn column_profile(&self, val: Val) -> Result<Profile, Memory>
        ensures { IfOk result (λ p. p ≡ profiles.profile self.now.facts val) }
    {
        match self.number_of(val) {
            Some(number) => profile_at(self.profiles(), number),
            None => Ok(Profile::new(self.alloc)),
        }
    }
}

/// A copy of the profile at a number.
fn profile_at(profiles: &[Profile], number: usize) -> Result<Profile, Memory>
    requires { number < length profiles.now }
    ensures { IfOk result (λ p. p ≡ slice_index_or profiles.now number []) }
{
    let profile = profiles[number].clone()?;
    Ok(profile)
}

/// Puts a fact behind those of the set, and into the index.
fn append(facts: &mut IndexSet<Fact>, index: &mut Index, fact: Fact) -> Result<(), Memory>
    requires { fact ∈ facts.old.keys → ⊥ }
    ensures ok { OnOk result (facts.new.keys ≡ facts.old.keys ++ fact ∷ []) }
    ensures err { OnErr result (facts.new.keys ≡ facts.old.keys) }
    ensures index { IsIndex facts.old.keys index.old → IsIndex facts.new.keys index.new }
{
    let place = facts.len();
    facts.insert(fact)?;
    let pushed = index_at(index, facts, place);
    if pushed.is_err() {
        facts.truncate(place);
    }
    pushed
}

/// Makes the index of the facts before a place, which is the last, that of all of them.
fn index_at(index: &mut Index, facts: &IndexSet<Fact>, place: usize) -> Result<(), Memory>
    ensures ok { OnOk result ((K : List Fact) (f : Fact) → facts.now.keys ≡ K ++ f ∷ [] → length K ≡ place
        → IsIndex K index.old → IsIndex facts.now.keys index.new) }
    ensures err { OnErr result ((K : List Fact) → IsIndex K index.old → IsIndex K index.new) }
{
    match facts.get_index(place) {
        Some(fact) => index.push(fact, place),
        None => Err(Memory),
    }
}
