//! Instances.
ghost use Rattle.std.specs.Prelude.{List, ◌≡◌, ◌++◌, ◌∷◌, ◌≤◌, ◌↔◌, [], ℕ, false, ◌==◌, IsTrue, IsErrOf, IsOk, IfOk};
ghost use Rattle.std.specs.Prelude.{IfSome, OnOk, OnErr, filter, length, option_copied, slice_get};
ghost use Rattle.std.specs.List.{list_any};
ghost use Rattle.eir_term.specs.declared.fact.Fact.{Fact};
ghost use Rattle.eir_term.specs.Lists.{◌∈◌, IsDistinct, without};
ghost use Rattle.eir_term.specs.Values.{val_eq};
ghost use Rattle.eir_term.specs.Facts.{fact_eq};
ghost use Rattle.eir_term.specs.Instances as instances;
ghost use Rattle.eir_term.specs.Profiles as profiles;
ghost use Rattle.eir_term.specs.Plans as plans;
ghost use Rattle.eir_inst.specs.Keys.{has_key};
ghost use Rattle.eir_inst.specs.Layers.{base_facts, layered, staying};

use crate::added::{copies, count_under, is_ground, nth_under, place_among};
use crate::indexed::Indexed;
use crate::key::Key;
use crate::profile::Profile;
use crate::staying::{
    count_staying, gone_count, has_value_among, nth_fact, nth_staying, place_staying, push_staying,
    unmarked, value_stays,
};
use eir_term::{Fact, Memory, Val};
use std::alloc::Global;
use std::marker::Model;
use std::rc::Rc;

/// How many facts an instance may differ by from the base that it shares, before a copy of it gets a base of its own.
const FEW: usize = 64;

/// A finite set of facts, in order of insertion (Fagin, Kolaitis, Miller, Popa 2005), with the most that it may have.
///
/// A copy shares what it can with the instance that it was copied from: a base of facts with their index, beside which
/// stand marks of those that are gone, and the few facts that were added. So a copy with a change costs little, and
/// [`Instance::indexed`] gives the facts with an index of all of them.
#[derive(Drop)]
pub struct Instance {
    alloc: Global,
    base: Base,
    gone: Vec<bool>,
    added: Vec<Fact>,
    count: usize,
    limit: u64,
}

/// Facts with their index: of one instance alone, or shared with others.
#[derive(Drop)]
enum Base {
    /// Facts that this instance alone has, so that more can be put behind them.
    Own(Indexed),
    /// Facts that other instances may have too.
    Shared(Rc<Indexed>),
}

impl Model for Instance {
    ghost use Rattle.eir_inst.specs.BoundedFacts.{BoundedFacts};
    ghost use Rattle.eir_inst.specs.Layers.{layered, IsLayered};

    ghost Value = { BoundedFacts };

    ghost view = { λ i. record { facts = layered i.base i.gone.items i.added.items; limit = i.limit } };

    ghost invariant = { λ i. IsLayered i.base i.gone.items i.added.items i.count i.limit };
}

/// Why a fact was not put in, in the order in which it is tested.
#[derive(Clone, Copy, Debug, PartialEq, Eq)]
pub enum InsertRefused {
    /// The fact is in the instance.
    There,
    /// The instance has as many facts as its limit, which is given.
    Full(u64),
    /// There was no memory. A fact of more than `u32::MAX` columns is refused so too.
    Memory,
}

/// The fact that was to be taken out is not in the instance.
#[derive(Clone, Copy, Debug, PartialEq, Eq)]
pub struct Missing;

impl Base {
    /// The facts with their index, lent.
    fn indexed(&self) -> &Indexed
        ensures { result.now.facts ≡ base_facts self.now }
    {
        match self {
            Base::Own(facts) => facts,
            Base::Shared(facts) => facts,
        }
    }
}

impl Instance {
    /// The instance with no fact that may have up to `limit` of them. It takes no memory.
    pub fn new(alloc: Global, limit: u64) -> Instance
        ensures { result ≡ record { facts = []; limit = limit } }
    {
        Instance {
            alloc,
            base: Base::Own(Indexed::new(alloc)),
            gone: Vec::new(alloc),
            added: Vec::new(alloc),
            count: 0,
            limit,
        }
    }

    /// Puts a fact in, behind the others. All memory is taken first. It costs the hash of the fact and a look at each
    /// fact that was added beside the base; where the instance has a base of its own, also the hashes of the fact's
    /// values and keys.
    pub fn insert(&mut self, fact: Fact) -> Result<(), InsertRefused>
        ensures ok { OnOk result (self.new ≡ record { facts = self.old.facts ++ fact ∷ []; limit = self.old.limit }) }
        ensures err { OnErr result (self.new ≡ self.old) }
        ensures there { IsErrOf result InsertRefused.There ↔ (fact ∈ self.old.facts) }
        ensures full { IsErrOf result (InsertRefused.Full self.old.limit)
            ↔ ((fact ∈ self.old.facts → ⊥) × (length self.old.facts ≡ self.old.limit)) }
        ensures its_limit { (n : ℕ) → IsErrOf result (InsertRefused.Full n) → n ≡ self.old.limit }
    {
        if self.contains(&fact) {
            return Err(InsertRefused::There);
        }
        if self.count as u64 >= self.limit {
            return Err(InsertRefused::Full(self.limit));
        }
        match append(&mut self.base, &mut self.gone, &mut self.added, fact) {
            Ok(()) => {
                self.count += 1;
                Ok(())
            }
            Err(Memory) => Err(InsertRefused::Memory),
        }
    }

    /// Takes a fact out; the others stay in order. It takes no memory, and costs the hash of the fact and a look at
    /// each fact that was added beside the base.
    pub fn remove(&mut self, fact: &Fact) -> Result<(), Missing>
        ensures ok { OnOk result (self.new
            ≡ record { facts = without fact_eq fact.now self.old.facts; limit = self.old.limit }) }
        ensures err { OnErr result (self.new ≡ self.old) }
        ensures there { IsOk result ↔ (fact.now ∈ self.old.facts) }
    {
        if take_out(self.base.indexed(), &mut self.gone, &mut self.added, fact) {
            self.count -= 1;
            Ok(())
        } else {
            Err(Missing)
        }
    }

    /// Whether the fact is in the instance. It costs the hash of the fact and a look at each fact that was added beside
    /// the base.
    pub fn contains(&self, fact: &Fact) -> bool
        ensures { IsTrue result ↔ (fact.now ∈ self.now.facts) }
    {
        place_staying(self.base.indexed(), &self.gone, fact).is_some()
            || place_among(&self.added, fact).is_some()
    }

    /// Whether the value occurs in a fact. It costs the hash of the value and a look at each fact that was added beside
    /// the base; where a fact of the base is gone, a look at each fact.
    pub fn has_value(&self, val: Val) -> bool
        ensures { result ≡ list_any (val_eq val) (instances.occurrences self.now.facts) }
    {
        let staying = self.count - self.added.len();
        value_stays(self.base.indexed(), &self.gone, staying, val)
            || has_value_among(&self.added, &[], val)
    }

    /// The number of facts.
    pub fn len(&self) -> usize
        ensures { result ≡ length self.now.facts }
    {
        self.count
    }

    /// The fact at a place, counted from 0. Where a fact of the base is gone, it costs the size of the base.
    pub fn fact(&self, place: usize) -> Option<&Fact>
        ensures { option_copied result ≡ slice_get self.now.facts place }
    {
        let facts = self.base.indexed().as_slice();
        let staying = self.count - self.added.len();
        if place >= staying {
            self.added.get(place - staying)
        } else if staying == facts.len() {
            facts.get(place)
        } else {
            nth_fact(facts, &self.gone, place)
        }
    }

    /// The number of facts of the relation. It costs a look at each fact of the relation in the base, and at each that
    /// was added beside it.
    pub fn count_of(&self, rel: u32) -> usize
        ensures { result ≡ plans.count_of rel self.now.facts }
    {
        self.count(Key::Relation(rel))
    }

    /// The fact of the relation that is the k-th of them, counted from 0, in the order of the facts. It costs as much
    /// as [`Instance::count_of`].
    pub fn nth_of(&self, rel: u32, k: usize) -> Option<&Fact>
        ensures { option_copied result ≡ slice_get (filter (λ f. f.rel == rel) self.now.facts) k }
    {
        self.nth(Key::Relation(rel), k)
    }

    /// The number of facts of the relation with the value at the column, which is counted from 0. It costs a look at
    /// each of them in the base, and at each fact that was added beside it.
    pub fn with_count(&self, rel: u32, place: u32, val: Val) -> usize
        ensures { result ≡ length (filter (profiles.has_at rel place val) self.now.facts) }
    {
        self.count(Key::Column(rel, place, val))
    }

    /// The fact of the relation with the value at the column that is the k-th of them, counted from 0, in the order of
    /// the facts. It costs as much as [`Instance::with_count`].
    pub fn nth_with(&self, rel: u32, place: u32, val: Val, k: usize) -> Option<&Fact>
        ensures { option_copied result ≡ slice_get (filter (profiles.has_at rel place val) self.now.facts) k }
    {
        self.nth(Key::Column(rel, place, val), k)
    }

    /// The number of facts that have the key.
    fn count(&self, key: Key) -> usize
        ensures { result ≡ length (filter (has_key key) self.now.facts) }
    {
        let places = self.base.indexed().list(key);
        count_staying(places, &self.gone) + count_under(&self.added, key)
    }

    /// The fact that is the k-th of those that have the key.
    fn nth(&self, key: Key, k: usize) -> Option<&Fact>
        ensures { option_copied result ≡ slice_get (filter (has_key key) self.now.facts) k }
    {
        let base = self.base.indexed();
        let places = base.list(key);
        match nth_staying(places, &self.gone, k) {
            Some(place) => base.as_slice().get(place),
            None => nth_under(&self.added, key, k - count_staying(places, &self.gone)),
        }
    }

    /// The profile of a value, which is empty where the value does not occur. It costs what [`Instance::indexed`] does.
    pub fn column_profile(&self, val: Val) -> Result<Profile, Memory>
        ensures { IfOk result (λ p. p ≡ profiles.profile self.now.facts val) }
    {
        self.indexed()?.column_profile(val)
    }

    /// An equal instance. It costs a reference, a mark for each fact of the base, and a copy of the facts that were
    /// added beside it. Where the base is the instance's own, or the instance differs from it by more than 64 facts, it
    /// costs what [`Instance::settled`] does.
    pub fn copy(&self) -> Result<Instance, Memory>
        ensures { IfOk result (λ i. i ≡ self.now) }
    {
        match &self.base {
            Base::Shared(base) if gone_count(&self.gone) + self.added.len() <= FEW => {
                Ok(Instance {
                    alloc: self.alloc,
                    base: Base::Shared(base.clone()?),
                    gone: self.gone.clone()?,
                    added: copies(self.alloc, &self.added)?,
                    count: self.count,
                    limit: self.limit,
                })
            }
            _ => self.settled(),
        }
    }

    /// An equal instance, over a base that has all facts. It costs what [`Instance::indexed`] does, and a mark for each
    /// fact.
    pub fn settled(&self) -> Result<Instance, Memory>
        ensures { IfOk result (λ i. i ≡ self.now) }
    {
        let base = self.indexed()?;
        let gone = unmarked(self.alloc, base.len())?;
        Ok(Instance {
            alloc: self.alloc,
            base: Base::Shared(base),
            gone,
            added: Vec::new(self.alloc),
            count: self.count,
            limit: self.limit,
        })
    }

    /// An equal instance that is settled: this one, at the cost of a reference, where its base is shared and has just
    /// its facts; else a new one, at the cost of [`Instance::settled`].
    pub fn share_settled(instance: &Rc<Instance>) -> Result<Rc<Instance>, Memory>
        ensures { IfOk result (λ i. i.value ≡ instance.now.value) }
    {
        if instance.settled_base().is_some() {
            return Ok(instance.clone()?);
        }
        let settled = instance.settled()?;
        Ok(Rc::new(settled.alloc, settled)?)
    }

    /// The facts with their index. Where the base is shared and has just these facts it costs a reference; else a copy
    /// of each fact, and one hash for each fact, each value and each key.
    pub fn indexed(&self) -> Result<Rc<Indexed>, Memory>
        ensures { IfOk result (λ x. x.value.facts ≡ self.now.facts) }
    {
        match self.settled_base() {
            Some(base) => Ok(base.clone()?),
            None => gathered(self.alloc, self.base.indexed(), &self.gone, &self.added),
        }
    }

    /// The base, where it is shared and has just the facts of the instance.
    fn settled_base(&self) -> Option<&Rc<Indexed>>
        ensures { IfSome result (λ x. x.now.value.facts ≡ self.now.facts) }
    {
        match &self.base {
            Base::Shared(base) if self.added.is_empty() && base.len() == self.count => Some(base),
            _ => None,
        }
    }

    /// The instance of the facts without nulls, in order, with the same limit. It costs what [`Instance::indexed`]
    /// does, and a copy of each of these facts, with one hash for each, each of their values and each of their keys.
    pub fn ground_part(&self) -> Result<Instance, Memory>
        ensures { IfOk result (λ i. i
            ≡ record { facts = instances.ground_part self.now.facts; limit = self.now.limit }) }
    {
        let facts = self.indexed()?;
        ground_facts(self.alloc, facts.as_slice(), self.limit)
    }
}

/// Puts a fact behind the others: into the base where it is not shared, lacks the fact, and has none added beside it.
fn append(
    base: &mut Base,
    gone: &mut Vec<bool>,
    added: &mut Vec<Fact>,
    fact: Fact,
) -> Result<(), Memory>
    requires { length gone.old.items ≡ length (base_facts base.old) }
    ensures ok { OnOk result (layered base.new gone.new.items added.new.items
        ≡ layered base.old gone.old.items added.old.items ++ fact ∷ []) }
    ensures err { OnErr result (layered base.new gone.new.items added.new.items
        ≡ layered base.old gone.old.items added.old.items) }
    ensures marked { length gone.new.items ≡ length (base_facts base.new) }
{
    match base {
        Base::Own(facts) if added.is_empty() && facts.place_of(&fact).is_none() => {
            push_marked(facts, gone, fact)
        }
        _ => {
            added.push(fact)?;
            Ok(())
        }
    }
}

/// Puts a fact that is not there behind those of a base, with a mark by which it stays.
fn push_marked(facts: &mut Indexed, gone: &mut Vec<bool>, fact: Fact) -> Result<(), Memory>
    requires { fact ∈ facts.old.facts → ⊥ }
    ensures facts { OnOk result (facts.new.facts ≡ facts.old.facts ++ fact ∷ []) }
    ensures gone { OnOk result (gone.new.items ≡ gone.old.items ++ false ∷ []) }
    ensures same_facts { OnErr result (facts.new.facts ≡ facts.old.facts) }
    ensures same_gone { OnErr result (gone.new.items ≡ gone.old.items) }
{
    gone.push(false)?;
    let pushed = facts.push(fact);
    if pushed.is_err() {
        let _ = gone.pop();
    }
    pushed
}

/// Takes a fact out: marks it as gone where it is of the base, else takes it from those that were added. The answer is
/// whether it was there.
fn take_out(base: &Indexed, gone: &mut Vec<bool>, added: &mut Vec<Fact>, fact: &Fact) -> bool
    requires marked { length gone.old.items ≡ length base.now.facts }
    requires distinct { IsDistinct (staying base.now.facts gone.old.items ++ added.old.items) }
    ensures there { IsTrue result ↔ (fact.now ∈ (staying base.now.facts gone.old.items ++ added.old.items)) }
    ensures facts { staying base.now.facts gone.new.items ++ added.new.items
        ≡ without fact_eq fact.now (staying base.now.facts gone.old.items ++ added.old.items) }
    ensures marked { length gone.new.items ≡ length gone.old.items }
{
    if let Some(place) = place_staying(base, gone, fact) {
        gone[place] = true;
        return true;
    }
    match place_among(added, fact) {
        Some(place) => {
            let _ = added.remove(place);
            true
        }
        None => false,
    }
}

/// The facts of a base that stay, and the added ones, with an index of them.
fn gathered(
    alloc: Global,
    base: &Indexed,
    gone: &[bool],
    added: &[Fact],
) -> Result<Rc<Indexed>, Memory>
    requires { IsDistinct (staying base.now.facts gone.now ++ added.now) }
    ensures { IfOk result (λ x. x.value.facts ≡ staying base.now.facts gone.now ++ added.now) }
{
    let mut facts = Indexed::new(alloc);
    push_staying(alloc, &mut facts, base.as_slice(), gone)?;
    push_staying(alloc, &mut facts, added, &[])?;
    Ok(Rc::new(alloc, facts)?)
}

/// The instance of those of the facts that have no null.
fn ground_facts(alloc: Global, facts: &[Fact], limit: u64) -> Result<Instance, Memory>
    ensures { IfOk result (λ i. i ≡ record { facts = instances.ground_part facts.now; limit = limit }) }
{
    let mut part = Instance::new(alloc, limit);
    for fact in facts {
        if is_ground(fact) {
            copy_into(alloc, &mut part, fact)?;
        }
    }
    Ok(part)
}

/// Puts a copy of the fact behind those of an instance that lacks it and is not full.
fn copy_into(alloc: Global, to: &mut Instance, fact: &Fact) -> Result<(), Memory>
    ensures facts { OnOk result (to.new.facts ≡ to.old.facts ++ fact.now ∷ []) }
    ensures limit { OnOk result (to.new.limit ≡ to.old.limit) }
{
    let fact = fact.copy(alloc)?;
    match to.insert(fact) {
        Ok(()) => Ok(()),
        Err(_) => Err(Memory),
    }
}
