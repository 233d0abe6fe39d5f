//! Values as variables.
ghost use Rattle.std.specs.Prelude.{◌≡◌, ◌+◌, ◌++◌, ◌∷◌, ℕ, [], IfOk, OnOk, length, map};
ghost use Rattle.eir_term.specs.declared.val.Val.{Val};
ghost use Rattle.eir_term.specs.declared.val.Val.TheVariants.{Null};
ghost use Rattle.eir_term.specs.Lists.{◌∈◌};
ghost use Rattle.eir_term.specs.Instances.{consts, nulls};
ghost use Rattle.eir_term.specs.Canonical.{term_of, atom_of, numbers};

use eir_inst::Indexed;
use eir_term::{Atom, Fact, Memory, Term, Val};
use indexmap::IndexSet;
use std::alloc::Global;
use std::marker::Model;

/// Values that become variables. The variable of a value has the number of its place, counted from 1; it is found by
/// hash.
#[derive(Drop)]
pub(crate) struct Variables {
    values: IndexSet<Val>,
}

impl Model for Variables {
    ghost use Rattle.std.specs.Prelude.{List, length, ◌<◌};
    ghost use Rattle.eir_term.specs.declared.val.Val.{Val};

    ghost Value = { List Val };

    ghost view = { λ v. v.values.keys };

    ghost invariant = { λ v. length v.values.keys < 4294967295 };
}

impl Variables {
    /// A variable for each constant of the instance, by first occurrence.
    pub(crate) fn of_constants(alloc: Global, instance: &Indexed) -> Result<Variables, Memory>
        ensures { IfOk result (λ v. v ≡ consts instance.now.facts) }
    {
        let mut variables = Variables {
            values: IndexSet::new(alloc),
        };
        for value in instance.values() {
            if value.is_const() {
                variables.add(*value)?;
            }
        }
        Ok(variables)
    }

    /// One more variable for each null of the instance, by first occurrence. These are told.
    pub(crate) fn add_nulls(
        &mut self,
        alloc: Global,
        instance: &Indexed,
    ) -> Result<Vec<u32>, Memory>
        requires { (n : ℕ) → Null n ∈ self.old → ⊥ }
        ensures all { OnOk result (self.new ≡ self.old ++ nulls instance.now.facts) }
        ensures told { IfOk result (λ v. v.items ≡ numbers (length self.old) (nulls instance.now.facts)) }
    {
        let mut told = Vec::new(alloc);
        for value in instance.values() {
            if value.is_null() {
                told.push(self.add(*value)?)?;
            }
        }
        Ok(told)
    }

    /// One more variable, that of a value which has none. Its number is told. More variables than 32 bits number are
    /// refused.
    fn add(&mut self, value: Val) -> Result<u32, Memory>
        requires { value ∈ self.old → ⊥ }
        ensures added { OnOk result (self.new ≡ self.old ++ value ∷ []) }
        ensures number { IfOk result (λ n. n ≡ length self.old + 1) }
    {
        let number = self.values.len() + 1;
        if number >= u32::MAX as usize {
            return Err(Memory);
        }
        self.values.insert(value)?;
        Ok(number as u32)
    }

    /// The atoms that the facts become.
    pub(crate) fn atoms(&self, alloc: Global, facts: &[Fact]) -> Result<Vec<Atom>, Memory>
        ensures { IfOk result (λ v. v.items ≡ map (atom_of self.now) facts.now) }
    {
        let mut atoms = Vec::with_capacity(alloc, facts.len())?;
        for fact in facts {
            atoms.push(self.atom(alloc, fact)?)?;
        }
        Ok(atoms)
    }

    /// The atom that a fact becomes.
    pub(crate) fn atom(&self, alloc: Global, fact: &Fact) -> Result<Atom, Memory>
        ensures { IfOk result (λ a. a ≡ atom_of self.now fact.now) }
    {
        let mut terms = Vec::new(alloc);
        let values = fact.args.as_slice();
        for value in values {
            terms.push(self.term(*value))?;
        }
        Atom::make(alloc, fact.rel, &terms)
    }

    /// The term that a value becomes: its variable, or itself where it is a fixed constant.
    fn term(&self, value: Val) -> Term
        ensures { result ≡ term_of self.now value }
    {
        if let Val::Fixed(number) = value {
            return Term::Fixed(number);
        }
        let place = self
            .values
            .get_index_of(&value)
            .unwrap_or(self.values.len());
        Term::Var(place as u32 + 1)
    }
}
