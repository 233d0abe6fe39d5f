//! Dependencies.
ghost use Rattle.std.specs.Prelude.{◌≡◌, ◌↔◌, IfOk, IsOk, IsErrOf};
ghost use Rattle.eir_term.specs.Dependencies.{IsDependency};
ghost use Rattle.eir_dep.specs.declared.dep.DepRefused.{DepRefused};
ghost use Rattle.eir_dep.specs.Refusals.{dependency, IsRefused};

use crate::check::check;
use eir_term::{Atom, Memory};
use std::alloc::Global;
use std::marker::Model;

/// A dependency: the premise implies that values for the existential variables meet the conclusion (Fagin, Kolaitis,
/// Miller, Popa 2005). Each conclusion variable is existential or in the premise, never both.
#[derive(Drop)]
pub struct Dep {
    premise: Vec<Atom>,
    exists: Vec<u32>,
    conclusion: Vec<Atom>,
}

impl Model for Dep {
    ghost use Rattle.eir_term.specs.Dependencies.{Dependency, IsDependency};

    ghost Value = { Dependency };

    ghost view = { λ d. record {
      premise = d.premise.items;
      exists = d.exists.items;
      conclusion = d.conclusion.items;
    } };

    ghost invariant = { λ d. IsDependency (record {
      premise = d.premise.items;
      exists = d.exists.items;
      conclusion = d.conclusion.items;
    }) };
}

/// Why three lists make no dependency, in the order in which it is tested.
#[derive(Clone, Copy, Debug, PartialEq, Eq)]
pub enum DepRefused {
    /// There is no conclusion atom.
    Empty,
    /// The first listed variable that occurs in the premise, is listed before, or does not occur in the conclusion.
    BadExists(u32),
    /// The first conclusion variable that is neither listed nor in the premise.
    Unbound(u32),
}

impl Dep {
    /// The dependency of these three lists. It takes no memory.
    pub fn new(
        premise: Vec<Atom>,
        exists: Vec<u32>,
        conclusion: Vec<Atom>,
    ) -> Result<Dep, DepRefused>
        ensures ok { IfOk result (λ d. d ≡ dependency premise.items exists.items conclusion.items) }
        ensures accepted { IsOk result
            ↔ IsDependency (dependency premise.items exists.items conclusion.items) }
        ensures refused { (cause : DepRefused) → IsErrOf result cause
            ↔ IsRefused (dependency premise.items exists.items conclusion.items) cause }
    {
        check(&premise, &exists, &conclusion)?;
        Ok(Dep {
            premise,
            exists,
            conclusion,
        })
    }

    /// The atoms of the premise, in order.
    pub fn premise(&self) -> &[Atom]
        ensures { result.now ≡ self.now.premise }
    {
        &self.premise
    }

    /// The existential variables, in the order in which they are listed.
    pub fn exists(&self) -> &[u32]
        ensures { result.now ≡ self.now.exists }
    {
        &self.exists
    }

    /// The atoms of the conclusion, in order. There is one.
    pub fn conclusion(&self) -> &[Atom]
        ensures atoms { result.now ≡ self.now.conclusion }
        ensures well_formed { IsDependency self.now }
    {
        &self.conclusion
    }

    /// An equal dependency.
    pub fn copy(&self, alloc: Global) -> Result<Dep, Memory>
        ensures { IfOk result (λ d. d ≡ self.now) }
    {
        let premise = atoms_copy(alloc, &self.premise)?;
        let exists = self.exists.as_slice().to_vec(alloc)?;
        let conclusion = atoms_copy(alloc, &self.conclusion)?;
        Ok(Dep {
            premise,
            exists,
            conclusion,
        })
    }
}

/// Equal atoms, in order.
fn atoms_copy(alloc: Global, atoms: &[Atom]) -> Result<Vec<Atom>, Memory>
    ensures { IfOk result (λ v. v.items ≡ atoms.now) }
{
    let mut copies = Vec::with_capacity(alloc, atoms.len())?;
    for atom in atoms {
        copies.push(atom.copy(alloc)?)?;
    }
    Ok(copies)
}
