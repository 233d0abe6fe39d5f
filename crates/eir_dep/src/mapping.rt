//! Mappings.
ghost use Rattle.std.specs.Prelude.{◌≡◌, ◌++◌, ◌∷◌, ◌↔◌, [], IsTrue, IfOk, OnOk, OnErr, length, slice_get, option_copied};
ghost use Rattle.eir_term.specs.declared.val.Kind.TheVariants.{Glav, Gav};
ghost use Rattle.eir_term.specs.Dependencies.{IsDependency, IsGavDependency, IsMapping};

use crate::Dep;
use eir_term::Memory;
use std::alloc::Global;
use std::marker::Model;

/// A GLAV schema mapping: a finite list of dependencies (Alexe, ten Cate, Kolaitis, Tan 2011).
#[derive(Drop)]
pub struct Mapping {
    deps: Vec<Dep>,
}

impl Model for Mapping {
    ghost use Rattle.std.specs.Prelude.{List};
    ghost use Rattle.eir_term.specs.declared.val.Kind.TheVariants.{Glav};
    ghost use Rattle.eir_term.specs.Dependencies.{Dependency, IsMapping};

    ghost Value = { List Dependency };

    ghost view = { λ m. m.deps.items };

    ghost invariant = { λ m. IsMapping Glav m.deps.items };
}

impl Mapping {
    /// The mapping with no dependency.
    pub fn new(alloc: Global) -> Mapping
        ensures { result ≡ [] }
    {
        Mapping {
            deps: Vec::new(alloc),
        }
    }

    /// Puts a dependency behind the others.
    pub fn push(&mut self, dep: Dep) -> Result<(), Memory>
        ensures ok { OnOk result (self.new ≡ self.old ++ dep ∷ []) }
        ensures err { OnErr result (self.new ≡ self.old) }
    {
        let _well_formed = dep.conclusion();
        self.deps.push(dep)?;
        Ok(())
    }

    /// The number of dependencies.
    pub fn len(&self) -> usize
        ensures len { result ≡ length self.now }
        ensures well_formed { IsMapping Glav self.now }
    {
        self.deps.len()
    }

    /// The dependency at a place, counted from 0.
    pub fn dep(&self, place: usize) -> Option<&Dep>
        ensures { option_copied result ≡ slice_get self.now place }
    {
        self.deps.get(place)
    }

    /// Whether it is a GAV mapping: each dependency has one conclusion atom and no existential variable.
    pub fn is_gav(&self) -> bool
        ensures { IsTrue result ↔ IsMapping Gav self.now }
    {
        all_gav(&self.deps)
    }

    /// An equal mapping.
    pub fn copy(&self, alloc: Global) -> Result<Mapping, Memory>
        ensures { IfOk result (λ m. m ≡ self.now) }
    {
        let deps = deps_copy(alloc, &self.deps)?;
        Ok(Mapping { deps })
    }
}

/// Equal dependencies, in order.
fn deps_copy(alloc: Global, deps: &[Dep]) -> Result<Vec<Dep>, Memory>
    ensures { IfOk result (λ v. v.items ≡ deps.now) }
{
    let mut copies = Vec::with_capacity(alloc, deps.len())?;
    for dep in deps {
        copies.push(dep.copy(alloc)?)?;
    }
    Ok(copies)
}

/// Whether each dependency has one conclusion atom and no existential variable.
fn all_gav(deps: &[Dep]) -> bool
    ensures { IsTrue result ↔ IsMapping Gav deps.now }
{
    for dep in deps {
        if !is_gav(dep) {
            return false;
        }
    }
    true
}

/// Whether the dependency has one conclusion atom and no existential variable.
fn is_gav(dep: &Dep) -> bool
    ensures gav { IsTrue result ↔ IsGavDependency dep.now }
    ensures well_formed { IsDependency dep.now }
{
    let conclusion = dep.conclusion();
    let exists = dep.exists();
    conclusion.len() == 1 && exists.is_empty()
}
