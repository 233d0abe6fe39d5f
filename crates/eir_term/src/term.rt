//! Terms and atoms of dependencies.
ghost use Rattle.std.specs.Prelude.{◌≡◌, ◌≤◌, IfOk, length};

use crate::Memory;
use smallvec::SmallVec;
use std::alloc::Global;
use std::marker::Model;

/// An argument of an atom.
#[derive(Clone, Copy, Debug, PartialEq, Eq)]
pub enum Term {
    /// A variable, by its number.
    Var(u32),
    /// A fixed constant, by its number.
    Fixed(u64),
}

impl Default for Term {
    ghost use Rattle.eir_term.specs.declared.term.Term.TheVariants.{Fixed};

    ghost is_default = { λ t. t ≡ Fixed 0 };

    fn default() -> Self {
        Term::Fixed(0)
    }
}

/// The terms of an atom, in order. Up to four stand in the atom itself.
#[derive(Drop)]
pub struct Terms {
    items: SmallVec<Term, 4>,
}

impl Model for Terms {
    ghost use Rattle.std.specs.Prelude.{List};
    ghost use Rattle.eir_term.specs.declared.term.Term.{Term};

    ghost Value = { List Term };

    ghost view = { λ a. a.items.items };
}

impl Terms {
    /// The terms, lent.
    pub fn as_slice(&self) -> &[Term]
        ensures { result.now ≡ self.now }
    {
        self.items.as_slice()
    }
}

/// A relation, by its number, with a term for each column.
#[derive(Drop)]
pub struct Atom {
    pub rel: u32,
    pub args: Terms,
}

impl Atom {
    /// The atom of this relation with these terms, of which there are 1 to 16.
    pub fn make(alloc: Global, rel: u32, args: &[Term]) -> Result<Atom, Memory>
        requires some { 1 ≤ length args.now }
        requires few { length args.now ≤ 16 }
        ensures { IfOk result (λ a. a ≡ record { rel = rel; args = args.now }) }
    {
        let items = SmallVec::from_slice(alloc, args)?;
        Ok(Atom {
            rel,
            args: Terms { items },
        })
    }

    /// An equal atom.
    pub fn copy(&self, alloc: Global) -> Result<Atom, Memory>
        ensures { IfOk result (λ a. a ≡ self.now) }
    {
        let items = SmallVec::from_slice(alloc, self.args.as_slice())?;
        Ok(Atom {
            rel: self.rel,
            args: Terms { items },
        })
    }
}
