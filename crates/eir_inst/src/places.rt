//! Ascending lists of places.
ghost use Rattle.std.specs.Prelude.{◌≡◌, ◌++◌, ◌∷◌, ◌-◌, [], OnOk, OnErr, length, take};

use eir_term::Memory;
use smallvec::SmallVec;
use std::alloc::Global;
use std::marker::Model;

/// The places, in the list of facts, of those that are listed under one key. Up to three stand in the list itself.
#[derive(Drop)]
pub struct Places {
    list: SmallVec<usize, 3>,
}

impl Model for Places {
    ghost use Rattle.std.specs.Prelude.{ℕ, List};

    ghost Value = { List ℕ };

    ghost view = { λ p. p.list.items };
}

impl Places {
    /// No place.
    pub(crate) fn new(alloc: Global) -> Places
        ensures { result ≡ [] }
    {
        Places {
            list: SmallVec::new(alloc),
        }
    }

    /// Puts a place behind the others.
    pub(crate) fn push(&mut self, place: usize) -> Result<(), Memory>
        ensures ok { OnOk result (self.new ≡ self.old ++ place ∷ []) }
        ensures err { OnErr result (self.new ≡ self.old) }
    {
        self.list.push(place)?;
        Ok(())
    }

    /// Takes the last place off, where there is one.
    pub(crate) fn pop(&mut self)
        ensures { self.new ≡ take (length self.old - 1) self.old }
    {
        let _ = self.list.pop();
    }

    /// The places, lent.
    pub(crate) fn as_slice(&self) -> &[usize]
        ensures { result.now ≡ self.now }
    {
        self.list.as_slice()
    }
}
