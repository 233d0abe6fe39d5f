//! The table of names.
ghost use Rattle.std.specs.Prelude.{◌≡◌, [], IfOk, OnErr, option_map, slice_get};
ghost use Rattle.eir_term.specs.Lists.{IsDistinct};
ghost use Rattle.eir_schema.specs.Names.{with_name, number_of};

use eir_term::Memory;
use indexmap::IndexSet;
use std::alloc::Global;
use std::marker::Model;

/// Distinct byte strings, in order of first occurrence. The number of one is its place, from 0, and never changes.
#[derive(Drop)]
pub struct Names {
    alloc: Global,
    names: IndexSet<Vec<u8>>,
}

impl Model for Names {
    ghost use Rattle.std.specs.Prelude.{List, ℕ, map};
    ghost use Rattle.eir_term.specs.Lists.{IsDistinct};

    ghost Value = { List (List ℕ) };

    ghost view = { λ n. map (λ v. v.items) n.names.keys };

    ghost invariant = { λ n. IsDistinct (map (λ v. v.items) n.names.keys) };
}

impl Names {
    /// No name.
    pub fn new(alloc: Global) -> Names
        ensures { result ≡ [] }
    {
        Names {
            alloc,
            names: IndexSet::new(alloc),
        }
    }

    /// The number of these bytes, which are put last where they are new.
    pub fn number(&mut self, bytes: &[u8]) -> Result<u64, Memory>
        ensures ok { IfOk result (λ n. (self.new ≡ with_name self.old bytes.now) × (n ≡ number_of self.new bytes.now)) }
        ensures err { OnErr result (self.new ≡ self.old) }
    {
        if let Some(place) = self.names.get_index_of(bytes) {
            return Ok(place as u64);
        }
        let name = bytes.to_vec(self.alloc)?;
        let (place, _) = self.names.insert_full(name)?;
        Ok(place as u64)
    }

    /// The bytes of this number.
    pub fn text(&self, number: u64) -> Option<&[u8]>
        ensures exact { option_map (λ s. s.now) result ≡ slice_get self.now number }
        ensures distinct { IsDistinct self.now }
    {
        match self.names.get_index(number as usize) {
            Some(name) => Some(name.as_slice()),
            None => None,
        }
    }
}
