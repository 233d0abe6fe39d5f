//! The index of an instance: its facts by key, and its values by number with their profiles.
ghost use Rattle.std.specs.Prelude.{◌≡◌, ◌++◌, ◌∷◌, [], List, OnOk, OnErr, length};
ghost use Rattle.eir_term.specs.declared.fact.Fact.{Fact};
ghost use Rattle.eir_inst.specs.Indexes.{IsIndex};

use crate::numbering::Numbering;
use crate::postings::Postings;
use eir_term::{Fact, Memory};
use std::alloc::Global;

/// What is kept beside a list of facts.
#[derive(Drop)]
pub struct Index {
    pub(crate) postings: Postings,
    pub(crate) numbering: Numbering,
}

impl Index {
    /// The index of no fact.
    pub(crate) fn new(alloc: Global) -> Index
        ensures { IsIndex [] result }
    {
        Index {
            postings: Postings::new(alloc),
            numbering: Numbering::new(alloc),
        }
    }

    /// Makes the index of some facts that of these and one more, which stands at `place`, behind them.
    pub(crate) fn push(&mut self, fact: &Fact, place: usize) -> Result<(), Memory>
        ensures ok { OnOk result ((K : List Fact) → length K ≡ place → IsIndex K self.old
            → IsIndex (K ++ fact.now ∷ []) self.new) }
        ensures err { OnErr result ((K : List Fact) → IsIndex K self.old → IsIndex K self.new) }
    {
        if fact.args.as_slice().len() > u32::MAX as usize {
            return Err(Memory);
        }
        self.postings.push(fact, place)?;
        let pushed = self.numbering.push(fact);
        if pushed.is_err() {
            self.postings.pop(fact, place);
        }
        pushed
    }
}
