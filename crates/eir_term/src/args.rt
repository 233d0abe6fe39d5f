//! The argument list of a fact.
ghost use Rattle.std.specs.Prelude.{◌≡◌, ◌≤◌, IfOk, length};

use crate::{Memory, Val};
use smallvec::SmallVec;
use std::alloc::Global;
use std::hash::{Hash, Hasher};
use std::marker::Model;

/// The values of a fact, in order, 1 to 16 of them. Up to four stand in the fact itself.
#[derive(Drop)]
pub struct Args {
    items: SmallVec<Val, 4>,
}

impl Model for Args {
    ghost use Rattle.std.specs.Prelude.{◌≤◌, List, length};
    ghost use Rattle.eir_term.specs.declared.val.Val.{Val};

    ghost Value = { List Val };

    ghost view = { λ a. a.items.items };

    ghost invariant = { λ a. (1 ≤ length a.items.items) × (length a.items.items ≤ 16) };
}

impl Args {
    /// These values, of which there are 1 to 16.
    pub(crate) fn make(alloc: Global, values: &[Val]) -> Result<Args, Memory>
        requires some { 1 ≤ length values.now }
        requires few { length values.now ≤ 16 }
        ensures { IfOk result (λ a. a ≡ values.now) }
    {
        let items = SmallVec::from_slice(alloc, values)?;
        Ok(Args { items })
    }

    /// The values, lent.
    pub fn as_slice(&self) -> &[Val]
        ensures values { result.now ≡ self.now }
        ensures some { 1 ≤ length result.now }
        ensures few { length result.now ≤ 16 }
    {
        self.items.as_slice()
    }
}

impl PartialEq for Args {
    ghost use Rattle.std.specs.Cmp.{decided, partial_equiv_from_equiv};
    ghost use Rattle.eir_term.specs.Facts.{args_eq, args_eq-decides};

    ghost eq = { args_eq };

    ghost laws = { partial_equiv_from_equiv (decided args_eq args_eq-decides) };

    fn eq(&self, other: &Args) -> bool {
        self.items.as_slice() == other.items.as_slice()
    }
}

impl Eq for Args {
    ghost use Rattle.std.specs.Cmp.{decided};
    ghost use Rattle.eir_term.specs.Facts.{args_eq, args_eq-decides};

    ghost laws = { decided args_eq args_eq-decides };
}

impl Hash for Args {
    ghost use Rattle.std.specs.Hash.{same_Alike, slice};
    ghost use Rattle.eir_term.specs.Values.{val_writes};
    ghost use Rattle.eir_term.specs.Facts.{args_eq-decides};

    ghost hash_input = { λ vs. slice val_writes vs };

    ghost respects_eq = { (same_Alike (λ vs. slice val_writes vs) args_eq-decides).fed };

    fn hash<H: Hasher>(&self, state: &mut H) {
        self.items.as_slice().hash(state);
    }
}
