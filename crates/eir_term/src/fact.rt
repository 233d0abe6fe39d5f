//! Facts.
ghost use Rattle.std.specs.Prelude.{◌≡◌, ◌≤◌, IfOk, length};

use crate::{Args, Memory, Val};
use std::alloc::Global;
use std::hash::{Hash, Hasher};

/// A relation, by its number, with a value for each column.
#[derive(Drop)]
pub struct Fact {
    pub rel: u32,
    pub args: Args,
}

impl Fact {
    /// The fact of this relation with these values, of which there are 1 to 16.
    pub fn make(alloc: Global, rel: u32, args: &[Val]) -> Result<Fact, Memory>
        requires some { 1 ≤ length args.now }
        requires few { length args.now ≤ 16 }
        ensures { IfOk result (λ f. f ≡ record { rel = rel; args = args.now }) }
    {
        let args = Args::make(alloc, args)?;
        Ok(Fact { rel, args })
    }

    /// An equal fact.
    pub fn copy(&self, alloc: Global) -> Result<Fact, Memory>
        ensures { IfOk result (λ f. f ≡ self.now) }
    {
        let args = Args::make(alloc, self.args.as_slice())?;
        Ok(Fact {
            rel: self.rel,
            args,
        })
    }
}

impl PartialEq for Fact {
    ghost use Rattle.std.specs.Cmp.{decided, partial_equiv_from_equiv};
    ghost use Rattle.eir_term.specs.Facts.{fact_eq, fact_eq-decides};

    ghost eq = { fact_eq };

    ghost laws = { partial_equiv_from_equiv (decided fact_eq fact_eq-decides) };

    fn eq(&self, other: &Fact) -> bool {
        self.rel == other.rel && self.args == other.args
    }
}

impl Eq for Fact {
    ghost use Rattle.std.specs.Cmp.{decided};
    ghost use Rattle.eir_term.specs.Facts.{fact_eq, fact_eq-decides};

    ghost laws = { decided fact_eq fact_eq-decides };
}

impl Hash for Fact {
    ghost use Rattle.std.specs.Prelude.{◌++◌};
    ghost use Rattle.std.specs.Hash.{same_Alike, slice, u32 as u32_writes};
    ghost use Rattle.eir_term.specs.Values.{val_writes};
    ghost use Rattle.eir_term.specs.Facts.{fact_eq-decides};

    ghost hash_input = { λ f. u32_writes f.rel ++ slice val_writes f.args };

    ghost respects_eq = { (same_Alike (λ f. u32_writes f.rel ++ slice val_writes f.args) fact_eq-decides).fed };

    fn hash<H: Hasher>(&self, state: &mut H) {
        self.rel.hash(state);
        self.args.hash(state);
    }
}
