//! Values, sides and kinds.
ghost use Rattle.std.specs.Prelude.{◌≡◌};
ghost use Rattle.eir_term.specs.Values.{is_const, is_fixed, is_null};

use std::hash::{Hash, Hasher};

/// A value of an instance, by its number (Fagin, Kolaitis, Miller, Popa 2005; fixed constants are this
/// project's own).
#[derive(Clone, Copy, Debug)]
pub enum Val {
    /// A constant: a homomorphism may move it.
    Const(u64),
    /// A fixed constant: every map sends it to itself.
    Fixed(u64),
    /// A labelled null.
    Null(u64),
}

impl Val {
    /// Whether this is a constant. A fixed constant is none.
    pub fn is_const(self) -> bool
        ensures { result ≡ is_const self }
    {
        matches!(self, Val::Const(_))
    }

    /// Whether this is a fixed constant.
    pub fn is_fixed(self) -> bool
        ensures { result ≡ is_fixed self }
    {
        matches!(self, Val::Fixed(_))
    }

    /// Whether this is a labelled null.
    pub fn is_null(self) -> bool
        ensures { result ≡ is_null self }
    {
        matches!(self, Val::Null(_))
    }
}

impl Default for Val {
    ghost use Rattle.eir_term.specs.declared.val.Val.TheVariants.{Const};

    ghost is_default = { λ v. v ≡ Const 0 };

    fn default() -> Self {
        Val::Const(0)
    }
}

impl PartialEq for Val {
    ghost use Rattle.std.specs.Cmp.{decided, partial_equiv_from_equiv};
    ghost use Rattle.eir_term.specs.Values.{val_eq, val_eq-decides};

    ghost eq = { val_eq };

    ghost laws = { partial_equiv_from_equiv (decided val_eq val_eq-decides) };

    fn eq(&self, other: &Val) -> bool {
        match (*self, *other) {
            (Val::Const(a), Val::Const(b)) => a == b,
            (Val::Fixed(a), Val::Fixed(b)) => a == b,
            (Val::Null(a), Val::Null(b)) => a == b,
            _ => false,
        }
    }
}

impl Eq for Val {
    ghost use Rattle.std.specs.Cmp.{decided};
    ghost use Rattle.eir_term.specs.Values.{val_eq, val_eq-decides};

    ghost laws = { decided val_eq val_eq-decides };
}

impl Hash for Val {
    ghost use Rattle.std.specs.Hash.{same_Alike};
    ghost use Rattle.eir_term.specs.Values.{val_writes, val_eq-decides};

    ghost hash_input = { val_writes };

    ghost respects_eq = { (same_Alike val_writes val_eq-decides).fed };

    fn hash<H: Hasher>(&self, state: &mut H) {
        match *self {
            Val::Const(a) => {
                state.write_u8(0);
                a.hash(state);
            }
            Val::Fixed(a) => {
                state.write_u8(1);
                a.hash(state);
            }
            Val::Null(a) => {
                state.write_u8(2);
                a.hash(state);
            }
        }
    }
}

/// The side of a schema that a relation is declared on.
#[derive(Clone, Copy, Debug, PartialEq, Eq)]
pub enum Side {
    Source,
    Target,
}

/// The kind of a mapping (Alexe, ten Cate, Kolaitis, Tan 2011).
#[derive(Clone, Copy, Debug, PartialEq, Eq)]
pub enum Kind {
    /// Any dependencies.
    Glav,
    /// Dependencies with one conclusion atom and no existential variable.
    Gav,
}
