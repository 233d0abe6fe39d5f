//! What the facts of an instance are listed by.
ghost use Rattle.std.specs.Prelude.{◌≡◌, false, option_map, slice_get, unwrap_or};
ghost use Rattle.eir_term.specs.Values.{val_eq};
ghost use Rattle.eir_inst.specs.Keys.{has_key};

use eir_term::{Fact, Val};
use std::hash::{Hash, Hasher};

/// A relation, or a value at a column of a relation.
#[derive(Clone, Copy)]
pub enum Key {
    /// The facts of this relation.
    Relation(u32),
    /// The facts of this relation that have, at this column, counted from 0, this value.
    Column(u32, u32, Val),
}

impl Key {
    /// Whether the fact is listed under the key.
    pub(crate) fn is_of(self, fact: &Fact) -> bool
        ensures { result ≡ has_key self fact.now }
    {
        match self {
            Key::Relation(rel) => fact.rel == rel,
            Key::Column(rel, column, val) => {
                fact.rel == rel && is_at(fact.args.as_slice(), column, val)
            }
        }
    }
}

/// Whether the value stands at the column.
fn is_at(vals: &[Val], column: u32, val: Val) -> bool
    ensures { result ≡ unwrap_or (option_map (val_eq val) (slice_get vals.now column)) false }
{
    match vals.get(column as usize) {
        Some(other) => val == *other,
        None => false,
    }
}

impl PartialEq for Key {
    ghost use Rattle.std.specs.Cmp.{decided, partial_equiv_from_equiv};
    ghost use Rattle.eir_inst.specs.Keys.{key_eq, key_eq-decides};

    ghost eq = { key_eq };

    ghost laws = { partial_equiv_from_equiv (decided key_eq key_eq-decides) };

    fn eq(&self, other: &Key) -> bool {
        match (*self, *other) {
            (Key::Relation(a), Key::Relation(b)) => a == b,
            (Key::Column(a, i, v), Key::Column(b, j, w)) => a == b && i == j && v == w,
            _ => false,
        }
    }
}

impl Eq for Key {
    ghost use Rattle.std.specs.Cmp.{decided};
    ghost use Rattle.eir_inst.specs.Keys.{key_eq, key_eq-decides};

    ghost laws = { decided key_eq key_eq-decides };
}

impl Hash for Key {
    ghost use Rattle.std.specs.Hash.{same_Alike};
    ghost use Rattle.eir_inst.specs.Keys.{key_writes, key_eq-decides};

    ghost hash_input = { key_writes };

    ghost respects_eq = { (same_Alike key_writes key_eq-decides).fed };

    fn hash<H: Hasher>(&self, state: &mut H) {
        match *self {
            Key::Relation(rel) => {
                state.write_u8(0);
                rel.hash(state);
            }
            Key::Column(rel, column, val) => {
                state.write_u8(1);
                rel.hash(state);
                column.hash(state);
                val.hash(state);
            }
        }
    }
}
