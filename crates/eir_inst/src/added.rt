//! A few facts without an index.
ghost use Rattle.std.specs.Prelude.{◌≡◌, ◌↔◌, Some, IsSome, IfOk, IfSome, filter, length, option_copied, slice_get};
ghost use Rattle.std.specs.List.{list_any};
ghost use Rattle.eir_term.specs.Lists.{◌∈◌};
ghost use Rattle.eir_term.specs.Instances as instances;
ghost use Rattle.eir_term.specs.Values.{is_null};
ghost use Rattle.eir_inst.specs.Keys.{has_key};

use crate::key::Key;
use eir_term::{Fact, Memory, Val};
use std::alloc::Global;

/// The place of the fact, or none where it is not among these.
pub(crate) fn place_among(facts: &[Fact], fact: &Fact) -> Option<usize>
    ensures there { IfSome result (λ p. slice_get facts.now p ≡ Some fact.now) }
    ensures absent { IsSome result ↔ (fact.now ∈ facts.now) }
{
    for (place, other) in facts.iter().enumerate() {
        if *fact == *other {
            return Some(place);
        }
    }
    None
}

/// How many of the facts have the key.
pub(crate) fn count_under(facts: &[Fact], key: Key) -> usize
    ensures { result ≡ length (filter (has_key key) facts.now) }
{
    let mut count = 0;
    for fact in facts {
        if key.is_of(fact) {
            count += 1;
        }
    }
    count
}

/// The fact that is the k-th of those that have the key, counted from 0.
pub(crate) fn nth_under(facts: &[Fact], key: Key, k: usize) -> Option<&Fact>
    ensures { option_copied result ≡ slice_get (filter (has_key key) facts.now) k }
{
    let mut left = k;
    for fact in facts {
        if key.is_of(fact) {
            if left == 0 {
                return Some(fact);
            }
            left -= 1;
        }
    }
    None
}

/// Copies of the facts.
pub(crate) fn copies(alloc: Global, facts: &[Fact]) -> Result<Vec<Fact>, Memory>
    ensures { IfOk result (λ copies. copies.items ≡ facts.now) }
{
    let mut copies = Vec::with_capacity(alloc, facts.len())?;
    for fact in facts {
        copies.push(fact.copy(alloc)?)?;
    }
    Ok(copies)
}

/// Whether the fact has no null.
pub(crate) fn is_ground(fact: &Fact) -> bool
    ensures { result ≡ instances.is_ground fact.now }
{
    !has_null(fact.args.as_slice())
}

/// Whether a null is among these values.
fn has_null(vals: &[Val]) -> bool
    ensures { result ≡ list_any is_null vals.now }
{
    vals.iter().any(|val| val.is_null())
}
