//! The pairs of a start, with the numbers of their first members.
ghost use Rattle.std.specs.Prelude.{◌≡◌, ◌↔◌, ◌⊎◌, ℕ, ◌+◌, List, ◌++◌, length, take, drop, IfOk, IsSome, Some, None};
ghost use Rattle.std.specs.Prelude.{slice_get};
ghost use Rattle.eir_term.specs.declared.val.Val.{Val};
ghost use Rattle.eir_term.specs.Lists.{◌∈◌};
ghost use Rattle.eir_term.specs.Instances as instances;
ghost use Rattle.eir_term.specs.Values.{val_eq};
ghost use Rattle.eir_hom.specs.declared.given.Given.{Given};
ghost use Rattle.eir_hom.specs.Listings.{IsEntry, AreEntries};

use eir_inst::Indexed;
use eir_term::{Map, Memory, Val};
use std::alloc::Global;

/// A pair of a start, with the number of its first member among the values of the source, where it is one of them.
#[derive(Clone, Copy, Debug)]
pub(crate) struct Given {
    pub(crate) name: Val,
    pub(crate) image: Val,
    pub(crate) slot: Option<usize>,
}

/// The entry of a pair.
fn entry(source: &Indexed, pair: (Val, Val)) -> Given
    ensures { IsEntry source.now.facts pair result }
{
    Given {
        name: pair.0,
        image: pair.1,
        slot: source.number_of(pair.0),
    }
}

/// The entries of all pairs of a start.
pub(crate) fn list_given(alloc: Global, source: &Indexed, start: &Map) -> Result<Vec<Given>, Memory>
    ensures { IfOk result (λ given. AreEntries source.now.facts start.now given.items) }
{
    let mut given = Vec::new(alloc);
    for pair in start.as_slice() {
        given.push(entry(source, *pair))?;
    }
    Ok(given)
}

/// Makes the entry at a place that of another pair, if there is one, and answers the slot whose number that changes, if
/// it changes one. A pair that is there already costs a comparison.
pub(crate) fn renew_at(
    given: &mut [Given],
    source: &Indexed,
    place: usize,
    pair: (Val, Val),
) -> Option<usize>
    requires own { (g : Given) → slice_get given.old place ≡ Some g → IsEntry source.now.facts (g.name, g.image) g }
    ensures len { length given.new ≡ length given.old }
    ensures entries { (t s : List (Val × Val)) → slice_get t place ≡ Some pair
        → AreEntries source.now.facts (take place t ++ drop place s) given.old
        → AreEntries source.now.facts (take (place + 1) t ++ drop (place + 1) s) given.new }
    ensures some { (n : ℕ) → result ≡ Some n → slice_get (instances.values source.now.facts) n ≡ Some pair.0 }
    ensures none { result ≡ None → ((pair.0 ∈ instances.values source.now.facts) → ⊥)
        ⊎ ((g : Given) × (slice_get given.old place ≡ Some g) × (g.name ≡ pair.0) × (g.image ≡ pair.1)) }
{
    if place < given.len() {
        renew(&mut given[place], source, pair)
    } else {
        source.number_of(pair.0)
    }
}

/// Makes an entry that of another pair, and answers the slot whose image that changes, if there is one.
fn renew(given: &mut Given, source: &Indexed, pair: (Val, Val)) -> Option<usize>
    requires slot { (n : ℕ) → (given.old.slot ≡ Some n)
        ↔ (slice_get (instances.values source.now.facts) n ≡ Some given.old.name) }
    requires there { IsSome given.old.slot ↔ (given.old.name ∈ instances.values source.now.facts) }
    ensures entry { IsEntry source.now.facts pair given.new }
    ensures some { (n : ℕ) → result ≡ Some n → slice_get (instances.values source.now.facts) n ≡ Some pair.0 }
    ensures none { result ≡ None → ((pair.0 ∈ instances.values source.now.facts) → ⊥)
        ⊎ ((given.old.name ≡ pair.0) × (given.old.image ≡ pair.1)) }
{
    if !is_same(given.name, pair.0) {
        *given = entry(source, pair);
        return given.slot;
    }
    if is_same(given.image, pair.1) {
        return None;
    }
    given.image = pair.1;
    given.slot
}

/// Whether two values are the same.
fn is_same(one: Val, other: Val) -> bool
    ensures { result ≡ val_eq one other }
{
    match (one, other) {
        (Val::Const(number), Val::Const(same)) => number == same,
        (Val::Fixed(number), Val::Fixed(same)) => number == same,
        (Val::Null(number), Val::Null(same)) => number == same,
        _ => false,
    }
}
