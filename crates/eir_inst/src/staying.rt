//! The facts of a base that are not marked as gone.
ghost use Rattle.std.specs.Prelude.{◌≡◌, ◌++◌, ◌↔◌, Some, IsSome, IsTrue, IfOk, IfSome, OnOk, false, filter, length};
ghost use Rattle.std.specs.Prelude.{option_copied, replicate, slice_get};
ghost use Rattle.std.specs.List.{list_any};
ghost use Rattle.eir_term.specs.Lists.{◌∈◌, IsDistinct};
ghost use Rattle.eir_term.specs.Values.{val_eq};
ghost use Rattle.eir_term.specs.Instances.{occurrences};
ghost use Rattle.eir_inst.specs.Layers as layers;
ghost use Rattle.eir_inst.specs.Layers.{staying};

use crate::indexed::Indexed;
use eir_term::{Fact, Memory, Val};
use std::alloc::Global;

/// Whether the fact at the place is not marked as gone.
pub(crate) fn stays(gone: &[bool], place: usize) -> bool
    ensures { result ≡ layers.stays gone.now place }
{
    match gone.get(place) {
        Some(gone) => !*gone,
        None => true,
    }
}

/// The place of a fact of the base, unless it is gone.
pub(crate) fn place_staying(base: &Indexed, gone: &[bool], fact: &Fact) -> Option<usize>
    ensures there { IfSome result (λ p. (slice_get base.now.facts p ≡ Some fact.now)
        × IsTrue (layers.stays gone.now p)) }
    ensures absent { IsSome result ↔ (fact.now ∈ staying base.now.facts gone.now) }
{
    match base.place_of(fact) {
        Some(place) if stays(gone, place) => Some(place),
        _ => None,
    }
}

/// Whether the value occurs in a fact of the base that stays, of which there are so many. Where all stay it costs the hash
/// of the value, else a look at each fact.
pub(crate) fn value_stays(base: &Indexed, gone: &[bool], count: usize, val: Val) -> bool
    requires { count ≡ length (staying base.now.facts gone.now) }
    ensures { result ≡ list_any (val_eq val) (occurrences (staying base.now.facts gone.now)) }
{
    if count == base.len() {
        base.number_of(val).is_some()
    } else {
        has_value_among(base.as_slice(), gone, val)
    }
}

/// Whether the value occurs in a fact that stays.
pub(crate) fn has_value_among(facts: &[Fact], gone: &[bool], val: Val) -> bool
    ensures { result ≡ list_any (val_eq val) (occurrences (staying facts.now gone.now)) }
{
    for (place, fact) in facts.iter().enumerate() {
        if stays(gone, place) && fact_has(fact, val) {
            return true;
        }
    }
    false
}

/// Whether the value occurs in the fact.
fn fact_has(fact: &Fact, val: Val) -> bool
    ensures { result ≡ list_any (val_eq val) fact.now.args }
{
    fact.args.as_slice().contains(&val)
}

/// The fact that is the k-th of those that stay, counted from 0.
pub(crate) fn nth_fact<'a>(facts: &'a [Fact], gone: &[bool], k: usize) -> Option<&'a Fact>
    ensures { option_copied result ≡ slice_get (staying facts.now gone.now) k }
{
    let mut left = k;
    for (place, fact) in facts.iter().enumerate() {
        if stays(gone, place) {
            if left == 0 {
                return Some(fact);
            }
            left -= 1;
        }
    }
    None
}

/// How many of the places are of facts that stay.
pub(crate) fn count_staying(places: &[usize], gone: &[bool]) -> usize
    ensures { result ≡ length (filter (layers.stays gone.now) places.now) }
{
    let mut count = 0;
    for place in places {
        if stays(gone, *place) {
            count += 1;
        }
    }
    count
}

/// How many facts are marked as gone.
pub(crate) fn gone_count(gone: &[bool]) -> usize
    ensures { result ≡ length (filter (λ g. g) gone.now) }
{
    let mut count = 0;
    for gone in gone {
        if *gone {
            count += 1;
        }
    }
    count
}

/// The place that is the k-th of those of facts that stay, counted from 0.
pub(crate) fn nth_staying(places: &[usize], gone: &[bool], k: usize) -> Option<usize>
    ensures { result ≡ slice_get (filter (layers.stays gone.now) places.now) k }
{
    let mut left = k;
    for place in places {
        if stays(gone, *place) {
            if left == 0 {
                return Some(*place);
            }
            left -= 1;
        }
    }
    None
}

/// Puts copies of the facts that stay behind those that are there.
pub(crate) fn push_staying(
    alloc: Global,
    to: &mut Indexed,
    facts: &[Fact],
    gone: &[bool],
) -> Result<(), Memory>
    requires { IsDistinct (to.old.facts ++ staying facts.now gone.now) }
    ensures { OnOk result (to.new.facts ≡ to.old.facts ++ staying facts.now gone.now) }
{
    for (place, fact) in facts.iter().enumerate() {
        if stays(gone, place) {
            to.push(fact.copy(alloc)?)?;
        }
    }
    Ok(())
}

/// Marks by which so many facts stay.
pub(crate) fn unmarked(alloc: Global, count: usize) -> Result<Vec<bool>, Memory>
    ensures { IfOk result (λ gone. gone.items ≡ replicate count false) }
{
    Ok(vec![in alloc; false; count]?)
}
