//! The start of a search, given anew.
ghost use Rattle.std.specs.Prelude.{◌≡◌, ◌↔◌, ◌≤◌, [], length};
ghost use Rattle.eir_term.specs.declared.val.Val.{Val};
ghost use Rattle.eir_term.specs.Lists.{◌∈◌, IsDistinct};
ghost use Rattle.eir_term.specs.Instances.{values};
ghost use Rattle.eir_term.specs.Maps.{domain_of};
ghost use Rattle.eir_hom.specs.Levels.{bindings_of};
ghost use Rattle.eir_hom.specs.Listings.{AreEntries};

use crate::given::{Given, renew_at};
use crate::lazy::LazyMatcher;
use crate::starts::number_in;
use eir_inst::Indexed;
use eir_term::Map;
use std::snapshot::Snapshot;

/// Lets a matcher whose start was that of one map begin with that of another, which names the same values of the
/// source. An image that stands at the same place in both costs a comparison.
pub(crate) fn give_start(
    matcher: &mut LazyMatcher,
    given: &mut Vec<Given>,
    source: &Indexed,
    target: &Indexed,
    was: &Snapshot<Map>,
    start: &Map,
)
    requires placed { matcher.old.placed ≡ [] }
    requires numbers { matcher.old.start ≡ bindings_of source.now.facts target.now.facts was.now.value }
    requires entries { AreEntries source.now.facts was.now.value given.old.items }
    requires names { IsDistinct (domain_of was.now.value) }
    requires same { (v : Val) → v ∈ values source.now.facts
        → (v ∈ domain_of start.now) ↔ (v ∈ domain_of was.now.value) }
    ensures numbers { matcher.new
        ≡ record matcher.old { start = bindings_of source.now.facts target.now.facts start.now } }
    ensures entries { AreEntries source.now.facts start.now given.new.items }
    ensures names { IsDistinct (domain_of start.now) }
{
    given.truncate(start.len());
    give_pairs(matcher, given, source, target, was, start);
}

/// The same, where there are no more entries than pairs.
fn give_pairs(
    matcher: &mut LazyMatcher,
    given: &mut [Given],
    source: &Indexed,
    target: &Indexed,
    was: &Snapshot<Map>,
    start: &Map,
)
    requires placed { matcher.old.placed ≡ [] }
    requires numbers { matcher.old.start ≡ bindings_of source.now.facts target.now.facts was.now.value }
    requires entries { AreEntries source.now.facts was.now.value given.old }
    requires few { length given.old ≤ length start.now }
    requires names { IsDistinct (domain_of was.now.value) }
    requires same { (v : Val) → v ∈ values source.now.facts
        → (v ∈ domain_of start.now) ↔ (v ∈ domain_of was.now.value) }
    ensures numbers { matcher.new
        ≡ record matcher.old { start = bindings_of source.now.facts target.now.facts start.now } }
    ensures entries { AreEntries source.now.facts start.now given.new }
    ensures names { IsDistinct (domain_of start.now) }
{
    let pairs = start.as_slice();
    'pairs: for place in 0..pairs.len() {
        let pair = pairs[place];
        if let Some(slot) = renew_at(given, source, place, pair) {
            matcher.set_start(slot, number_in(target, pair.1));
        }
    }
}
