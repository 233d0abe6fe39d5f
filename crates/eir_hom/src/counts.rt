//! How many facts an instance has of each relation.
ghost use Rattle.std.specs.Prelude.{◌≡◌, ◌<◌, length};
ghost use Rattle.eir_term.specs.Plans.{count_of};
ghost use Rattle.eir_hom.specs.Counts.{AreCounts};

use eir_inst::Indexed;

/// How many facts there are of a relation.
#[derive(Clone, Copy, Debug, PartialEq, Eq)]
pub(crate) struct Count {
    rel: u32,
    facts: u64,
}

/// How many facts an instance has of a relation. What it has of the relations that were asked about before is among
/// `known`, which has a place for each of a few; else it is looked up.
pub(crate) fn count_in(instance: &Indexed, rel: u32, known: &mut [Option<Count>]) -> u64
    requires some { 0 < length known.old }
    requires known { AreCounts instance.now.facts known.old }
    ensures known { AreCounts instance.now.facts known.new }
    ensures length { length known.new ≡ length known.old }
    ensures count { result ≡ count_of rel instance.now.facts }
{
    let place = rel as usize % known.len();
    if let Some(count) = known[place]
        && count.rel == rel
    {
        return count.facts;
    }
    let facts = instance.count_of(rel) as u64;
    known[place] = Some(Count { rel, facts });
    facts
}
