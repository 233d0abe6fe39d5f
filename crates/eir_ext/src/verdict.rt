//! The verdict on a pair of examples.
ghost use Rattle.std.specs.Prelude.{◌≡◌, ◌+◌, ◌-◌, ◌<◌, ◌≤◌, [], None, IfOk, Err, Ok};
ghost use Rattle.eir_term.specs.Search.{need, pairneed};
ghost use Rattle.eir_term.specs.Verdicts.{first_foreign, first_refuting};
ghost use Rattle.eir_edit.specs.Pairs.{pair_of};
ghost use Rattle.eir_ext.specs.Trials.{refuting_of};

use crate::{PairTest, Turn};
use eir_edit::Example;
use eir_hom::{FindStop, HomTurn, Homs};
use eir_search::{Fuel, Steps};
use eir_term::{Map, Memory};
use std::alloc::Global;
use std::rc::Rc;
use std::sync::ledger::Ledger;

/// Whether the homomorphisms between the sources of a pair extend to the targets.
#[derive(Drop)]
pub enum PairVerdict {
    /// Each of them extends.
    Extends,
    /// This one does not, and is the first.
    Fails(Map),
}

/// Tests a pair of examples. Each constant of the first example's target occurs in its source. It makes at most as many
/// tries as listing the homomorphisms between the sources, and the extensions of each, needs. The search between the
/// targets is begun at the first homomorphism between the sources; a pair that has none costs one search.
///
/// # Errors
/// `Spent` where the fuel has fewer tries left than that, and the pair was not decided with these; `Memory`.
pub fn test_pair<L: Ledger>(
    alloc: Global,
    first: &Rc<Example>,
    second: &Rc<Example>,
    fuel: &mut Fuel,
    steps: &mut Steps<L>,
) -> Result<PairVerdict, FindStop>
    requires { first_foreign (pair_of first.now.value) ≡ None }
    ensures ok { IfOk result
        (λ v. refuting_of v ≡ first_refuting (pair_of first.now.value) (pair_of second.now.value)) }
    ensures extends { result ≡ Ok PairVerdict.Extends
        → fuel.old.used + need first.now.value.source second.now.value.source [] ≤ fuel.new.used }
    ensures spent { result ≡ Err FindStop.Spent
        → (fuel.new.used ≡ fuel.old.limit)
        × (fuel.old.limit - fuel.old.used < pairneed (pair_of first.now.value) (pair_of second.now.value)) }
    ensures at_most { fuel.new.used ≤ fuel.old.used + pairneed (pair_of first.now.value) (pair_of second.now.value) }
    ensures used { fuel.old.used ≤ fuel.new.used }
    ensures limit { fuel.new.limit ≡ fuel.old.limit }
    ensures steps { steps.new + fuel.old.used ≡ steps.old + fuel.new.used }
{
    let mut sources = Homs::begin(alloc, &first.source, &second.source, &Map::new(alloc))?;
    match sources.turn(fuel.limit(), fuel, steps) {
        HomTurn::Found => {
            let mut test = PairTest::after_first(alloc, first, second, sources)?;
            decide(alloc, &mut test, fuel, steps)
        }
        HomTurn::Done => Ok(PairVerdict::Extends),
        HomTurn::Spent => Err(FindStop::Spent),
        HomTurn::Going => unreachable!(),
    }
}

/// Goes on with a test until the pair is decided or the fuel is used up.
fn decide<L: Ledger>(
    alloc: Global,
    test: &mut PairTest,
    fuel: &mut Fuel,
    steps: &mut Steps<L>,
) -> Result<PairVerdict, FindStop>
    ensures ok { IfOk result (λ v. refuting_of v ≡ first_refuting test.old.first test.old.second) }
    ensures extends { result ≡ Ok PairVerdict.Extends → fuel.old.used + test.old.source_tries ≤ fuel.new.used }
    ensures spent { result ≡ Err FindStop.Spent
        → (fuel.new.used ≡ fuel.old.limit) × (fuel.old.limit - fuel.old.used < test.old.tries) }
    ensures at_most { fuel.new.used ≤ fuel.old.used + test.old.tries }
    ensures used { fuel.old.used ≤ fuel.new.used }
    ensures limit { fuel.new.limit ≡ fuel.old.limit }
    ensures steps { steps.new + fuel.old.used ≡ steps.old + fuel.new.used }
{
    match test.turn(fuel.limit(), fuel, steps) {
        Turn::Extends => Ok(PairVerdict::Extends),
        Turn::Fails => Ok(PairVerdict::Fails(test.map().copy(alloc)?)),
        Turn::Spent => Err(FindStop::Spent),
        Turn::Going => unreachable!(),
    }
}
