//! The tests of one example and of a pair, with no limit of tries.
ghost use Rattle.std.specs.Prelude.{◌≡◌, None, IfOk};
ghost use Rattle.eir_term.specs.Verdicts.{first_foreign, first_refuting, has_fold};
ghost use Rattle.eir_edit.specs.Pairs.{pair_of};

use eir_edit::Example;
use eir_ext::{PairTest, PairVerdict, Turn, test_pair};
use eir_hom::FindStop;
use eir_search::{Fuel, Steps};
use eir_term::{Map, Memory};
use eir_verdict::{FoldTest, FoldTurn};
use std::alloc::Global;
use std::rc::Rc;
use std::sync::ledger::Ledger;

/// Whether the target folds. The test goes on with fresh fuel as often as its fuel is used up.
pub fn has_fold<L: Ledger>(
    alloc: Global,
    example: &Rc<Example>,
    steps: &mut Steps<L>,
) -> Result<bool, Memory>
    ensures { IfOk result (λ b. b ≡ has_fold example.now.value.target) }
{
    let mut test = FoldTest::begin(alloc, example)?;
    'turns: loop {
        let mut fuel = Fuel::new(u64::MAX);
        match test.turn(u64::MAX, &mut fuel, steps) {
            FoldTurn::Folds => return Ok(true),
            FoldTurn::Fault => return Ok(false),
            FoldTurn::Going | FoldTurn::Spent => {}
        }
    }
}

/// The first homomorphism between the sources that extends to none between the targets, where no constant of the first
/// target is foreign.
pub fn first_refuting<L: Ledger>(
    alloc: Global,
    first: &Rc<Example>,
    second: &Rc<Example>,
    steps: &mut Steps<L>,
) -> Result<Option<Map>, Memory>
    requires { first_foreign (pair_of first.now.value) ≡ None }
    ensures { IfOk result (λ o. o ≡ first_refuting (pair_of first.now.value) (pair_of second.now.value)) }
{
    let mut fuel = Fuel::new(u64::MAX);
    match test_pair(alloc, first, second, &mut fuel, steps) {
        Ok(PairVerdict::Extends) => Ok(None),
        Ok(PairVerdict::Fails(map)) => Ok(Some(map)),
        Err(FindStop::Memory) => Err(Memory),
        Err(FindStop::Spent) => refuting_at_length(alloc, first, second, steps),
    }
}

/// The same, by a test that goes on with fresh fuel as often as its fuel is used up.
fn refuting_at_length<L: Ledger>(
    alloc: Global,
    first: &Rc<Example>,
    second: &Rc<Example>,
    steps: &mut Steps<L>,
) -> Result<Option<Map>, Memory>
    requires { first_foreign (pair_of first.now.value) ≡ None }
    ensures { IfOk result (λ o. o ≡ first_refuting (pair_of first.now.value) (pair_of second.now.value)) }
{
    let mut test = PairTest::begin(alloc, first, second)?;
    'turns: loop {
        let mut fuel = Fuel::new(u64::MAX);
        match test.turn(u64::MAX, &mut fuel, steps) {
            Turn::Extends => return Ok(None),
            Turn::Fails => return Ok(Some(test.map().copy(alloc)?)),
            Turn::Going | Turn::Spent => {}
        }
    }
}
