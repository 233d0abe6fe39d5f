//! The fold test at once.
ghost use Rattle.std.specs.Prelude.{◌≡◌, ◌+◌, ◌-◌, ◌<◌, ◌≤◌, IfOk, Err};
ghost use Rattle.eir_hom.specs.declared.find.FindStop.TheVariants as stop;
ghost use Rattle.eir_term.specs.Search.{foldneed};
ghost use Rattle.eir_term.specs.Verdicts.{has_fold};

use crate::{FoldTest, FoldTurn};
use eir_edit::Example;
use eir_hom::FindStop;
use eir_search::{Fuel, Steps};
use std::alloc::Global;
use std::rc::Rc;
use std::sync::ledger::Ledger;

/// Whether the target of the example folds. It makes at most as many tries as listing all homomorphisms of the target
/// into its ground part that fix constants needs.
///
/// # Errors
/// `Spent` where the fuel has fewer tries left than that, and the test was not decided with these; `Memory`.
pub fn folds<L: Ledger>(
    alloc: Global,
    example: &Rc<Example>,
    fuel: &mut Fuel,
    steps: &mut Steps<L>,
) -> Result<bool, FindStop>
    ensures ok { IfOk result (λ b. b ≡ has_fold example.now.value.target) }
    ensures spent { result ≡ Err stop.Spent
        → (fuel.new.used ≡ fuel.old.limit)
        × (fuel.old.limit - fuel.old.used < foldneed example.now.value.target) }
    ensures at_most { fuel.new.used ≤ fuel.old.used + foldneed example.now.value.target }
    ensures used { fuel.old.used ≤ fuel.new.used }
    ensures limit { fuel.new.limit ≡ fuel.old.limit }
    ensures steps { steps.new + fuel.old.used ≡ steps.old + fuel.new.used }
{
    let mut test = FoldTest::begin(alloc, example)?;
    let all = fuel.limit();
    match test.turn(all, fuel, steps) {
        FoldTurn::Folds => Ok(true),
        FoldTurn::Fault => Ok(false),
        FoldTurn::Spent => Err(FindStop::Spent),
        FoldTurn::Going => unreachable!(),
    }
}
