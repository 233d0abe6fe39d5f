//! The first homomorphism.
ghost use Rattle.std.specs.Prelude.{◌≡◌, ◌+◌, ◌-◌, ◌<◌, ◌≤◌, IfOk, Err, slice_get};
ghost use Rattle.eir_term.specs.Order.{KeepsFixed};
ghost use Rattle.eir_term.specs.Search.{homs, need};

use crate::{HomTurn, Homs};
use eir_inst::Instance;
use eir_search::{Fuel, Steps};
use eir_term::{Map, Memory};
use std::alloc::Global;
use std::rc::Rc;
use std::sync::ledger::Ledger;

/// Why no answer was found.
#[derive(Clone, Copy, Debug, PartialEq, Eq)]
pub enum FindStop {
    /// A try is next, and the fuel is used up.
    Spent,
    /// There was no memory.
    Memory,
}

impl From<Memory> for FindStop {
    ghost use Rattle.std.specs.Prelude.{◌≡◌};
    ghost use Rattle.eir_hom.specs.declared.find.FindStop.TheVariants as stop;

    ghost from_gives = { λ _ s. s ≡ stop.Memory };

    fn from(_: Memory) -> Self {
        FindStop::Memory
    }
}

/// The first homomorphism from `a` to `b` that agrees with the start, or `None` where there is none. It makes at most
/// as many tries as listing them all needs.
///
/// # Errors
/// `Spent` where the fuel has fewer tries left than listing them all needs, and no homomorphism was found with these;
/// `Memory`.
pub fn find_hom<L: Ledger>(
    alloc: Global,
    a: &Rc<Instance>,
    b: &Rc<Instance>,
    start: &Map,
    fuel: &mut Fuel,
    steps: &mut Steps<L>,
) -> Result<Option<Map>, FindStop>
    requires fixed { KeepsFixed start.now }
    ensures ok { IfOk result (λ o. o ≡ slice_get (homs a.now.value.facts b.now.value.facts start.now) 0) }
    ensures spent { result ≡ Err FindStop.Spent
        → (fuel.new.used ≡ fuel.old.limit)
        × (fuel.old.limit - fuel.old.used < need a.now.value.facts b.now.value.facts start.now) }
    ensures at_most { fuel.new.used ≤ fuel.old.used + need a.now.value.facts b.now.value.facts start.now }
    ensures used { fuel.old.used ≤ fuel.new.used }
    ensures limit { fuel.new.limit ≡ fuel.old.limit }
    ensures steps { steps.new + fuel.old.used ≡ steps.old + fuel.new.used }
{
    let mut homs = Homs::begin(alloc, a, b, start)?;
    let all = fuel.limit();
    match homs.turn(all, fuel, steps) {
        HomTurn::Found => Ok(Some(homs.into_map())),
        HomTurn::Done => Ok(None),
        HomTurn::Spent => Err(FindStop::Spent),
        HomTurn::Going => unreachable!(),
    }
}
