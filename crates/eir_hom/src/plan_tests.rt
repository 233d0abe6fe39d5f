//! The plan of a small instance, with and without a start, and a planner and a guard that are really asked.
ghost use Rattle.std.specs.Prelude.{◌≡◌, ◌<◌};
ghost use Rattle.eir_term.specs.Profiles.{is_within};
ghost use Rattle.eir_hom.specs.Views.{IsView, view_weight};

use crate::tests::go_on;
use crate::{AtomView, Guard, Homs, Planner, plan_of};
use eir_inst::{Instance, Profile};
use eir_search::{Fuel, Steps};
use eir_term::Val::Const;
use eir_term::{Fact, Map, Val};
use std::alloc::Global;
use std::cell::Cell;
use std::marker::Brand;
use std::rc::Rc;
use std::sync::ledger::{Blank, Ledger};
use std::test::Fail;

/// R(a,b), S(c), S(b).
fn small(alloc: Global) -> Result<Instance, Fail> {
    let mut instance = Instance::new(alloc, 8);
    instance.insert(Fact::make(alloc, 0, &[Const(1), Const(2)])?)?;
    instance.insert(Fact::make(alloc, 1, &[Const(3)])?)?;
    instance.insert(Fact::make(alloc, 1, &[Const(2)])?)?;
    Ok(instance)
}

/// Whether the facts of an instance are placed in this order, in a search into another over this start.
fn is_planned(
    alloc: Global,
    from: &Instance,
    to: &Instance,
    start: &Map,
    order: &[usize],
) -> Result<bool, Fail> {
    let plan = plan_of(alloc, from, to, start)?;
    Ok(plan.as_slice() == order)
}

#[test]
fn lists_the_lightest_first(rt: HostRuntime) -> Result<(), Fail> {
    let alloc = rt.alloc();
    let small = small(alloc)?;
    let mut start = Map::new(alloc);
    assert!(rt; is_planned(alloc, &small, &small, &start, &[1, 2, 0])?);
    start.put(Const(2), Const(2))?;
    assert!(rt; is_planned(alloc, &small, &small, &start, &[2, 0, 1])?);
    let none = Instance::new(alloc, 8);
    assert!(rt; is_planned(alloc, &none, &small, &start, &[])?);
    Ok(())
}

/// All that a listing finds: how many homomorphisms, and their pairs in order.
fn list_all<L: Ledger>(
    alloc: Global,
    homs: &mut Homs,
    blank: Blank,
) -> Result<(u64, Vec<(Val, Val)>), Fail>
    requires name { blank.name ≡ L.name }
    requires parts { blank.parts ≡ L.parts }
    requires some { 0 < blank.parts }
{
    let mut steps = Steps::<L>::open(blank);
    let mut fuel = Fuel::new(1000);
    let (count, pairs, _) = go_on(alloc, homs, &mut fuel, &mut steps)?;
    Ok((count, pairs))
}

/// The same, where nobody counts on.
fn listed(alloc: Global, homs: &mut Homs) -> Result<(u64, Vec<(Val, Val)>), Fail> {
    list_all::<Brand>(alloc, homs, Blank::new(1))
}

/// Whether two listings find the same homomorphisms, some at least, in the same order.
fn find_alike(alloc: Global, one: &mut Homs, other: &mut Homs) -> Result<bool, Fail> {
    let (count, pairs) = listed(alloc, one)?;
    let (other_count, other_pairs) = listed(alloc, other)?;
    Ok(count > 0 && count == other_count && pairs.as_slice() == other_pairs.as_slice())
}

/// Whether a listing from the small instance into itself by this planner and this guard finds what `begin` finds.
fn finds_the_same(alloc: Global, planner: &Planner, guard: &Guard) -> Result<bool, Fail> {
    let small = Rc::new(alloc, small(alloc)?)?;
    let start = Map::new(alloc);
    let mut one = Homs::begin_with(alloc, planner, guard, &small, &small, &start)?;
    let mut other = Homs::begin(alloc, &small, &small, &start)?;
    find_alike(alloc, &mut one, &mut other)
}

/// The weight, worked out by a stranger.
fn weigh(view: AtomView) -> u64
    requires { IsView view }
    ensures { result ≡ view_weight view }
{
    let unknown = (view.arity - view.bound) as u64 * 1_048_576;
    let none_known = if view.bound == 0 { 33_554_432 } else { 0 };
    unknown + view.count.min(1_048_575) + none_known
}

#[test]
fn planner_called(rt: HostRuntime) -> Result<(), Fail> {
    let alloc = rt.alloc();
    let calls = Rc::new(alloc, Cell::new(0u64))?;
    let counter = calls.clone()?;
    let choose = move |view: AtomView| -> u64
        requires { IsView view }
        ensures { result ≡ view_weight view }
    {
        counter.set(counter.get().wrapping_add(1));
        weigh(view)
    };
    let planner = Planner::new(Box::new(alloc, choose)?);
    assert!(rt; finds_the_same(alloc, &planner, &Guard::standard())?);
    assert!(rt; calls.get() >= 2);
    Ok(())
}

#[test]
fn guard_called(rt: HostRuntime) -> Result<(), Fail> {
    let alloc = rt.alloc();
    let calls = Rc::new(alloc, Cell::new(0u64))?;
    let counter = calls.clone()?;
    let test = move |from: &Profile, to: &Profile| -> bool
        ensures { result ≡ is_within from.now to.now }
    {
        counter.set(counter.get().wrapping_add(1));
        from.within(to)
    };
    let guard = Guard::new(Box::new(alloc, test)?);
    let choose = move |view: AtomView| -> u64
        requires { IsView view }
        ensures { result ≡ view_weight view }
    { weigh(view) };
    let planner = Planner::new(Box::new(alloc, choose)?);
    assert!(rt; finds_the_same(alloc, &planner, &guard)?);
    assert!(rt; calls.get() >= 1);
    Ok(())
}
