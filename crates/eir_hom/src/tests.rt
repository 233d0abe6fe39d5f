//! Listings between small instances, each compared with what a person lists; the tries that they take, with more and
//! with less fuel than these; and each call once with ample memory. A body that always wants memory would pass the
//! check.
ghost use Rattle.std.specs.Prelude.{◌≡◌, ◌<◌, ◌∷◌, [], IfOk, OnOk};
ghost use Rattle.eir_term.specs.declared.val.Val.TheVariants as val;
ghost use Rattle.eir_term.specs.Maps.{domain_of};
ghost use Rattle.eir_term.specs.Order.{KeepsFixed};

use crate::{FindStop, HomTurn, Homs, find_hom};
use eir_inst::Instance;
use eir_search::{Fuel, Steps};
use eir_term::Val::{Const, Fixed, Null};
use eir_term::{Fact, Map, Memory, Val};
use std::alloc::Global;
use std::marker::Brand;
use std::process::Abort;
use std::rc::Rc;
use std::sync::ledger::{Blank, Ledger};
use std::test::Fail;

/// The instance of these edges.
fn edges(alloc: Global, pairs: &[(Val, Val)]) -> Result<Rc<Instance>, Fail> {
    let mut instance = Instance::new(alloc, 512);
    for (v, w) in pairs {
        instance.insert(Fact::make(alloc, 0, &[*v, *w])?)?;
    }
    let instance = Rc::new(alloc, instance)?;
    Ok(instance)
}

/// The instance of these facts of one column, by the number of the relation and that of the constant.
fn points(alloc: Global, facts: &[(u32, u64)]) -> Result<Rc<Instance>, Fail> {
    let mut instance = Instance::new(alloc, 512);
    for (rel, constant) in facts {
        instance.insert(Fact::make(alloc, *rel, &[Const(*constant)])?)?;
    }
    let instance = Rc::new(alloc, instance)?;
    Ok(instance)
}

/// The map that names one constant.
fn moved(alloc: Global, from: u64, to: Val) -> Result<Map, Memory>
    ensures names { IfOk result (λ m. domain_of m ≡ val.Const from ∷ []) }
    ensures fixed { IfOk result (λ m. KeepsFixed m) }
{
    let mut map = Map::new(alloc);
    map.put(Const(from), to)?;
    Ok(map)
}

/// The map that names one constant, or none.
fn start(alloc: Global, moves: Option<(u64, u64)>) -> Result<Map, Memory>
    ensures { IfOk result (λ m. KeepsFixed m) }
{
    match moves {
        Some((from, to)) => moved(alloc, from, Const(to)),
        None => Ok(Map::new(alloc)),
    }
}

/// Goes on to the end, or until the fuel is used up: the pairs of all that is found, and how it ended.
pub(crate) fn go_on<L: Ledger>(
    alloc: Global,
    homs: &mut Homs,
    fuel: &mut Fuel,
    steps: &mut Steps<L>,
) -> Result<(u64, Vec<(Val, Val)>, HomTurn), Fail>
    ensures source { homs.new.source ≡ homs.old.source }
    ensures start { homs.new.start ≡ homs.old.start }
{
    let mut count: u64 = 0;
    let mut found = Vec::new(alloc);
    'turns: for _ in 0..1000 {
        match homs.turn(10, fuel, steps) {
            HomTurn::Going => {}
            HomTurn::Found => {
                count = count.wrapping_add(1);
                found.extend_from_slice(homs.map().as_slice())?;
            }
            end => return Ok((count, found, end)),
        }
    }
    Ok((count, found, HomTurn::Going))
}

/// The edges of a source and of a target, a constant that the start moves, how many homomorphisms there are, their
/// pairs in order, and the tries that listing them takes.
#[derive(Drop)]
struct Case<'a> {
    source: &'a [(Val, Val)],
    target: &'a [(Val, Val)],
    moved: Option<(u64, u64)>,
    count: u64,
    pairs: &'a [(Val, Val)],
    tries: u64,
}

/// What a listing finds, and the tries that it makes.
#[derive(Drop)]
struct Outcome {
    count: u64,
    pairs: Vec<(Val, Val)>,
    end: HomTurn,
    tries: u64,
    first: Option<Map>,
}

/// Lists the homomorphisms of a case.
fn list<L: Ledger>(alloc: Global, case: &Case, blank: Blank) -> Result<Outcome, Fail>
    requires name { blank.name ≡ L.name }
    requires parts { blank.parts ≡ L.parts }
    requires some { 0 < blank.parts }
{
    let mut steps = Steps::<L>::open(blank);
    let source = edges(alloc, case.source)?;
    let target = edges(alloc, case.target)?;
    let start = start(alloc, case.moved)?;
    let mut homs = Homs::begin(alloc, &source, &target, &start)?;
    let mut fuel = Fuel::new(1000);
    let (count, pairs, end) = go_on(alloc, &mut homs, &mut fuel, &mut steps)?;
    let tries = fuel.used();
    let Ok(first) = find_hom(alloc, &source, &target, &start, &mut fuel, &mut steps) else {
        return Err("no answer".into());
    };
    Ok(Outcome {
        count,
        pairs,
        end,
        tries,
        first,
    })
}

/// The same, where nobody counts on.
fn listed(alloc: Global, case: &Case) -> Result<Outcome, Fail> {
    list::<Brand>(alloc, case, Blank::new(1))
}

/// Asserts that the homomorphisms are those of the case.
fn assert_listed(rt: &impl Abort, alloc: Global, case: &Case) -> Result<(), Fail> {
    let got = listed(alloc, case)?;
    assert_eq!(rt;
        (got.count, got.end, got.tries),
        (case.count, HomTurn::Done, case.tries)
    );
    assert_eq!(rt; got.pairs.as_slice(), case.pairs);
    assert_eq!(rt; got.first.is_some(), case.count > 0);
    if let Some(map) = &got.first {
        assert_eq!(rt; case.pairs.get(..map.len()), Some(map.as_slice()));
    }
    Ok(())
}

#[test]
fn lists_in_order(rt: HostRuntime) -> Result<(), Fail> {
    let (a, b, c) = (Const(1), Const(2), Const(3));
    let (hr, it, n) = (Fixed(1), Fixed(2), Null(1));
    let cases = [
        // from nothing the empty map, also where nothing is there
        Case {
            source: &[],
            target: &[],
            moved: None,
            count: 1,
            pairs: &[],
            tries: 0,
        },
        Case {
            source: &[],
            target: &[(a, b)],
            moved: Some((1, 2)),
            count: 1,
            pairs: &[],
            tries: 0,
        },
        // none from a loop into an edge, nor over a start that sends a past the edge's first value
        Case {
            source: &[(a, a)],
            target: &[(a, b)],
            moved: None,
            count: 0,
            pairs: &[],
            tries: 0,
        },
        Case {
            source: &[(a, b)],
            target: &[(a, b)],
            moved: Some((1, 2)),
            count: 0,
            pairs: &[],
            tries: 0,
        },
        // each edge in turn; constants and nulls move, and a start that moves nothing of the source changes nothing
        Case {
            source: &[(a, b)],
            target: &[(b, a), (c, c)],
            moved: None,
            count: 2,
            pairs: &[(a, b), (b, a), (a, c), (b, c)],
            tries: 2,
        },
        Case {
            source: &[(a, b)],
            target: &[(b, a), (c, c)],
            moved: Some((9, 1)),
            count: 2,
            pairs: &[(a, b), (b, a), (a, c), (b, c)],
            tries: 2,
        },
        Case {
            source: &[(n, a)],
            target: &[(b, n)],
            moved: None,
            count: 1,
            pairs: &[(n, b), (a, n)],
            tries: 1,
        },
        // a fixed constant stays
        Case {
            source: &[(hr, a)],
            target: &[(it, a), (hr, c), (a, b)],
            moved: None,
            count: 1,
            pairs: &[(hr, hr), (a, c)],
            tries: 1,
        },
    ];
    for case in cases {
        assert_listed(&rt, rt.alloc(), &case)?;
    }
    Ok(())
}

/// The cycle of six edges.
fn cycle(alloc: Global) -> Result<Rc<Instance>, Fail> {
    edges(
        alloc,
        &[
            (Const(1), Const(2)),
            (Const(2), Const(3)),
            (Const(3), Const(4)),
            (Const(4), Const(5)),
            (Const(5), Const(6)),
            (Const(6), Const(1)),
        ],
    )
}

/// Goes through the homomorphisms from the cycle into itself: how many are found with so much fuel, what is used of it,
/// and how it ends; and what `find_hom` answers with the same.
fn turn_cycle<L: Ledger>(
    alloc: Global,
    limit: u64,
    blank: Blank,
) -> Result<(u64, u64, HomTurn, Result<Option<Map>, FindStop>), Fail>
    requires name { blank.name ≡ L.name }
    requires parts { blank.parts ≡ L.parts }
    requires some { 0 < blank.parts }
{
    let mut steps = Steps::<L>::open(blank);
    let six = cycle(alloc)?;
    let start = Map::new(alloc);
    let mut homs = Homs::begin(alloc, &six, &six, &start)?;
    let mut fuel = Fuel::new(limit);
    let (count, _, end) = go_on(alloc, &mut homs, &mut fuel, &mut steps)?;
    let mut again = Fuel::new(limit);
    let first = find_hom(alloc, &six, &six, &start, &mut again, &mut steps);
    Ok((count, fuel.used(), end, first))
}

/// The same, where nobody counts on.
fn turn(
    alloc: Global,
    limit: u64,
) -> Result<(u64, u64, HomTurn, Result<Option<Map>, FindStop>), Fail> {
    turn_cycle::<Brand>(alloc, limit, Blank::new(1))
}

#[test]
fn turns_a_cycle(rt: HostRuntime) -> Result<(), Fail> {
    let alloc = rt.alloc();
    let cases = [
        (36, 6, 36, HomTurn::Done),
        (35, 5, 35, HomTurn::Spent),
        (6, 1, 6, HomTurn::Spent),
    ];
    for (limit, count, used, end) in cases {
        let (got_count, got_used, got_end, first) = turn(alloc, limit)?;
        assert_eq!(rt;
            (got_count, got_used, got_end),
            (count, used, end),
            "with {limit}"
        );
        match first {
            Ok(Some(map)) => assert_eq!(rt; map.get(Const(6)), Some(Const(6))),
            _ => return Err("no homomorphism".into()),
        }
    }
    let (_, used, end, first) = turn(alloc, 5)?;
    assert_eq!(rt; (used, end), (5, HomTurn::Spent));
    assert!(rt; matches!(first, Err(FindStop::Spent)));
    Ok(())
}

/// A source and a target, and the one constant that the target has.
#[derive(Drop)]
struct Example {
    source: Rc<Instance>,
    target: Rc<Instance>,
    constant: u64,
}

/// The tries that it takes to list the homomorphisms between the sources, and those between the targets that agree with
/// each, which one listing finds that is begun anew.
fn pair_tries<L: Ledger>(
    alloc: Global,
    first: &Example,
    second: &Example,
    blank: Blank,
) -> Result<u64, Fail>
    requires name { blank.name ≡ L.name }
    requires parts { blank.parts ≡ L.parts }
    requires some { 0 < blank.parts }
{
    let mut steps = Steps::<L>::open(blank);
    let mut fuel = Fuel::new(100_000);
    let mut outer = Homs::begin(alloc, &first.source, &second.source, &Map::new(alloc))?;
    let start = moved(alloc, first.constant, Const(first.constant))?;
    let mut inner = Homs::begin(alloc, &first.target, &second.target, &start)?;
    'homs: for _ in 0..1000 {
        match outer.turn(100, &mut fuel, &mut steps) {
            HomTurn::Found => {
                let constant = first.constant;
                let image = outer.map().get(Const(constant)).unwrap_or(Const(constant));
                inner.restart(&moved(alloc, constant, image)?);
                go_on(alloc, &mut inner, &mut fuel, &mut steps)?;
            }
            HomTurn::Going => {}
            HomTurn::Done | HomTurn::Spent => break,
        }
    }
    Ok(fuel.used())
}

/// The same, where nobody counts on.
fn tries_of(alloc: Global, first: &Example, second: &Example) -> Result<u64, Fail> {
    pair_tries::<Brand>(alloc, first, second, Blank::new(1))
}

#[test]
fn begins_anew(rt: HostRuntime) -> Result<(), Fail> {
    let alloc = rt.alloc();
    let one = Example {
        source: points(alloc, &[(0, 1), (1, 1)])?,
        target: points(alloc, &[(2, 1)])?,
        constant: 1,
    };
    let five = Example {
        source: points(
            alloc,
            &[(0, 11), (0, 12), (0, 13), (1, 13), (1, 14), (1, 15)],
        )?,
        target: points(alloc, &[(2, 13)])?,
        constant: 13,
    };
    assert_eq!(rt; tries_of(alloc, &one, &one)?, 3);
    assert_eq!(rt; tries_of(alloc, &one, &five)?, 3);
    assert_eq!(rt; tries_of(alloc, &five, &one)?, 7);
    assert_eq!(rt; tries_of(alloc, &five, &five)?, 219);
    Ok(())
}
