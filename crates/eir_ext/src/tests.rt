//! Pairs of examples that a person decides, each tested in every way: stopped at each try and gone on with, and at once with
//! just enough fuel and with a try too few; and each call once with ample memory. A body that always wants memory would pass
//! the check.
ghost use Rattle.std.specs.Prelude.{◌≡◌, ◌<◌, false, IfOk, None};
ghost use Rattle.eir_term.specs.Verdicts.{first_foreign};
ghost use Rattle.eir_edit.specs.Pairs.{pair_of, paired};

use crate::{PairTest, PairVerdict, Turn, test_pair};
use eir_edit::Example;
use eir_hom::FindStop;
use eir_inst::{Indexed, Instance};
use eir_search::{Fuel, Steps};
use eir_term::Val::{Const, Null};
use eir_term::{Fact, Map, Text, Val};
use std::alloc::Global;
use std::marker::Brand;
use std::rc::Rc;
use std::sync::ledger::{Blank, Ledger};
use std::test::Fail;

/// The instance of these edges of a relation.
fn edges(alloc: Global, rel: u32, pairs: &[(Val, Val)]) -> Result<Rc<Instance>, Fail>
    ensures { IfOk result (λ i. i.value.limit ≡ 512) }
{
    let mut instance = Instance::new(alloc, 512);
    'pairs: for (v, w) in pairs {
        instance.insert(Fact::make(alloc, rel, &[*v, *w])?)?;
    }
    let instance = Rc::new(alloc, instance)?;
    Ok(instance)
}

/// Whether some constant of the target does not occur in the source.
fn has_foreign(source: &Instance, target: &Indexed) -> bool
    ensures { result ≡ false → first_foreign (paired source.now.facts target.now.facts) ≡ None }
{
    for value in target.values() {
        if value.is_const() && !source.has_value(*value) {
            return true;
        }
    }
    false
}

/// The edges of a source and those of a target.
type Edges<'a> = [&'a [(Val, Val)]; 2];

/// The example of these edges, without a foreign constant.
fn example(alloc: Global, edges_of: Edges) -> Result<Rc<Example>, Fail>
    ensures { IfOk result (λ e. first_foreign (pair_of e.value) ≡ None) }
{
    let [source, target] = edges_of;
    let source = edges(alloc, 0, source)?;
    let target = edges(alloc, 1, target)?;
    if has_foreign(&source, &*target.indexed()?) {
        return Err("a foreign constant".into());
    }
    let name = Text::make(alloc, b"e")?;
    let example = Example {
        name,
        version: 0,
        source,
        target,
    };
    let example = Rc::new(alloc, example)?;
    Ok(example)
}

/// How a test ended, the tries that it made, and the map that it found.
#[derive(Drop)]
struct Outcome {
    end: Turn,
    tries: u64,
    map: Option<Map>,
}

/// Tests the pair turn by turn, each with fuel of its own; a test that is decided is asked once more.
fn by_turns<L: Ledger>(
    alloc: Global,
    first: &Rc<Example>,
    second: &Rc<Example>,
    at_most: u64,
    limit: u64,
    steps: &mut Steps<L>,
) -> Result<Outcome, Fail>
    requires { first_foreign (pair_of first.now.value) ≡ None }
{
    let mut test = PairTest::begin(alloc, first, second)?;
    let mut tries: u64 = 0;
    'turns: for _ in 0..1000 {
        let mut fuel = Fuel::new(limit);
        let end = test.turn(at_most, &mut fuel, steps);
        tries = tries.wrapping_add(fuel.used());
        if end == Turn::Extends || end == Turn::Fails {
            return again(alloc, &mut test, end, tries, steps);
        }
    }
    Err("it was not decided".into())
}

/// Asks a test again that is decided: it answers the same, and makes no try.
fn again<L: Ledger>(
    alloc: Global,
    test: &mut PairTest,
    end: Turn,
    tries: u64,
    steps: &mut Steps<L>,
) -> Result<Outcome, Fail> {
    let mut fuel = Fuel::new(1000);
    let again = test.turn(1000, &mut fuel, steps);
    if again != end || fuel.used() != 0 {
        return Err("it went on".into());
    }
    let map = match again {
        Turn::Fails => Some(test.map().copy(alloc)?),
        _ => None,
    };
    Ok(Outcome { end, tries, map })
}

/// Tests the pair at once, within a limit of tries.
fn at_once<L: Ledger>(
    alloc: Global,
    first: &Rc<Example>,
    second: &Rc<Example>,
    limit: u64,
    steps: &mut Steps<L>,
) -> Result<Outcome, Fail>
    requires { first_foreign (pair_of first.now.value) ≡ None }
{
    let mut fuel = Fuel::new(limit);
    let (end, map) = match test_pair(alloc, first, second, &mut fuel, steps) {
        Ok(PairVerdict::Extends) => (Turn::Extends, None),
        Ok(PairVerdict::Fails(map)) => (Turn::Fails, Some(map)),
        Err(FindStop::Spent) => (Turn::Spent, None),
        Err(FindStop::Memory) => return Err("no memory".into()),
    };
    let tries = fuel.used();
    Ok(Outcome { end, tries, map })
}

/// The same pair tested in each way: in one turn, one try a turn, one try a limit, at once, and at once with a try too few.
#[derive(Drop)]
struct Ways {
    whole: Outcome,
    by_tries: Outcome,
    by_limits: Outcome,
    once: Outcome,
    short: Outcome,
}

/// Tests a pair in each way.
fn in_each_way<L: Ledger>(
    alloc: Global,
    first: &Rc<Example>,
    second: &Rc<Example>,
    blank: Blank,
) -> Result<Ways, Fail>
    requires foreign { first_foreign (pair_of first.now.value) ≡ None }
    requires name { blank.name ≡ L.name }
    requires parts { blank.parts ≡ L.parts }
    requires some { 0 < blank.parts }
{
    let mut steps = Steps::<L>::open(blank);
    let whole = by_turns(alloc, first, second, 1000, 1000, &mut steps)?;
    let by_tries = by_turns(alloc, first, second, 1, 1000, &mut steps)?;
    let by_limits = by_turns(alloc, first, second, 1000, 1, &mut steps)?;
    let once = at_once(alloc, first, second, whole.tries, &mut steps)?;
    let too_few = whole.tries.saturating_sub(1);
    let short = at_once(alloc, first, second, too_few, &mut steps)?;
    Ok(Ways {
        whole,
        by_tries,
        by_limits,
        once,
        short,
    })
}

/// The same, where nobody counts on.
fn outcomes(alloc: Global, first: &Rc<Example>, second: &Rc<Example>) -> Result<Ways, Fail>
    requires { first_foreign (pair_of first.now.value) ≡ None }
{
    in_each_way::<Brand>(alloc, first, second, Blank::new(1))
}

/// A pair of examples, how its test ends, the tries that it takes, and the pairs of the map that does not extend.
#[derive(Drop)]
struct Case<'a> {
    first: Edges<'a>,
    second: Edges<'a>,
    end: Turn,
    tries: u64,
    moves: &'a [(Val, Val)],
}

/// Whether the outcome is that of the case.
fn is_outcome(outcome: &Outcome, case: &Case) -> bool {
    let same = match &outcome.map {
        Some(map) => map.as_slice() == case.moves,
        None => case.moves.is_empty(),
    };
    same && outcome.end == case.end && outcome.tries == case.tries
}

/// Whether the outcome is that with one try too few, where so many are needed.
fn is_short(outcome: &Outcome, tries: u64) -> bool {
    tries == 0 || (outcome.end == Turn::Spent && outcome.tries == tries - 1)
}

/// Whether the pair of the case ends as the case says, in each way.
fn ends_so(alloc: Global, case: &Case) -> Result<bool, Fail> {
    let first = example(alloc, case.first)?;
    let second = example(alloc, case.second)?;
    let ways = outcomes(alloc, &first, &second)?;
    Ok(
        is_outcome(&ways.whole, case)
            && is_outcome(&ways.by_tries, case)
            && is_outcome(&ways.by_limits, case)
            && is_outcome(&ways.once, case)
            && is_short(&ways.short, case.tries),
    )
}

#[test]
fn tests_each_homomorphism(rt: HostRuntime) -> Result<(), Fail> {
    let (ann, hr, bob, it, cy) = (Const(1), Const(2), Const(3), Const(4), Const(5));
    let one: Edges = [&[(ann, hr)], &[(ann, hr)]];
    let two: Edges = [&[(bob, it), (cy, it)], &[(bob, it)]];
    let cases = [
        Case {
            first: one,
            second: one,
            end: Turn::Extends,
            tries: 2,
            moves: &[],
        },
        // the homomorphism to bob extends, that to cy does not
        Case {
            first: one,
            second: two,
            end: Turn::Fails,
            tries: 3,
            moves: &[(ann, cy), (hr, it)],
        },
        Case {
            first: two,
            second: one,
            end: Turn::Extends,
            tries: 3,
            moves: &[],
        },
        // the third of four is the first that does not
        Case {
            first: two,
            second: two,
            end: Turn::Fails,
            tries: 7,
            moves: &[(bob, cy), (it, it), (cy, bob)],
        },
    ];
    for case in cases {
        assert!(rt;
            ends_so(rt.alloc(), &case)?,
            "{:?} by {} tries",
            case.end,
            case.tries
        );
    }
    Ok(())
}

#[test]
fn stops_at_the_first_extension(rt: HostRuntime) -> Result<(), Fail> {
    let (a, b) = (Const(1), Const(2));
    let one: Edges = [&[(a, b)], &[(a, Null(1))]];
    let three: Edges = [&[(a, b)], &[(a, Null(1)), (a, Null(2)), (a, Null(3))]];
    let none: Edges = [&[(a, b)], &[]];
    let cases = [
        Case {
            first: one,
            second: three,
            end: Turn::Extends,
            tries: 2,
            moves: &[],
        },
        Case {
            first: three,
            second: one,
            end: Turn::Extends,
            tries: 4,
            moves: &[],
        },
        // nothing of an empty target has to go anywhere, and nothing goes into one
        Case {
            first: none,
            second: one,
            end: Turn::Extends,
            tries: 1,
            moves: &[],
        },
        Case {
            first: one,
            second: none,
            end: Turn::Fails,
            tries: 1,
            moves: &[(a, a), (b, b)],
        },
    ];
    for case in cases {
        assert!(rt;
            ends_so(rt.alloc(), &case)?,
            "{:?} by {} tries",
            case.end,
            case.tries
        );
    }
    Ok(())
}

#[test]
fn extends_where_no_homomorphism_is(rt: HostRuntime) -> Result<(), Fail> {
    let (a, b, c) = (Const(1), Const(2), Const(3));
    let triangle: Edges = [&[(a, b), (b, c), (c, a)], &[(a, b)]];
    let cases = [
        // three edges round do not go into two, which six tries tell
        Case {
            first: triangle,
            second: [&[(a, b), (b, a)], &[]],
            end: Turn::Extends,
            tries: 6,
            moves: &[],
        },
        // and a value at both columns does not go into an edge, which no try has to tell
        Case {
            first: triangle,
            second: [&[(a, b)], &[]],
            end: Turn::Extends,
            tries: 0,
            moves: &[],
        },
    ];
    for case in cases {
        assert!(rt;
            ends_so(rt.alloc(), &case)?,
            "{:?} by {} tries",
            case.end,
            case.tries
        );
    }
    Ok(())
}

/// Tests the pair at once, and once more where memory was refused.
fn at_last<L: Ledger>(
    alloc: Global,
    first: &Rc<Example>,
    second: &Rc<Example>,
    blank: Blank,
) -> Result<PairVerdict, FindStop>
    requires foreign { first_foreign (pair_of first.now.value) ≡ None }
    requires name { blank.name ≡ L.name }
    requires parts { blank.parts ≡ L.parts }
    requires some { 0 < blank.parts }
{
    let mut steps = Steps::<L>::open(blank);
    let mut fuel = Fuel::new(1000);
    match test_pair(alloc, first, second, &mut fuel, &mut steps) {
        Err(FindStop::Memory) => test_pair(alloc, first, second, &mut fuel, &mut steps),
        end => end,
    }
}

/// The same, where nobody counts on.
fn decided(
    alloc: Global,
    first: &Rc<Example>,
    second: &Rc<Example>,
) -> Result<PairVerdict, FindStop>
    requires { first_foreign (pair_of first.now.value) ≡ None }
{
    at_last::<Brand>(alloc, first, second, Blank::new(1))
}

/// Where an allocation of the call fails, as `--fail-alloc` lets each in turn, it says so, and the examples are as they were.
#[test]
fn decides_after_memory_was_refused(rt: HostRuntime) -> Result<(), Fail> {
    let alloc = rt.alloc();
    let (a, b, c) = (Const(1), Const(2), Const(3));
    let first = example(alloc, [&[(a, b)], &[(a, b)]])?;
    let second = example(alloc, [&[(a, b), (c, b)], &[(a, b)]])?;
    match decided(alloc, &first, &second) {
        Ok(PairVerdict::Fails(map)) => {
            assert_eq!(rt; map.as_slice(), [(a, c), (b, b)].as_slice());
            Ok(())
        }
        _ => Err("it does not extend".into()),
    }
}
