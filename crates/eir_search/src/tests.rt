//! The toy's lists by steps and by turns, compared with a listing made by hand; how many tries there are, and that each
//! is a try of the toy; a limit at each try; and each call once with ample memory.
ghost use Rattle.std.specs.Prelude.{◌≡◌, ◌<◌};

use crate::toy::Toy;
use crate::{Fuel, Search, Step, Steps, Turn};
use std::alloc::{AllocError, Global};
use std::marker::Brand;
use std::sync::ledger::{Blank, Ledger};
use std::test::Fail;

/// All lists of the toy with three levels, each as the number of its digits.
const LISTS: [u64; 6] = [0, 1, 200, 201, 220, 222];

/// The try that tells each list, counted from 1.
const AT: [u64; 6] = [3, 4, 9, 10, 13, 15];

/// A list as the number of its digits.
fn number(choices: &[usize]) -> u64 {
    choices.iter().fold(
        0,
        |digits: u64, choice| digits.wrapping_mul(10).wrapping_add(*choice as u64),
    )
}

/// What steps tell.
fn tell_by_steps<L: Ledger>(
    alloc: Global,
    search: &mut Search<Toy>,
    fuel: &mut Fuel,
    blank: Blank,
) -> Result<(Vec<u64>, Step), AllocError>
    requires name { blank.name ≡ L.name }
    requires parts { blank.parts ≡ L.parts }
    requires some { 0 < blank.parts }
{
    let mut steps = Steps::<L>::open(blank);
    let mut told = Vec::new(alloc);
    for _ in 0..100 {
        match search.step(fuel, &mut steps) {
            Step::Tried => {}
            Step::Found => told.push(number(search.choices()))?,
            end => return Ok((told, end)),
        }
    }
    Ok((told, Step::Tried))
}

/// What turns tell.
fn tell_by_turns<L: Ledger>(
    alloc: Global,
    search: &mut Search<Toy>,
    at_most: u64,
    fuel: &mut Fuel,
    blank: Blank,
) -> Result<(Vec<u64>, Turn), AllocError>
    requires name { blank.name ≡ L.name }
    requires parts { blank.parts ≡ L.parts }
    requires some { 0 < blank.parts }
{
    let mut steps = Steps::<L>::open(blank);
    let mut told = Vec::new(alloc);
    for _ in 0..100 {
        match search.turn(at_most, fuel, &mut steps) {
            Turn::Going => {}
            Turn::Found => told.push(number(search.choices()))?,
            end => return Ok((told, end)),
        }
    }
    Ok((told, Turn::Going))
}

/// What steps tell, where nobody counts.
fn by_steps(
    alloc: Global,
    search: &mut Search<Toy>,
    fuel: &mut Fuel,
) -> Result<(Vec<u64>, Step), AllocError> {
    tell_by_steps::<Brand>(alloc, search, fuel, Blank::new(1))
}

/// What turns tell, where nobody counts.
fn by_turns(
    alloc: Global,
    search: &mut Search<Toy>,
    at_most: u64,
    fuel: &mut Fuel,
) -> Result<(Vec<u64>, Turn), AllocError> {
    tell_by_turns::<Brand>(alloc, search, at_most, fuel, Blank::new(1))
}

/// A search of the toy, begun.
fn begin(alloc: Global, levels: usize) -> Result<Search<Toy>, Fail> {
    match Search::begin(alloc, Toy::new(levels)) {
        Ok(search) => Ok(search),
        Err(_) => Err("no memory".into()),
    }
}

#[test]
fn place_counted(rt: HostRuntime) -> Result<(), Fail> {
    let alloc = rt.alloc();
    let mut search = begin(alloc, 3)?;
    let mut fuel = Fuel::new(1000);
    let (told, end) = by_steps(alloc, &mut search, &mut fuel)?;
    assert_eq!(rt; told.as_slice(), LISTS.as_slice());
    assert_eq!(rt; end, Step::Done);
    assert_eq!(rt; fuel.used(), 15);
    assert_eq!(rt; search.problem().tries, 15);
    Ok(())
}

#[test]
fn spent_at_each_try(rt: HostRuntime) -> Result<(), Fail> {
    let alloc = rt.alloc();
    for limit in 0..15 {
        let mut search = begin(alloc, 3)?;
        let mut fuel = Fuel::new(limit);
        let (mut told, end) = by_steps(alloc, &mut search, &mut fuel)?;
        assert_eq!(rt; (end, fuel.used()), (Step::Spent, limit));
        assert_eq!(rt; search.problem().tries, limit);
        let lists = AT.iter().filter(|at| **at <= limit).count();
        assert_eq!(rt; told.len(), lists, "at {limit}");
        let (rest, _) = by_steps(alloc, &mut search, &mut Fuel::new(100))?;
        told.extend_from_slice(&rest)?;
        assert_eq!(rt; told.as_slice(), LISTS.as_slice(), "at {limit}");
    }
    Ok(())
}

#[test]
fn turns_tell_the_same(rt: HostRuntime) -> Result<(), Fail> {
    let alloc = rt.alloc();
    for at_most in [1, 2, 3, 7, 100] {
        for limit in 0..15 {
            let mut search = begin(alloc, 3)?;
            let mut fuel = Fuel::new(limit);
            let (mut told, end) = by_turns(alloc, &mut search, at_most, &mut fuel)?;
            assert_eq!(rt; (end, fuel.used()), (Turn::Spent, limit), "at {at_most}");
            assert_eq!(rt; search.problem().tries, limit, "at {at_most}");
            let lists = AT.iter().filter(|at| **at <= limit).count();
            assert_eq!(rt; told.len(), lists, "at {at_most} of {limit}");
            let (rest, end) = by_turns(alloc, &mut search, at_most, &mut Fuel::new(100))?;
            assert_eq!(rt;
                (end, search.problem().tries),
                (Turn::Done, 15),
                "at {at_most} of {limit}"
            );
            told.extend_from_slice(&rest)?;
            assert_eq!(rt;
                told.as_slice(),
                LISTS.as_slice(),
                "at {at_most} of {limit}"
            );
        }
    }
    Ok(())
}

#[test]
fn looks_without_a_try(rt: HostRuntime) -> Result<(), Fail> {
    let alloc = rt.alloc();
    let mut search = begin(alloc, 3)?;
    let (told, end) = by_turns(alloc, &mut search, 0, &mut Fuel::new(0))?;
    assert_eq!(rt; (told.len(), end), (0, Turn::Spent));
    let mut fuel = Fuel::new(1);
    let (told, end) = by_turns(alloc, &mut search, 0, &mut fuel)?;
    assert_eq!(rt; (told.len(), end), (0, Turn::Going));
    assert_eq!(rt; (fuel.limit(), fuel.used()), (1, 0));
    let (told, _) = by_turns(alloc, &mut search, 100, &mut Fuel::new(100))?;
    assert_eq!(rt; told.as_slice(), LISTS.as_slice());
    let (told, end) = by_turns(alloc, &mut search, 0, &mut Fuel::new(0))?;
    assert_eq!(rt; (told.len(), end), (0, Turn::Done));
    Ok(())
}

#[test]
fn fewer_levels(rt: HostRuntime) -> Result<(), Fail> {
    let alloc = rt.alloc();
    let cases: [(usize, &[u64], u64); 3] = [
        (0, &[0], 0),
        (1, &[0, 1, 2], 3),
        (2, &[0, 1, 20, 22], 8),
    ];
    for (levels, lists, tries) in cases {
        let mut search = begin(alloc, levels)?;
        let mut fuel = Fuel::new(100);
        let (told, end) = by_steps(alloc, &mut search, &mut fuel)?;
        assert_eq!(rt; told.as_slice(), lists, "at {levels}");
        assert_eq!(rt; (end, fuel.used()), (Step::Done, tries), "at {levels}");
        let mut search = begin(alloc, levels)?;
        let mut fuel = Fuel::new(100);
        let (told, end) = by_turns(alloc, &mut search, 100, &mut fuel)?;
        assert_eq!(rt; told.as_slice(), lists, "at {levels}");
        assert_eq!(rt; (end, fuel.used()), (Turn::Done, tries), "at {levels}");
    }
    Ok(())
}

#[test]
fn goes_again_in_its_room(rt: HostRuntime) -> Result<(), Fail> {
    let alloc = rt.alloc();
    for limit in 0..15 {
        let mut search = begin(alloc, 3)?;
        by_steps(alloc, &mut search, &mut Fuel::new(limit))?;
        let (problem, room) = search.end();
        assert_eq!(rt; problem.tries, limit, "at {limit}");
        let mut search = Search::again(problem, room);
        assert_eq!(rt; search.choices().len(), 0, "at {limit}");
        let (told, _) = by_steps(alloc, &mut search, &mut Fuel::new(100))?;
        assert_eq!(rt; told.as_slice(), LISTS.as_slice(), "at {limit}");
    }
    Ok(())
}
