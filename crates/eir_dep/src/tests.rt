//! Which lists are refused, and each call once with ample memory. A body that always wants memory would pass the check.
use crate::{Dep, DepRefused, Mapping};
use eir_term::{Atom, Memory, Term};
use std::alloc::Global;
use std::process::Abort;
use std::test::Fail;

/// Three lists, with each atom as its two variables, and what comes of them.
#[derive(Drop)]
struct Case {
    premise: &'static [(u32, u32)],
    exists: &'static [u32],
    conclusion: &'static [(u32, u32)],
    want: Result<(), DepRefused>,
}

/// The atoms of a relation with these pairs of terms. Number 0 stands for a fixed constant.
fn atoms(alloc: Global, rel: u32, pairs: &[(u32, u32)]) -> Result<Vec<Atom>, Memory> {
    let mut atoms = Vec::new(alloc);
    for (first, second) in pairs {
        atoms.push(Atom::make(alloc, rel, &[term(*first), term(*second)])?)?;
    }
    Ok(atoms)
}

/// The variable of this number, or a fixed constant at 0.
fn term(number: u32) -> Term {
    if number == 0 {
        Term::Fixed(0)
    } else {
        Term::Var(number)
    }
}

/// What comes of three lists.
fn made(
    alloc: Global,
    premise: &[(u32, u32)],
    exists: &[u32],
    conclusion: &[(u32, u32)],
) -> Result<Result<Dep, DepRefused>, Memory> {
    let premise = atoms(alloc, 0, premise)?;
    let conclusion = atoms(alloc, 1, conclusion)?;
    Ok(Dep::new(premise, exists.to_vec(alloc)?, conclusion))
}

/// A case of these lists.
fn make_case(
    premise: &'static [(u32, u32)],
    exists: &'static [u32],
    conclusion: &'static [(u32, u32)],
    want: Result<(), DepRefused>,
) -> Case {
    Case {
        premise,
        exists,
        conclusion,
        want,
    }
}

/// Whether what is wanted comes of the case. A dependency has the lists that it was made of.
fn comes_out(alloc: Global, case: &Case) -> Result<bool, Memory> {
    match made(alloc, case.premise, case.exists, case.conclusion)? {
        Ok(dep) => Ok(
            case.want == Ok(())
                && dep.premise().len() == case.premise.len()
                && dep.exists() == case.exists
                && dep.conclusion().len() == case.conclusion.len(),
        ),
        Err(refused) => Ok(case.want == Err(refused)),
    }
}

/// Goes over the cases.
fn compare(rt: &impl Abort, alloc: Global, cases: &[Case]) -> Result<(), Fail> {
    for case in cases {
        assert!(rt; comes_out(alloc, case)?, "at {:?}", case.conclusion);
    }
    Ok(())
}

#[test]
fn accepts(rt: HostRuntime) -> Result<(), Fail> {
    compare(
        &rt,
        rt.alloc(),
        &[
            make_case(&[(1, 1)], &[], &[(1, 1)], Ok(())),
            make_case(&[], &[1], &[(1, 0)], Ok(())),
            make_case(&[(1, 2), (0, 2)], &[4, 3], &[(1, 3), (4, 1)], Ok(())),
            make_case(&[(100, 4294967295)], &[300], &[(300, 4294967295)], Ok(())),
        ],
    )
}

#[test]
fn refuses_what_cannot_be_existential(rt: HostRuntime) -> Result<(), Fail> {
    let bad = |v: u32| Err(DepRefused::BadExists(v));
    compare(
        &rt,
        rt.alloc(),
        &[
            make_case(&[(1, 1)], &[1], &[(1, 1)], bad(1)),
            make_case(&[], &[2, 3, 2], &[(2, 3)], bad(2)),
            make_case(&[(1, 2)], &[3, 9], &[(3, 2)], bad(9)),
            make_case(&[(1, 2)], &[2, 1], &[(1, 2)], bad(2)),
            make_case(&[(1, 1)], &[9], &[(2, 3)], bad(9)),
            make_case(&[(100, 200)], &[200], &[(100, 200)], bad(200)),
            make_case(&[], &[300, 300], &[(300, 1)], bad(300)),
        ],
    )
}

#[test]
fn refuses_without_conclusion_or_unbound(rt: HostRuntime) -> Result<(), Fail> {
    let unbound = |v: u32| Err(DepRefused::Unbound(v));
    compare(
        &rt,
        rt.alloc(),
        &[
            make_case(&[(1, 2)], &[1], &[], Err(DepRefused::Empty)),
            make_case(&[(1, 1)], &[], &[(2, 2)], unbound(2)),
            make_case(&[(1, 1)], &[5], &[(1, 5), (4, 3)], unbound(4)),
            make_case(&[(100, 200)], &[], &[(100, 400)], unbound(400)),
        ],
    )
}

/// Why no dependency comes of a premise with the variables from 16,377 to 16,398, of one listed variable, and of a
/// conclusion with 16,399, 16,377, 16,398 and a last one; none where a dependency comes.
fn refusal_of_long(alloc: Global, listed: u32, last: u32) -> Result<Option<DepRefused>, Memory> {
    let mut premise = Vec::new(alloc);
    for number in 16377..16399 {
        premise.push((number, number))?;
    }
    let made = made(alloc, &premise, &[listed], &[(16399, 16377), (16398, last)])?;
    Ok(made.err())
}

#[test]
fn refuses_long_lists(rt: HostRuntime) -> Result<(), Fail> {
    for (listed, last, want) in [
        (16399, 16390, None),
        (16399, 16389, None),
        (16398, 16389, Some(DepRefused::BadExists(16398))),
        (16377, 16389, Some(DepRefused::BadExists(16377))),
        (16399, 16376, Some(DepRefused::Unbound(16376))),
        (16399, 16400, Some(DepRefused::Unbound(16400))),
    ] {
        let got = refusal_of_long(rt.alloc(), listed, last)?;
        assert!(rt; got == want, "at {listed} {last}");
    }
    Ok(())
}

/// The mapping with a dependency that is full, or has one existential variable, for each of these.
fn mapping(alloc: Global, full: &[bool]) -> Result<Mapping, Fail> {
    let mut mapping = Mapping::new(alloc);
    for is_full in full {
        let dep = if *is_full {
            made(alloc, &[(1, 2)], &[], &[(1, 2)])?
        } else {
            made(alloc, &[(1, 2)], &[3], &[(3, 2)])?
        };
        mapping.push(dep.ok().ok_or("a dependency")?)?;
    }
    Ok(mapping)
}

#[test]
fn tells_gav(rt: HostRuntime) -> Result<(), Fail> {
    let cases: [(&[bool], bool); 3] = [(&[], true), (&[true, true], true), (&[true, false], false)];
    for (full, want) in cases {
        let mapping = mapping(rt.alloc(), full)?;
        assert!(rt; mapping.is_gav() == want, "at {}", full.len());
    }
    Ok(())
}

/// Whether the dependency at the place lists these existential variables.
fn has_exists(mapping: &Mapping, place: usize, want: &[u32]) -> bool {
    match mapping.dep(place) {
        Some(dep) => dep.exists() == want,
        None => false,
    }
}

#[test]
fn copies_mappings(rt: HostRuntime) -> Result<(), Fail> {
    let copy = mapping(rt.alloc(), &[true, false, true])?.copy(rt.alloc())?;
    assert!(rt; copy.len() == 3);
    assert!(rt; has_exists(&copy, 1, &[3]));
    assert!(rt; copy.dep(3).is_none());
    Ok(())
}
