//! Each call once with ample memory, and the refusals; and an instance with facts that are gone and added against the
//! same facts put in afresh. A body that always wants memory would pass the check.
use crate::{Indexed, InsertRefused, Instance, Missing};
use eir_term::{Fact, Memory, Val};
use std::alloc::Global;
use std::test::Fail;

/// Two relations of the examples.
const P: u32 = 1;

const Q: u32 = 2;

/// The fact of one column with this constant.
fn fact(alloc: Global, rel: u32, n: u64) -> Result<Fact, Memory> {
    Fact::make(alloc, rel, &[Val::Const(n)])
}

/// Puts in the facts of the relation with the constants from `from` up to `to`.
fn put_all(
    alloc: Global,
    instance: &mut Instance,
    rel: u32,
    from: u64,
    to: u64,
) -> Result<(), Fail> {
    for n in from..to {
        instance.insert(fact(alloc, rel, n)?)?;
    }
    Ok(())
}

/// The facts P(b1), P(b2), P(b3), Q(b3), Q(b4), Q(b5).
fn example(alloc: Global) -> Result<Instance, Fail> {
    let mut instance = Instance::new(alloc, 8);
    put_all(alloc, &mut instance, P, 1, 4)?;
    put_all(alloc, &mut instance, Q, 3, 6)?;
    Ok(instance)
}

/// Takes the fact of P with the constant out.
fn take(alloc: Global, instance: &mut Instance, n: u64) -> Result<(), Fail> {
    instance.remove(&fact(alloc, P, n)?)?;
    Ok(())
}

/// A copy of the facts P(b9), P(b1), P(b2), P(b3).
fn shared(alloc: Global) -> Result<Instance, Fail> {
    let mut first = Instance::new(alloc, 8);
    put_all(alloc, &mut first, P, 9, 10)?;
    put_all(alloc, &mut first, P, 1, 4)?;
    Ok(first.copy()?)
}

/// The facts of the example by way of a copy: P(b9) is gone from what is shared, and the facts of Q were added beside
/// it.
fn changed(alloc: Global) -> Result<Instance, Fail> {
    let mut instance = shared(alloc)?;
    take(alloc, &mut instance, 9)?;
    put_all(alloc, &mut instance, Q, 3, 6)?;
    Ok(instance)
}

/// The facts P(x, y) of these three pairs of values.
fn three(
    alloc: Global,
    first: [Val; 2],
    second: [Val; 2],
    third: [Val; 2],
) -> Result<Instance, Fail> {
    let mut instance = Instance::new(alloc, 4);
    instance.insert(Fact::make(alloc, P, &first)?)?;
    instance.insert(Fact::make(alloc, P, &second)?)?;
    instance.insert(Fact::make(alloc, P, &third)?)?;
    Ok(instance)
}

/// What comes of putting in the fact of one column, and the number of facts then.
fn put_in(
    alloc: Global,
    instance: &mut Instance,
    rel: u32,
    val: Val,
) -> Result<(Result<(), InsertRefused>, usize), Memory> {
    let fact = Fact::make(alloc, rel, &[val])?;
    let got = instance.insert(fact);
    Ok((got, instance.len()))
}

#[test]
fn inserts_up_to_the_limit(rt: HostRuntime) -> Result<(), Fail> {
    let mut instance = Instance::new(rt.alloc(), 2);
    let cases = [
        (P, Val::Const(1), Ok(()), 1),
        (P, Val::Const(1), Err(InsertRefused::There), 1),
        (P, Val::Null(1), Ok(()), 2),
        (P, Val::Const(1), Err(InsertRefused::There), 2),
        (Q, Val::Const(1), Err(InsertRefused::Full(2)), 2),
    ];
    for (rel, val, want, len) in cases {
        let got = put_in(rt.alloc(), &mut instance, rel, val)?;
        assert!(rt; got == (want, len), "at {rel} {val:?}");
    }
    Ok(())
}

/// Whether the fact at the place has this constant alone.
fn has_at(instance: &Instance, place: usize, n: u64) -> bool {
    match instance.fact(place) {
        Some(fact) => instance.contains(fact) && fact.args.as_slice() == [Val::Const(n)].as_slice(),
        None => false,
    }
}

/// Whether the facts are those of the example, in their order.
fn is_example(instance: &Instance) -> bool {
    instance.len() == 6
        && has_at(instance, 0, 1)
        && has_at(instance, 1, 2)
        && has_at(instance, 2, 3)
        && has_at(instance, 3, 3)
        && has_at(instance, 4, 4)
        && has_at(instance, 5, 5)
        && instance.fact(6).is_none()
}

#[test]
fn has_what_was_put_in(rt: HostRuntime) -> Result<(), Fail> {
    assert!(rt; is_example(&example(rt.alloc())?));
    Ok(())
}

#[test]
fn has_what_stays_and_what_was_added(rt: HostRuntime) -> Result<(), Fail> {
    let instance = changed(rt.alloc())?;
    assert!(rt; is_example(&instance));
    assert!(rt; !instance.contains(&fact(rt.alloc(), P, 9)?));
    Ok(())
}

/// Whether there are so many facts of the relation, the last of them with this constant.
fn is_relation(instance: &Instance, rel: u32, count: usize, last: u64) -> bool {
    let Some(before) = instance.count_of(rel).checked_sub(1) else {
        return count == 0;
    };
    let Some(fact) = instance.nth_of(rel, before) else {
        return false;
    };
    before + 1 == count
        && fact.args.as_slice() == [Val::Const(last)].as_slice()
        && instance.nth_of(rel, count).is_none()
}

/// Whether the relations of the example are found.
fn has_relations(instance: &Instance) -> bool {
    is_relation(instance, P, 3, 3)
        && is_relation(instance, Q, 3, 5)
        && is_relation(instance, 3, 0, 0)
}

#[test]
fn finds_by_relation(rt: HostRuntime) -> Result<(), Fail> {
    assert!(rt; has_relations(&example(rt.alloc())?));
    assert!(rt; has_relations(&changed(rt.alloc())?));
    Ok(())
}

/// Whether there are so many facts with the constant at the column, each of its relation.
fn has_with(instance: &Instance, rel: u32, column: u32, n: u64, count: usize) -> bool {
    let val = Val::Const(n);
    let last = match count.checked_sub(1) {
        Some(last) => instance.nth_with(rel, column, val, last),
        None => None,
    };
    instance.with_count(rel, column, val) == count
        && instance.nth_with(rel, column, val, count).is_none()
        && last.is_some_and(|fact| fact.rel == rel) == (count > 0)
}

/// Whether the columns of the example are found.
fn has_columns(instance: &Instance) -> bool {
    has_with(instance, P, 0, 3, 1)
        && has_with(instance, Q, 0, 3, 1)
        && has_with(instance, Q, 1, 3, 0)
        && has_with(instance, P, 0, 9, 0)
        && has_with(instance, 3, 0, 3, 0)
}

/// Whether the values of the example are there, and no others.
fn has_values(instance: &Instance) -> bool {
    instance.has_value(Val::Const(1))
        && instance.has_value(Val::Const(5))
        && !instance.has_value(Val::Const(9))
        && !instance.has_value(Val::Null(1))
}

#[test]
fn tells_which_values_occur(rt: HostRuntime) -> Result<(), Fail> {
    let settled = example(rt.alloc())?.settled()?;
    assert!(rt; has_values(&settled));
    assert!(rt; has_values(&changed(rt.alloc())?));
    Ok(())
}

#[test]
fn finds_by_column(rt: HostRuntime) -> Result<(), Fail> {
    assert!(rt; has_columns(&example(rt.alloc())?));
    assert!(rt; has_columns(&changed(rt.alloc())?));
    Ok(())
}

/// Whether the constant has this profile.
fn is_at(instance: &Instance, n: u64, want: &[(u32, u32)]) -> Result<bool, Fail> {
    let profile = instance.column_profile(Val::Const(n))?;
    Ok(profile.marks() == want)
}

/// Whether constants of the example have their profiles.
fn has_profiles(instance: &Instance) -> Result<bool, Fail> {
    Ok(
        is_at(instance, 1, &[(P, 0)])?
            && is_at(instance, 3, &[(P, 0), (Q, 0)])?
            && is_at(instance, 9, &[])?,
    )
}

#[test]
fn tells_profiles(rt: HostRuntime) -> Result<(), Fail> {
    assert!(rt; has_profiles(&example(rt.alloc())?)?);
    assert!(rt; has_profiles(&changed(rt.alloc())?)?);
    Ok(())
}

/// Whether the profile of the one constant is within that of the other.
fn is_within(instance: &Instance, n: u64, other: u64) -> Result<bool, Fail> {
    let from = instance.column_profile(Val::Const(n))?;
    let to = instance.column_profile(Val::Const(other))?;
    Ok(from.within(&to))
}

#[test]
fn compares_profiles(rt: HostRuntime) -> Result<(), Fail> {
    let instance = example(rt.alloc())?;
    for (from, to, want) in [
        (1, 3, true),
        (4, 3, true),
        (6, 1, true),
        (3, 1, false),
        (1, 4, false),
    ] {
        let got = is_within(&instance, from, to)?;
        assert!(rt; got == want, "from {from} to {to}");
    }
    Ok(())
}

/// Whether the value has this number and this profile.
fn is_numbered(facts: &Indexed, number: usize, val: Val, marks: &[(u32, u32)]) -> bool {
    match facts.profiles().get(number) {
        Some(profile) => {
            facts.values().get(number) == Some(&val)
                && facts.number_of(val) == Some(number)
                && profile.marks() == marks
        }
        None => false,
    }
}

/// Whether the fact at the place has values of these numbers.
fn has_numbers(facts: &Indexed, place: usize, want: &[usize]) -> bool {
    place < facts.len() && facts.numbers_at(place) == want
}

#[test]
fn numbers_values_by_first_occurrence(rt: HostRuntime) -> Result<(), Fail> {
    let (a, b, n) = (Val::Const(7), Val::Fixed(7), Val::Null(7));
    let facts = three(rt.alloc(), [b, b], [a, n], [n, a])?.indexed()?;
    for (number, val) in [(0, b), (1, a), (2, n)] {
        assert!(rt;
            is_numbered(&facts, number, val, &[(P, 0), (P, 1)]),
            "at {number}"
        );
    }
    assert!(rt; has_numbers(&facts, 1, &[1, 2]));
    Ok(())
}

/// Whether the facts of the example are listed by relation, column and value.
fn lists_columns(facts: &Indexed) -> bool {
    let val = Val::Const(3);
    facts.places_with(P, 0, val) == [2].as_slice()
        && facts.places_with(Q, 0, val) == [3].as_slice()
        && facts.places_with(Q, 1, val).is_empty()
        && facts.places_with(Q, usize::MAX, val).is_empty()
}

/// Whether the relations of the example are listed, and its columns.
fn lists_relations(facts: &Indexed) -> bool {
    facts.places_of(P) == [0, 1, 2].as_slice()
        && facts.places_of(Q) == [3, 4, 5].as_slice()
        && facts.count_of(Q) == 3
        && facts.as_slice().len() == 6
        && lists_columns(facts)
}

#[test]
fn indexes_what_stays_and_what_was_added(rt: HostRuntime) -> Result<(), Fail> {
    assert!(rt; lists_relations(&*example(rt.alloc())?.indexed()?));
    assert!(rt; lists_relations(&*changed(rt.alloc())?.indexed()?));
    Ok(())
}

/// Whether the instance and its settled form are the example.
fn settles(instance: &Instance) -> Result<bool, Fail> {
    let settled = instance.settled()?;
    Ok(is_example(&settled) && has_relations(&settled) && has_columns(&settled))
}

#[test]
fn settles_to_equal_instances(rt: HostRuntime) -> Result<(), Fail> {
    assert!(rt; settles(&example(rt.alloc())?)?);
    assert!(rt; settles(&changed(rt.alloc())?)?);
    assert!(rt; settles(&changed(rt.alloc())?.settled()?)?);
    Ok(())
}

#[test]
fn keeps_the_ground_facts(rt: HostRuntime) -> Result<(), Fail> {
    let (a, b, n) = (Val::Const(1), Val::Fixed(1), Val::Null(1));
    let instance = three(rt.alloc(), [a, n], [a, b], [b, a])?;
    let part = instance.ground_part()?;
    assert!(rt; part.len() == 2 && has_numbers(&*part.indexed()?, 1, &[1, 0]));
    Ok(())
}

#[test]
fn keeps_all_where_all_are_ground(rt: HostRuntime) -> Result<(), Fail> {
    assert!(rt; is_example(&changed(rt.alloc())?.ground_part()?));
    Ok(())
}

/// A copy of a copy that has, in place of P(b1), the facts of P with so many constants from 10 on.
fn grown(alloc: Global, from: &Instance, count: u32) -> Result<Instance, Fail> {
    let mut copy = from.copy()?;
    take(alloc, &mut copy, 1)?;
    put_all(alloc, &mut copy, P, 10, 10 + count as u64)?;
    Ok(copy.copy()?)
}

/// Whether the facts are P(b1), P(b2).
fn is_small(instance: &Instance) -> bool {
    instance.len() == 2 && has_at(instance, 0, 1) && has_at(instance, 1, 2)
}

/// Whether the facts are P(b2) and those of so many constants from 10 on.
fn is_grown(instance: &Instance, count: u32) -> bool {
    instance.len() as u64 == count as u64 + 1
        && has_at(instance, 0, 2)
        && has_at(instance, 1, 10)
        && has_at(instance, instance.len() - 1, 9 + count as u64)
}

/// Whether a copy that differs by so many facts has them, and leaves the original as it was.
fn differs_by(alloc: Global, count: u32) -> Result<bool, Fail> {
    let mut first = Instance::new(alloc, 512);
    put_all(alloc, &mut first, P, 1, 3)?;
    let copy = grown(alloc, &first, count)?;
    Ok(is_small(&first) && is_grown(&copy, count))
}

#[test]
fn copies_differ_by_few_facts_or_many(rt: HostRuntime) -> Result<(), Fail> {
    for count in [3, 63, 64, 90] {
        assert!(rt; differs_by(rt.alloc(), count)?, "by {count}");
    }
    Ok(())
}

/// Puts P(b8) in place of P(b2).
fn exchange(alloc: Global, instance: &mut Instance) -> Result<(), Fail> {
    take(alloc, instance, 2)?;
    put_all(alloc, instance, P, 8, 9)
}

/// Whether a copy stays as it was while the original is changed.
fn copy_stays(alloc: Global) -> Result<bool, Fail> {
    let mut instance = example(alloc)?;
    let copy = instance.copy()?;
    exchange(alloc, &mut instance)?;
    Ok(is_example(&copy) && !is_example(&instance))
}

#[test]
fn copies_stay_as_they_are(rt: HostRuntime) -> Result<(), Fail> {
    assert!(rt; copy_stays(rt.alloc())?);
    Ok(())
}

/// Takes the fact of P with the constant out, twice; only the first time it is there.
fn take_out(alloc: Global, instance: &mut Instance, n: u64) -> Result<bool, Fail> {
    let fact = fact(alloc, P, n)?;
    let first = instance.remove(&fact);
    let second = instance.remove(&fact);
    Ok(first == Ok(()) && second == Err(Missing))
}

/// Takes P(b1) out and puts it in again. The answer is whether it then stands last.
fn stands_last(alloc: Global, instance: &mut Instance) -> Result<bool, Fail> {
    let taken = take_out(alloc, instance, 1)?;
    put_all(alloc, instance, P, 1, 2)?;
    Ok(taken && has_at(instance, 5, 1) && has_at(instance, 0, 2) && instance.len() == 6)
}

/// Whether it does so twice.
fn stands_last_twice(alloc: Global, instance: Instance) -> Result<bool, Fail> {
    let mut instance = instance;
    let first = stands_last(alloc, &mut instance)?;
    Ok(first && stands_last(alloc, &mut instance)?)
}

#[test]
fn puts_a_fact_in_again_behind_the_others(rt: HostRuntime) -> Result<(), Fail> {
    assert!(rt; stands_last_twice(rt.alloc(), example(rt.alloc())?)?);
    assert!(rt; stands_last_twice(rt.alloc(), changed(rt.alloc())?)?);
    Ok(())
}

/// Whether the instance, to which a fact with this value at its last column was refused, has as many facts as before.
fn is_as_before(instance: &Instance, len: usize, val: Val) -> bool {
    instance.len() == len && instance.count_of(P) == len && instance.with_count(P, 4, val) == 0
}

/// Where some allocation fails, as the check lets each in turn, the instance stays as it was.
#[test]
fn stays_where_memory_is_refused(rt: HostRuntime) -> Result<(), Fail> {
    let alloc = rt.alloc();
    let mut instance = Instance::new(alloc, 64);
    for n in 0..24 {
        let (v, w) = (Val::Const(n), Val::Const(n / 2));
        let fact = Fact::make(alloc, P, &[v, w, v, w, v])?;
        let len = instance.len();
        if instance.insert(fact) == Err(InsertRefused::Memory) {
            assert!(rt; is_as_before(&instance, len, v));
        }
    }
    Ok(())
}
