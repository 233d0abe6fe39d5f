//! Worked edits, each call with ample memory, and each refusal. A body that always wants memory would pass the check. Each
//! test is a table of steps with what comes of them.
use crate::{EditRefused, Examples, Versions};
use eir_schema::Schema;
use eir_term::{Fact, Side, Text, Val};
use std::alloc::Global;
use std::test::Fail;

/// An edit of the example of a number, with a target fact of a constant, or an undo.
#[derive(Clone, Copy)]
enum Step {
    Add(usize),
    Put(usize, u64),
    Cut(usize, u64),
    Drop(usize),
    Undo,
}

/// The word of an answer.
fn word(answer: &Result<(), EditRefused>) -> &'static str {
    match answer {
        Ok(()) => "ok",
        Err(EditRefused::Taken) => "taken",
        Err(EditRefused::NoExample) => "example",
        Err(EditRefused::There) => "there",
        Err(EditRefused::Missing) => "missing",
        Err(EditRefused::Full(64)) => "full 64",
        Err(EditRefused::Full(512)) => "full 512",
        Err(EditRefused::Full(_)) => "full",
        Err(EditRefused::Nothing) => "nothing",
        Err(EditRefused::Foreign(_, _)) => "foreign",
        Err(EditRefused::Memory) => "memory",
    }
}

/// The fact of relation 0 with this constant.
fn fact(alloc: Global, number: u64) -> Result<Fact, Fail> {
    Ok(Fact::make(alloc, 0, &[Val::Const(number)])?)
}

/// The name of an example: a letter and a number.
fn named(alloc: Global, number: usize) -> Result<Text, Fail> {
    let name = format!(in alloc; "e{number}")?;
    Ok(Text::make(alloc, name.as_bytes())?)
}

/// What comes of an edit of an example.
fn edit(
    alloc: Global,
    examples: &mut Examples,
    versions: &mut Versions,
    step: Step,
) -> Result<&'static str, Fail> {
    let answer = match step {
        Step::Add(number) => examples.add(versions, &named(alloc, number)?),
        Step::Put(number, value) => {
            let name = named(alloc, number)?;
            examples.put(versions, &name, Side::Target, fact(alloc, value)?)
        }
        Step::Cut(number, value) => {
            let name = named(alloc, number)?;
            examples.cut(versions, &name, Side::Target, &fact(alloc, value)?)
        }
        Step::Drop(number) => examples.drop_one(&named(alloc, number)?),
        Step::Undo => examples.undo(),
    };
    Ok(word(&answer))
}

/// The number of target facts of the only example, if there is one alone.
fn fact_count(examples: &Examples) -> usize {
    match examples.list() {
        [only] => only.target.len(),
        _ => 0,
    }
}

#[test]
fn edits_and_undoes(rt: HostRuntime) -> Result<(), Fail> {
    let mut versions = Versions::new();
    let mut examples = Examples::new(rt.alloc());
    for (step, want, facts, undo) in [
        (Step::Add(1), "ok", 0, 1),
        (Step::Put(2, 0), "example", 0, 1),
        (Step::Put(1, 0), "ok", 1, 2),
        (Step::Put(1, 0), "there", 1, 2),
        (Step::Cut(1, 1), "missing", 1, 2),
        (Step::Cut(1, 0), "ok", 0, 3),
        (Step::Add(1), "taken", 0, 3),
        (Step::Undo, "ok", 1, 2),
        (Step::Drop(2), "example", 1, 2),
        (Step::Drop(1), "ok", 0, 3),
        (Step::Undo, "ok", 1, 2),
        (Step::Undo, "ok", 0, 1),
        (Step::Undo, "ok", 0, 0),
        (Step::Undo, "nothing", 0, 0),
    ] {
        let got = edit(rt.alloc(), &mut examples, &mut versions, step)?;
        let left = (fact_count(&examples), examples.undo_len());
        assert!(rt; got == want && left == (facts, undo), "{got}");
    }
    Ok(())
}

/// Whether these versions, from 0 on, are live, and no other.
fn are_live(examples: &Examples, live: &[bool]) -> Result<bool, Fail> {
    let mut held = true;
    let mut count = 0;
    for (version, want) in (0..64u64).zip(live.iter()) {
        held = held && examples.live(version) == *want;
        count = if *want && count < 64 {
            count + 1
        } else {
            count
        };
    }
    let versions = examples.versions()?;
    Ok(held && versions.len() == count)
}

#[test]
fn tells_live_versions(rt: HostRuntime) -> Result<(), Fail> {
    let mut versions = Versions::new();
    let mut examples = Examples::new(rt.alloc());
    for step in [Step::Add(1), Step::Put(1, 0), Step::Cut(1, 0), Step::Undo] {
        let got = edit(rt.alloc(), &mut examples, &mut versions, step)?;
        assert!(rt; got == "ok");
    }
    assert!(rt; are_live(&examples, &[true, true, false, false])?);
    Ok(())
}

/// Adds so many examples. How many were added.
fn add_all(
    alloc: Global,
    examples: &mut Examples,
    versions: &mut Versions,
    count: usize,
) -> Result<usize, Fail> {
    for number in 0..count {
        let _ = edit(alloc, examples, versions, Step::Add(number))?;
    }
    Ok(examples.list().len())
}

/// Undoes so many times. The last answer.
fn undo_all(examples: &mut Examples, count: usize) -> &'static str {
    let mut last = "ok";
    for _ in 0..count {
        last = word(&examples.undo());
    }
    last
}

#[test]
fn keeps_to_the_limit_of_examples(rt: HostRuntime) -> Result<(), Fail> {
    let mut versions = Versions::new();
    let mut examples = Examples::new(rt.alloc());
    assert!(rt; add_all(rt.alloc(), &mut examples, &mut versions, 65)? == 64);
    let got = edit(rt.alloc(), &mut examples, &mut versions, Step::Add(64))?;
    assert!(rt; got == "full 64" && examples.undo_len() == 32);
    assert!(rt; undo_all(&mut examples, 32) == "ok" && examples.list().len() == 32);
    assert!(rt; undo_all(&mut examples, 1) == "nothing");
    Ok(())
}

/// Puts so many facts into the example of number 0.
fn put_all(
    alloc: Global,
    examples: &mut Examples,
    versions: &mut Versions,
    count: u64,
) -> Result<(), Fail> {
    for number in 0..count {
        let _ = edit(alloc, examples, versions, Step::Put(0, number))?;
    }
    Ok(())
}

#[test]
fn keeps_to_the_limit_of_facts(rt: HostRuntime) -> Result<(), Fail> {
    let mut versions = Versions::new();
    let mut examples = Examples::new(rt.alloc());
    let _ = edit(rt.alloc(), &mut examples, &mut versions, Step::Add(0))?;
    put_all(rt.alloc(), &mut examples, &mut versions, 512)?;
    assert!(rt; fact_count(&examples) == 512);
    for (value, want) in [(512, "full 512"), (511, "there")] {
        let got = edit(
            rt.alloc(),
            &mut examples,
            &mut versions,
            Step::Put(0, value),
        )?;
        assert!(rt; got == want, "{got}");
    }
    Ok(())
}

/// Settles the examples. The answer is whether the only one has as many target facts as before, and its version is live.
fn settles(examples: &mut Examples, facts: usize, version: u64) -> Result<bool, Fail> {
    examples.settle()?;
    Ok(fact_count(examples) == facts && examples.live(version))
}

#[test]
fn settles_between_edits(rt: HostRuntime) -> Result<(), Fail> {
    let mut versions = Versions::new();
    let mut examples = Examples::new(rt.alloc());
    for (step, facts, version) in [
        (Step::Add(1), 0, 0),
        (Step::Put(1, 0), 1, 1),
        (Step::Put(1, 1), 2, 2),
        (Step::Cut(1, 0), 1, 3),
        (Step::Put(1, 0), 2, 4),
        (Step::Undo, 1, 3),
        (Step::Undo, 2, 2),
    ] {
        let got = edit(rt.alloc(), &mut examples, &mut versions, step)?;
        assert!(rt; got == "ok");
        assert!(rt; settles(&mut examples, facts, version)?, "{facts} facts");
    }
    Ok(())
}

/// The schema with relations of one column: R of the source and T of the target, the target first where it is asked.
fn schema_of(alloc: Global, target_first: bool) -> Result<Schema, Fail> {
    let mut schema = Schema::new(alloc);
    let column = [Text::make(alloc, b"a")?];
    if target_first {
        schema.declare(Side::Target, &Text::make(alloc, b"T")?, &column)?;
    }
    schema.declare(Side::Source, &Text::make(alloc, b"R")?, &column)?;
    if !target_first {
        schema.declare(Side::Target, &Text::make(alloc, b"T")?, &column)?;
    }
    Ok(schema)
}

/// The schema with the one relation S of the source.
fn other_schema(alloc: Global) -> Result<Schema, Fail> {
    let mut schema = Schema::new(alloc);
    let column = [Text::make(alloc, b"a")?];
    schema.declare(Side::Source, &Text::make(alloc, b"S")?, &column)?;
    Ok(schema)
}

/// What comes of borrowing the example of a number.
fn borrow(
    alloc: Global,
    taker: &mut Examples,
    lender: &Examples,
    mine: &Schema,
    theirs: &Schema,
    number: usize,
) -> Result<Result<(), EditRefused>, Fail> {
    let name = named(alloc, number)?;
    Ok(taker.copy_from(&name, lender, mine, theirs))
}

/// Whether the answer tells these stamps.
fn tells_stamps(answer: &Result<(), EditRefused>, mine: &[u8], theirs: &[u8]) -> bool {
    match answer {
        Err(EditRefused::Foreign(a, b)) => a.bytes() == mine && b.bytes() == theirs,
        _ => false,
    }
}

#[test]
fn copies_between_equal_schemas(rt: HostRuntime) -> Result<(), Fail> {
    let alloc = rt.alloc();
    let mut versions = Versions::new();
    let mut lender = Examples::new(alloc);
    for step in [Step::Add(1), Step::Put(1, 0)] {
        let _ = edit(alloc, &mut lender, &mut versions, step)?;
    }
    let (theirs, equal) = (schema_of(alloc, false)?, schema_of(alloc, true)?);
    let other = other_schema(alloc)?;
    let mut taker = Examples::new(alloc);
    let foreign = borrow(alloc, &mut taker, &lender, &other, &theirs, 1)?;
    assert!(rt; tells_stamps(&foreign, b"S/1;", b"R/1;T/1"));
    for (number, want) in [(2, "example"), (1, "ok"), (1, "taken")] {
        let answer = borrow(alloc, &mut taker, &lender, &equal, &theirs, number)?;
        assert!(rt; word(&answer) == want, "at {number}");
    }
    assert!(rt; fact_count(&taker) == 1 && taker.live(1));
    Ok(())
}
