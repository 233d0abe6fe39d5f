//! Each call once with ample memory, and each refusal. A body that always wants memory would pass the check. Each
//! observation is a small function over a borrowed schema, and each test one table of them.
use crate::{DeclareRefused, Names, RelInfo, Schema};
use eir_term::{Side, Text};
use std::alloc::Global;
use std::test::Fail;

/// A declaration, with what comes of it.
type Case = (
    Side,
    &'static str,
    &'static [&'static str],
    Result<u32, DeclareRefused>,
);

/// A text of each of these words.
fn texts(alloc: Global, words: &[&str]) -> Result<Vec<Text>, Fail> {
    let mut made = Vec::new(alloc);
    for word in words {
        made.push(Text::make(alloc, word.as_bytes())?)?;
    }
    Ok(made)
}

/// So many texts, each a letter and a number, with the numbers from 0 on.
fn numbered(alloc: Global, letter: &str, count: usize) -> Result<Vec<Text>, Fail> {
    let mut made = Vec::new(alloc);
    for number in 0..count {
        let text = format!(in alloc; "{letter}{number}")?;
        made.push(Text::make(alloc, text.as_bytes())?)?;
    }
    Ok(made)
}

/// What comes of declaring a relation of this name with these columns.
fn declare(
    alloc: Global,
    schema: &mut Schema,
    side: Side,
    name: &str,
    columns: &[&str],
) -> Result<Result<u32, DeclareRefused>, Fail> {
    let name = Text::make(alloc, name.as_bytes())?;
    let columns = texts(alloc, columns)?;
    if columns.is_empty() {
        return Err(Fail::new("a relation without columns"));
    }
    Ok(schema.declare(side, &name, &columns))
}

/// What is declared for an employee's department, for where somebody works, and for rooms, with refusals between.
const CASES: [Case; 7] = [
    (Side::Source, "Emp", &["name", "dept"], Ok(0)),
    (Side::Target, "Works", &["name", "room"], Ok(1)),
    (Side::Target, "Emp", &["name"], Err(DeclareRefused::Taken)),
    (
        Side::Source,
        "Pair",
        &["a", "a"],
        Err(DeclareRefused::Taken),
    ),
    (Side::Source, "Pair", &["a", "b"], Ok(2)),
    (Side::Target, "Pair", &["c"], Err(DeclareRefused::Taken)),
    (Side::Target, "Room", &["a"], Ok(3)),
];

/// The schema of these declarations, and whether each came out as it should.
fn declared(alloc: Global, cases: &[Case]) -> Result<(Schema, bool), Fail> {
    let mut schema = Schema::new(alloc);
    let mut held = true;
    for (side, name, columns, want) in cases {
        let got = declare(alloc, &mut schema, *side, name, columns)?;
        held = held && got == *want;
    }
    Ok((schema, held))
}

#[test]
fn declares_what_is_not_taken(rt: HostRuntime) -> Result<(), Fail> {
    let (schema, held) = declared(rt.alloc(), &CASES)?;
    assert!(rt; held && schema.len() == 4);
    Ok(())
}

/// Declares 64 source relations of 16 columns. How many there are then.
fn fill(alloc: Global, schema: &mut Schema) -> Result<u32, Fail> {
    for name in &numbered(alloc, "R", 64)? {
        let columns = numbered(alloc, "c", 16)?;
        if !columns.is_empty() {
            let _ = schema.declare(Side::Source, name, &columns);
        }
    }
    Ok(schema.len())
}

/// What comes of declaring S with so many columns.
fn declare_wide(
    alloc: Global,
    schema: &mut Schema,
    side: Side,
    count: usize,
) -> Result<Result<u32, DeclareRefused>, Fail> {
    let name = Text::make(alloc, b"S")?;
    let columns = numbered(alloc, "c", count)?;
    if columns.is_empty() {
        return Err(Fail::new("a relation without columns"));
    }
    Ok(schema.declare(side, &name, &columns))
}

#[test]
fn declares_up_to_the_limits(rt: HostRuntime) -> Result<(), Fail> {
    let mut schema = Schema::new(rt.alloc());
    assert!(rt; fill(rt.alloc(), &mut schema)? == 64);
    for (side, count, want) in [
        (Side::Source, 1, Err(DeclareRefused::Full(64))),
        (Side::Source, 17, Err(DeclareRefused::Full(16))),
        (Side::Target, 17, Err(DeclareRefused::Full(16))),
        (Side::Target, 16, Ok(1)),
    ] {
        let got = declare_wide(rt.alloc(), &mut schema, side, count)?;
        assert!(rt; got == want, "at {count}");
    }
    Ok(())
}

/// Whether the relation of this name is found with this number, and the number leads back to the name.
fn is_found(schema: &Schema, name: &Text, want: Option<RelInfo>) -> bool {
    let there = match want {
        Some(info) => schema.name_of(info.number),
        None => None,
    };
    schema.find(name) == want && there.map(|name| name.bytes()) == want.map(|_| name.bytes())
}

#[test]
fn finds_by_name(rt: HostRuntime) -> Result<(), Fail> {
    let (schema, _) = declared(rt.alloc(), &CASES)?;
    for (name, want) in [
        ("Works", Some((1, Side::Target, 2))),
        ("Pair", Some((2, Side::Source, 2))),
        ("Room", Some((3, Side::Target, 1))),
        ("Emq", None),
    ] {
        let text = Text::make(rt.alloc(), name.as_bytes())?;
        let info = want.map(|(number, side, arity)| RelInfo {
            number,
            side,
            arity,
        });
        assert!(rt; is_found(&schema, &text, info), "at {name}");
    }
    Ok(())
}

/// Whether the column of a relation has this name.
fn is_column(schema: &Schema, rel: u32, place: u32, want: Option<&[u8]>) -> bool {
    schema.column(rel, place).map(|name| name.bytes()) == want
}

#[test]
fn finds_by_number(rt: HostRuntime) -> Result<(), Fail> {
    let (schema, _) = declared(rt.alloc(), &CASES)?;
    for (rel, place, want) in [
        (1, 1, Some(b"room".as_slice())),
        (1, 2, None),
        (4, 0, None),
        (3, 0, Some(b"a".as_slice())),
    ] {
        assert!(rt; is_column(&schema, rel, place, want), "at {rel} {place}");
    }
    for (place, want) in [(1, Some(1)), (3, Some(3)), (4, None)] {
        assert!(rt; schema.nth(place) == want, "at {place}");
    }
    Ok(())
}

/// Whether the schema has this stamp.
fn has_stamp(alloc: Global, schema: &Schema, want: &[u8]) -> Result<bool, Fail> {
    let stamp = schema.stamp(alloc)?;
    Ok(stamp.bytes() == want)
}

/// The schema with R(a) and T(a), the target first where it is asked.
fn two(alloc: Global, target_first: bool) -> Result<Schema, Fail> {
    let mut schema = Schema::new(alloc);
    if target_first {
        let _ = declare(alloc, &mut schema, Side::Target, "T", &["a"])?;
    }
    let _ = declare(alloc, &mut schema, Side::Source, "R", &["x"])?;
    if !target_first {
        let _ = declare(alloc, &mut schema, Side::Target, "T", &["y"])?;
    }
    Ok(schema)
}

#[test]
fn stamps_tell_schemas_apart(rt: HostRuntime) -> Result<(), Fail> {
    let alloc = rt.alloc();
    let (first, second) = (two(alloc, false)?, two(alloc, true)?);
    let empty = Schema::new(alloc);
    assert!(rt; has_stamp(alloc, &first, b"R/1;T/1")?);
    assert!(rt; has_stamp(alloc, &second, b"R/1;T/1")?);
    assert!(rt; has_stamp(alloc, &empty, b";")?);
    assert!(rt; first.same_stamp(&second) && !first.same_stamp(&empty));
    Ok(())
}

/// Whether each name gets the number that stands beside it.
fn are_numbered(names: &mut Names, cases: &[(&str, u64)]) -> bool {
    let mut held = true;
    for (name, want) in cases {
        held = held && names.number(name.as_bytes()) == Ok(*want);
    }
    held
}

#[test]
fn numbers_names_by_first_occurrence(rt: HostRuntime) -> Result<(), Fail> {
    let mut names = Names::new(rt.alloc());
    let cases = [("ann", 0), ("hr", 1), ("ann", 0), ("", 2), ("hr", 1)];
    assert!(rt; are_numbered(&mut names, &cases));
    assert!(rt; names.text(1) == Some(b"hr".as_slice()) && names.text(3).is_none());
    Ok(())
}
