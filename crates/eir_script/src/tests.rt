use super::*;
use eir_schema::Names;
use eir_term::{Kind, Memory, Side, Text, Val};
use itoa::Buffer;
use std::alloc::Global;
use std::test::Fail;

/// Appends a space and these bytes.
fn add(text: &mut Text, part: &[u8]) -> Result<(), Memory> {
    text.push_all(b" ")?;
    text.push_all(part)
}

fn add_two(text: &mut Text, word: &[u8], part: &Text) -> Result<(), Memory> {
    add(text, word)?;
    add(text, part.bytes())
}

fn add_three(text: &mut Text, word: &[u8], part: &Text, other: &Text) -> Result<(), Memory> {
    add_two(text, word, part)?;
    add(text, other.bytes())
}

fn add_number(text: &mut Text, number: u64) -> Result<(), Memory> {
    let mut digits = Buffer::new();
    text.push_all(digits.format(number).as_bytes())
}

/// Appends columns, and values by their numbers.
fn add_columns(text: &mut Text, columns: &Columns) -> Result<(), Memory> {
    for column in columns.as_slice() {
        text.push_all(b",")?;
        text.push_all(column.bytes())?;
    }
    Ok(())
}

fn add_value(text: &mut Text, value: Val) -> Result<(), Memory> {
    match value {
        Val::Const(number) => {
            text.push_all(b",")?;
            add_number(text, number)
        }
        Val::Fixed(number) => {
            text.push_all(b",=")?;
            add_number(text, number)
        }
        Val::Null(number) => {
            text.push_all(b",?")?;
            add_number(text, number)
        }
    }
}

fn add_fact(text: &mut Text, fact: &RawFact) -> Result<(), Memory> {
    add(text, fact.relation.bytes())?;
    for value in fact.args.as_slice() {
        add_value(text, *value)?;
    }
    Ok(())
}

/// Appends a command, each part with a space in front.
fn show(text: &mut Text, command: &Command) -> Result<(), Memory> {
    match command {
        Command::Blank => add(text, b"blank"),
        Command::Declare(side, relation, columns) => {
            match side {
                Side::Source => add_two(text, b"source", relation)?,
                Side::Target => add_two(text, b"target", relation)?,
            }
            add_columns(text, columns)
        }
        Command::New(example) => add_two(text, b"new", example),
        Command::Put(example, fact) => {
            add_two(text, b"put", example)?;
            add_fact(text, fact)
        }
        Command::Cut(example, fact) => {
            add_two(text, b"cut", example)?;
            add_fact(text, fact)
        }
        Command::Drop(example) => add_two(text, b"drop", example),
        Command::Take(designer, example) => add_three(text, b"take", designer, example),
        Command::Budget(tries) => {
            text.push_all(b" budget ")?;
            add_number(text, *tries)
        }
        Command::Chase(example) => add_two(text, b"chase", example),
        Command::Cert(file) => add_two(text, b"cert", file),
        Command::Table(relation, file) => add_three(text, b"table", relation, file),
        _ => show_alone(text, command),
    }
}

fn show_alone(text: &mut Text, command: &Command) -> Result<(), Memory> {
    match command {
        Command::Undo => add(text, b"undo"),
        Command::Kind(Kind::Glav) => text.push_all(b" kind glav"),
        Command::Kind(Kind::Gav) => text.push_all(b" kind gav"),
        Command::Fit => add(text, b"fit"),
        Command::Tries => add(text, b"tries"),
        Command::Reduce => add(text, b"reduce"),
        Command::Exchange => add(text, b"exchange"),
        _ => add(text, b"another"),
    }
}

/// What a line is read as, with an empty table of names.
fn read(alloc: Global, line: &[u8]) -> Result<Text, Memory> {
    let mut names = Names::new(alloc);
    let mut text = Text::make(alloc, b"")?;
    match read_line(alloc, line, &mut names) {
        Ok(command) => show(&mut text, &command)?,
        Err(LineRefused::Bad) => add(&mut text, b"bad")?,
        Err(LineRefused::Memory) => return Err(Memory),
    }
    Ok(text)
}

/// Lines of every form, each with what it is read as.
const FORMS: &str = "\
source Emp(name,dept)|source Emp,name,dept\n\
target R(a)|target R,a\n\
new e1|new e1\n\
put e1 R(a,?b,a)|put e1 R,0,?1,0\n\
cut e1 R(?b,b)|cut e1 R,?0,0\n\
drop e1|drop e1\n\
undo|undo\n\
take ann e1|take ann e1\n\
kind glav|kind glav\n\
kind gav|kind gav\n\
budget 1|budget 1\n\
budget 1000000000000|budget 1000000000000\n\
fit|fit\n\
tries|tries\n\
reduce|reduce\n\
chase e1|chase e1\n\
cert out.txt|cert out.txt\n\
table R r.csv|table R r.csv\n\
exchange|exchange\n\
\tput\te1 R\t( a ,\t?b )  |put e1 R,0,?1\n\
source fit(put)|source fit,put\n\
new a.|new a.\n\
new n..|new n..\n\
new 0_|new 0_\n";

/// Lines that are blank.
const BLANK: &str = " \t \n#put e R(a\n\t # \0é\n\n";

/// Lines that are bad: words, numbers and ends of lines.
const BAD_WORDS: &str = "\
\tput\te1 R\t( a ,\t? b )  \n\
put e1R(a)\n\
new .a\n\
? x\n\
?x\n\
new ?x\n\
fit\r\n\
fit fit\n\
fit #\n\
Fit\n\
fits\n\
fi\n\
new\n\
new e 1\n\
new é\n\
new e\0\n\
new e\u{7f}\n\
take ann\n\
take ann e1 e2\n\
kind\n\
kind GAV\n\
budget 0\n\
budget 01\n\
budget +1\n\
budget 1.\n\
budget 1000000000001\n\
budget 18446744073709551617\n\
source R\n\
source R()\n\
source R(a)x\n\
source R(a))\n\
source R((a)\n\
source R(a,)\n";

/// Lines that are bad: brackets, commas and arguments.
const BAD_ATOMS: &str = "\
source R(a b)\n\
source R(?a)\n\
source (a)\n\
put e1 R(a\n\
put e1 R(a,\n\
put e1 R(?.x)\n\
put e1 R(??a)\n\
put R(a)\n\
put e1 R(a) & R(b)\n\
put e1 -> R(a)\n";

/// Whether a line is read so.
fn is_read_as(alloc: Global, line: &str, wanted: &str) -> Result<bool, Memory> {
    let text = read(alloc, line.as_bytes())?;
    Ok(text.bytes().split_first().map(|(_, rest)| rest) == Some(wanted.as_bytes()))
}

/// The first of these lines that is not read as what stands behind its bar.
fn first_misread<'a>(alloc: Global, rows: &'a str) -> Result<Option<&'a str>, Memory> {
    for row in rows.lines() {
        if let Some((line, wanted)) = row.split_once('|')
            && !is_read_as(alloc, line, wanted)?
        {
            return Ok(Some(row));
        }
    }
    Ok(None)
}

/// The first of these lines that is not read so.
fn first_not<'a>(alloc: Global, lines: &'a str, wanted: &str) -> Result<Option<&'a str>, Memory> {
    for line in lines.split_terminator('\n') {
        if !is_read_as(alloc, line, wanted)? {
            return Ok(Some(line));
        }
    }
    Ok(None)
}

#[test]
fn reads_each_form(rt: HostRuntime) -> Result<(), Fail> {
    let misread = first_misread(rt.alloc(), FORMS)?;
    assert!(rt; misread.is_none(), "{misread:?}");
    Ok(())
}

#[test]
fn reads_blank_lines(rt: HostRuntime) -> Result<(), Fail> {
    let misread = first_not(rt.alloc(), BLANK, "blank")?;
    assert!(rt; misread.is_none(), "{misread:?}");
    Ok(())
}

#[test]
fn refuses_bad_words(rt: HostRuntime) -> Result<(), Fail> {
    let misread = first_not(rt.alloc(), BAD_WORDS, "bad")?;
    assert!(rt; misread.is_none(), "{misread:?}");
    Ok(())
}

#[test]
fn refuses_bad_atoms(rt: HostRuntime) -> Result<(), Fail> {
    let misread = first_not(rt.alloc(), BAD_ATOMS, "bad")?;
    assert!(rt; misread.is_none(), "{misread:?}");
    Ok(())
}

/// What two lines are read as, one after the other, over these names.
fn read_two(
    alloc: Global,
    first: &str,
    second: &str,
    names: &mut Names,
) -> Result<Text, LineRefused> {
    let mut text = Text::make(alloc, b"")?;
    for line in [first, second] {
        let command = read_line(alloc, line.as_bytes(), names)?;
        show(&mut text, &command)?;
    }
    Ok(text)
}

#[test]
fn numbers_names(rt: HostRuntime) -> Result<(), Fail> {
    let mut names = Names::new(rt.alloc());
    names.number(b"b")?;
    let text = read_two(
        rt.alloc(),
        "put e1 R(a,?b,a,?c)",
        "cut a S(d,R,b)",
        &mut names,
    )?;
    assert!(rt; text.bytes() == b" put e1 R,1,?0,1,?2 cut a S,3,4,0".as_slice());
    assert!(rt; read_line(rt.alloc(), b"put e1 R(x,y", &mut names).is_err());
    assert!(rt; names.text(4) == Some(b"R".as_slice()) && names.text(5).is_none());
    Ok(())
}

/// A line of these bytes, and behind them one byte so many times.
fn filled(alloc: Global, front: &[u8], byte: u8, count: usize) -> Result<Vec<u8>, Memory> {
    let mut line = Vec::from_slice(alloc, front)?;
    for _ in 0..count {
        line.push(byte)?;
    }
    Ok(line)
}

/// Whether the line is in the grammar.
fn is_good(alloc: Global, line: &[u8]) -> bool {
    let mut names = Names::new(alloc);
    read_line(alloc, line, &mut names).is_ok()
}

#[test]
fn keeps_to_the_lengths(rt: HostRuntime) -> Result<(), Fail> {
    for (front, byte, count, want) in [
        (b"new ".as_slice(), b'w', 64, true),
        (b"new ", b'w', 65, false),
        (b"", b' ', 4_096, true),
        (b"", b' ', 4_097, false),
        (b"#", b'#', 4_095, true),
        (b"#", b'#', 4_096, false),
        (b"fit", b' ', 4_093, true),
        (b"fit", b' ', 4_094, false),
    ] {
        let line = filled(rt.alloc(), front, byte, count)?;
        assert!(rt; is_good(rt.alloc(), &line) == want, "{count}");
    }
    Ok(())
}

/// The lines of an input that comes in pieces of so many bytes, each in brackets.
fn cut_in_pieces(alloc: Global, input: &[u8], piece: usize) -> Result<Text, Memory> {
    let mut cutter = Cutter::new(alloc)?;
    let mut text = Text::make(alloc, b"")?;
    'parts: for part in input.chunks(piece.max(1)) {
        let mut rest = part;
        'rest: for _ in 0..=part.len() {
            let fed = cutter.feed(rest);
            rest = &rest[fed.taken..];
            if !fed.line {
                break;
            }
            add_line(&mut text, &cutter)?;
            cutter.next();
        }
    }
    if !cutter.empty() {
        add_line(&mut text, &cutter)?;
    }
    Ok(text)
}

fn add_line(text: &mut Text, cutter: &Cutter) -> Result<(), Memory> {
    text.push_all(b"[")?;
    match cutter.line() {
        LineBytes::Bytes(line) => text.push_all(line)?,
        LineBytes::Long => text.push_all(b"long")?,
    }
    text.push_all(b"]")
}

/// The first of these inputs, each with its lines in brackets, that is cut otherwise in pieces of so many bytes.
fn first_miscut(alloc: Global, piece: usize) -> Result<Option<&'static str>, Memory> {
    for (input, wanted) in CUTS {
        let text = cut_in_pieces(alloc, input.as_bytes(), piece)?;
        if text.bytes() != wanted.as_bytes() {
            return Ok(Some(input));
        }
    }
    Ok(None)
}

/// Inputs, each with its lines in brackets.
const CUTS: [(&str, &str); 8] = [
    ("", ""),
    ("fit", "[fit]"),
    ("fit\n", "[fit]"),
    ("\n", "[]"),
    ("\r", "[]"),
    ("fit\r\n# x\n\nundo", "[fit][# x][][undo]"),
    ("fit\r\r\n\r\r\n\rfit\n", "[fit\r][\r][\rfit]"),
    ("fit\n\r\nundo\r", "[fit][][undo]"),
];

#[test]
fn cuts_pieces_alike(rt: HostRuntime) -> Result<(), Fail> {
    for piece in [1, 2, 7, 4_096] {
        let miscut = first_miscut(rt.alloc(), piece)?;
        assert!(rt; miscut.is_none(), "{miscut:?} by {piece}");
    }
    Ok(())
}

/// How many bytes come of so many letters with this end, cut in pieces: two brackets, and the line or `long`.
fn length_cut(alloc: Global, count: usize, end: &[u8], piece: usize) -> Result<usize, Memory> {
    let mut input = filled(alloc, b"", b'a', count)?;
    input.extend_from_slice(end)?;
    let text = cut_in_pieces(alloc, &input, piece)?;
    Ok(text.bytes().len())
}

#[test]
fn tells_long_lines(rt: HostRuntime) -> Result<(), Fail> {
    for (count, end, want) in [
        (4_096, b"".as_slice(), 4_098),
        (4_096, b"\r\n", 4_098),
        (4_096, b"\r", 4_098),
        (4_096, b"\r\r\n", 6),
        (4_097, b"\n", 6),
        (9_000, b"\r\n", 6),
    ] {
        let got = length_cut(rt.alloc(), count, end, 7)?;
        assert!(rt; got == want, "{count}");
    }
    Ok(())
}
