//! What no contract of `run` can say: that memory is there, the printed texts by examples worked out by hand, and the
//! calls that a run makes of a source and a sink that fail in mid-stream.
ghost use Rattle.std.specs.Prelude.{◌<◌};

use crate::status::Status;
use crate::top::run;
use eir_io::{MemSink, MemSource, SureShelf, SureSink, SureSource};
use itoa::Buffer;
use std::alloc::Global;
use std::test::Fail;

/// One employee whose room is not known.
const ONE_EMPLOYEE: &str =
    "source Emp(name,dept)\ntarget Works(name,room)\nnew e1\nput e1 Emp(ann,hr)\n\
put e1 Works(ann,?b)\nfit\n";

/// What it is answered.
const ONE_EMPLOYEE_REPLIES: &str =
    "ok\nok\nok\nok\nok\nfits glav 1\nEmp(x1,x2) -> exists y1 . Works(x1,y1)\n";

/// The second example has a target fact that the first lacks.
const MISSING_TARGET: &str =
    "source R(a)\ntarget T(a)\nnew e1\nput e1 R(a)\nnew e2\nput e2 R(b)\nput e2 T(b)\nfit\n";

/// What it is answered.
const MISSING_TARGET_REPLIES: &str = "ok\nok\nok\nok\nok\nok\nok\nrefuted e2 e1 b->a\n";

/// The words of a run.
fn words(alloc: Global, texts: &[&str]) -> Result<Vec<String>, Fail> {
    let mut words = Vec::new(alloc);
    for text in texts {
        words.push(String::from_str(alloc, text)?)?;
    }
    Ok(words)
}

/// Runs a script over streams that never fail.
fn replies(alloc: Global, texts: &[&str], script: &str) -> Result<(Status, Vec<u8>), Fail> {
    let words = words(alloc, texts)?;
    let mut input = SureSource::new(script.as_bytes().to_vec(alloc)?);
    let mut out = SureSink::new(alloc);
    let mut shelf = SureShelf::new(alloc);
    let status = run(alloc, &words, &mut input, &mut out, &mut shelf);
    Ok((status, out.written().to_vec(alloc)?))
}

/// Runs a script in pieces, where some calls fail.
fn run_in_pieces(
    alloc: Global,
    script: &str,
    piece: usize,
    reads: &[u64],
    writes: &[u64],
) -> Result<(Status, Vec<u8>), Fail>
    requires { 0 < piece }
{
    let words = words(alloc, &["edit"])?;
    let bytes = script.as_bytes().to_vec(alloc)?;
    let mut input = MemSource::new(bytes, piece, reads.to_vec(alloc)?);
    let mut out = MemSink::new(alloc, piece, writes.to_vec(alloc)?);
    let mut shelf = SureShelf::new(alloc);
    let status = run(alloc, &words, &mut input, &mut out, &mut shelf);
    Ok((status, out.written().to_vec(alloc)?))
}

/// A text that is printed in place of another, a verdict of another kind, an answer of want of memory.
#[test]
fn scripts_are_answered(rt: HostRuntime) -> Result<(), Fail> {
    let rows = [
        ("", ""),
        ("fit\n", "fits glav 0\n"),
        (ONE_EMPLOYEE, ONE_EMPLOYEE_REPLIES),
        (
            "source Emp(name,dept)\ntarget Works(name,dept)\nnew e1\nput e1 Emp(ann,hr)\nput e1 Works(ann,hr)\n\
new e2\nput e2 Emp(bob,it)\nput e2 Emp(cy,it)\nput e2 Works(bob,it)\nfit\n",
            "ok\nok\nok\nok\nok\nok\nok\nok\nok\nrefuted e1 e2 ann->cy hr->it\n",
        ),
        (
            "source R(a,b)\ntarget T(a)\nnew e1\nput e1 R(a,b)\nput e1 R(b,a)\nput e1 T(a)\nfit\n",
            "ok\nok\nok\nok\nok\nok\nrefuted e1 e1 a->b b->a\n",
        ),
        (
            "source R(a)\ntarget T(a)\nnew e1\nput e1 R(a)\nput e1 T(zed)\nfit\n",
            "ok\nok\nok\nok\nok\ndomain e1 zed\n",
        ),
        (
            "target T(a)\nnew e1\nput e1 T(?n)\nfit\n",
            "ok\nok\nok\nfits glav 1\ntrue -> exists y1 . T(y1)\n",
        ),
        (MISSING_TARGET, MISSING_TARGET_REPLIES),
        (
            "source R(a)\ntarget T(a)\nnew e1\nput e1 R(a)\nnew e2\nput e2 R(b)\nput e2 T(b)\nfit\n\
drop e1\nfit\nfit\nundo\nfit\n",
            "ok\nok\nok\nok\nok\nok\nok\nrefuted e2 e1 b->a\nok\nfits glav 1\nR(x1) -> T(x1)\n\
fits glav 1\nR(x1) -> T(x1)\nok\nrefuted e2 e1 b->a\n",
        ),
        (
            "source Emp(name,dept)\ntarget Works(name,dept)\nnew e1\nput e1 Emq(ann,hr)\nput e1 Emp(ann,hr,x)\n\
put e1 Emp(?x,hr)\nput e2 Emp(ann,hr)\nput e1 Emp(ann,hr)\nput e1 Emp(ann,hr)\ncut e1 Emp(bob,hr)\n\
cut e1 Emp(ann,hr)\nnew e1\nsource Works(a)\nput e1\nbudget 0\nundo\nundo\nundo\nundo\n",
            "ok\nok\nok\nrefused 3 relation\nrefused 4 arity\nrefused 5 null\nrefused 6 example\nok\n\
refused 7 there\nrefused 8 missing\nok\nrefused 2 taken\nrefused 2 taken\nrefused 1 line\nrefused 1 line\n\
ok\nok\nok\nrefused 10 nothing\n",
        ),
        (
            "fit\r\nfit\r\r\n\r\n \t \n  # put\n\t fit \t\nfit\r",
            "fits glav 0\nrefused 1 line\nfits glav 0\nfits glav 0\n",
        ),
        (
            "kind glave\nbudget 7\ntries\nreduce\nchase e1\ncert f\ntable R f\nexchange\ntake ann e1\nFit\n",
            "refused 1 line\nrefused 1 line\nrefused 1 line\nrefused 1 line\nrefused 1 line\n\
refused 1 line\nrefused 1 line\nrefused 1 line\nrefused 1 line\nrefused 1 line\n",
        ),
        // A null folds into a fact beside it, or not; the last kind counts.
        (
            "source R(a)\ntarget T(a,b)\nnew e1\nput e1 R(ann)\nput e1 T(ann,?n)\nkind gav\nfit\nput e1 T(ann,ann)\nfit\n\
kind glav\nfit\nkind gav\nkind glav\nkind gav\nnew e2\nput e2 R(bob)\nfit\n",
            "ok\nok\nok\nok\nok\nok\nfold e1\nok\nfits gav 1\nR(x1) -> T(x1,x1)\nok\nfits glav 1\n\
R(x1) -> exists y1 . T(x1,y1) & T(x1,x1)\nok\nok\nok\nok\nok\nrefuted e1 e2 ann->bob\n",
        ),
        (
            "target T(a)\nnew e1\nput e1 T(?n)\nfit\nkind gav\nfit\n",
            "ok\nok\nok\nfits glav 1\ntrue -> exists y1 . T(y1)\nok\nfold e1\n",
        ),
        // Each refusal in front of each later one.
        (
            "source R(a)\ntarget T(a,b)\nput e1 S(?x)\nput e1 R(?x,?y)\nput e1 R(?x)\nput e1 R(x)\ncut e1 S(?x)\n\
cut e1 R(?x,?y)\ncut e1 R(?x)\ncut e1 R(x)\ndrop e1\nsource R(a,a)\nsource Q(a,a)\n",
            "ok\nok\nrefused 3 relation\nrefused 4 arity\nrefused 5 null\nrefused 6 example\nrefused 3 relation\n\
refused 4 arity\nrefused 5 null\nrefused 6 example\nrefused 6 example\nrefused 2 taken\nrefused 2 taken\n",
        ),
    ];
    for (script, wanted) in rows {
        let (status, written) = replies(rt.alloc(), &["edit"], script)?;
        assert_eq!(rt; status, Status::Done, "at {script:?}");
        assert_eq!(rt; written.as_slice(), wanted.as_bytes(), "at {script:?}");
    }
    Ok(())
}

/// Whether words are answered as bad ones, and nothing is written.
fn are_bad(alloc: Global, texts: &[&str]) -> Result<bool, Fail> {
    let (status, written) = replies(alloc, texts, ONE_EMPLOYEE)?;
    Ok(status == Status::BadWords && written.is_empty())
}

/// Words that are read otherwise.
#[test]
fn other_words_are_bad(rt: HostRuntime) -> Result<(), Fail> {
    let none = are_bad(rt.alloc(), &[])?;
    assert!(rt; none);
    let capital = are_bad(rt.alloc(), &["Edit"])?;
    assert!(rt; capital);
    let two = are_bad(rt.alloc(), &["edit", "x"])?;
    assert!(rt; two);
    let empty = are_bad(rt.alloc(), &[""])?;
    assert!(rt; empty);
    Ok(())
}

/// Bytes that are lost or told twice where the input comes in pieces.
#[test]
fn pieces_do_not_matter(rt: HostRuntime) -> Result<(), Fail> {
    for piece in [1, 2, 7, 4096] {
        let (status, written) = run_in_pieces(rt.alloc(), ONE_EMPLOYEE, piece, &[], &[])?;
        assert_eq!(rt; status, Status::Done, "at {piece}");
        assert_eq!(rt;
            written.as_slice(),
            ONE_EMPLOYEE_REPLIES.as_bytes(),
            "at {piece}"
        );
    }
    Ok(())
}

/// A line that is answered though its end was not read, or one that is not though it was.
#[test]
fn each_read_may_fail(rt: HostRuntime) -> Result<(), Fail> {
    // The whole lines among the first 10, 20 and so on bytes.
    let whole = [0, 0, 1, 2, 3, 5, 5, 6, 8];
    for call in 1..100u64 {
        let (status, written) = run_in_pieces(rt.alloc(), MISSING_TARGET, 10, &[call], &[])?;
        if status == Status::Done {
            assert_eq!(rt; written.as_slice(), MISSING_TARGET_REPLIES.as_bytes());
            assert_eq!(rt; call, 10);
            return Ok(());
        }
        assert_eq!(rt; status, Status::ReadFault, "at {call}");
        assert!(rt;
            MISSING_TARGET_REPLIES.as_bytes().starts_with(&written),
            "at {call}"
        );
        assert_eq!(rt;
            lines_in(&written),
            whole[(call - 1) as usize % 9],
            "at {call}"
        );
    }
    assert!(rt; false, "each read failed");
    Ok(())
}

/// The number of line feeds.
fn lines_in(bytes: &[u8]) -> usize {
    bytes.iter().filter(|byte| **byte == b'\n').count()
}

/// A write that is done again, or left out, after one that fails.
#[test]
fn each_write_may_fail(rt: HostRuntime) -> Result<(), Fail> {
    for call in 1..100u64 {
        let (status, written) = run_in_pieces(rt.alloc(), MISSING_TARGET, 1, &[], &[call])?;
        if status == Status::Done {
            assert_eq!(rt; written.as_slice(), MISSING_TARGET_REPLIES.as_bytes());
            return Ok(());
        }
        assert_eq!(rt; status, Status::WriteFault, "at {call}");
        assert!(rt;
            MISSING_TARGET_REPLIES.as_bytes().starts_with(&written),
            "at {call}"
        );
        assert_eq!(rt; written.len() as u64, call - 1, "at {call}");
    }
    assert!(rt; false, "each write failed");
    Ok(())
}

/// Runs a script of any bytes over streams that never fail.
fn answers(alloc: Global, script: &[u8]) -> Result<(Status, Vec<u8>), Fail> {
    let words = words(alloc, &["edit"])?;
    let mut input = SureSource::new(script.to_vec(alloc)?);
    let mut out = SureSink::new(alloc);
    let mut shelf = SureShelf::new(alloc);
    let status = run(alloc, &words, &mut input, &mut out, &mut shelf);
    Ok((status, out.written().to_vec(alloc)?))
}

/// Whether a line, said of so many names in turn, is accepted each time, and refused so of one name more.
fn has_limit(
    alloc: Global,
    before: &str,
    start: &str,
    end: &str,
    limit: u16,
    refusal: &str,
) -> Result<bool, Fail> {
    let mut script = before.as_bytes().to_vec(alloc)?;
    let mut wanted = Vec::new(alloc);
    for _line in 0..lines_in(before.as_bytes()) {
        wanted.extend_from_slice(b"ok\n")?;
    }
    let mut buffer = Buffer::new();
    let limit = limit as usize;
    for number in 0..limit + 1 {
        script.extend_from_slice(start.as_bytes())?;
        script.extend_from_slice(buffer.format(number).as_bytes())?;
        script.extend_from_slice(end.as_bytes())?;
        if number < limit {
            wanted.extend_from_slice(b"ok\n")?;
        }
    }
    wanted.extend_from_slice(refusal.as_bytes())?;
    let (status, written) = answers(alloc, &script)?;
    Ok(status == Status::Done && written.as_slice() == wanted.as_slice())
}

/// A limit that is off by one, and the text of its refusal.
#[test]
fn limits_are_met(rt: HostRuntime) -> Result<(), Fail> {
    let rows = [
        ("", "source s", "(a)\n", 64, "refused 9 full 64\n"),
        (
            "source R(a)\n",
            "target s",
            "(a)\n",
            64,
            "refused 9 full 64\n",
        ),
        ("", "new e", "\n", 64, "refused 9 full 64\n"),
        (
            "source R(a)\nnew e\n",
            "put e R(",
            ")\n",
            512,
            "refused 9 full 512\n",
        ),
    ];
    for (before, start, end, limit, refusal) in rows {
        let met = has_limit(rt.alloc(), before, start, end, limit, refusal)?;
        assert!(rt; met, "at {start}");
    }
    Ok(())
}

/// A column too many, and the 33rd undo.
#[test]
fn columns_and_undos_have_limits(rt: HostRuntime) -> Result<(), Fail> {
    let (_, columns) = replies(
        rt.alloc(),
        &["edit"],
        "source A(a,b,c,d,e,f,g,h,i,j,k,l,m,n,o,p)\nsource B(a,b,c,d,e,f,g,h,i,j,k,l,m,n,o,p,q)\n",
    )?;
    assert_eq!(rt; columns.as_slice(), b"ok\nrefused 9 full 16\n".as_slice());
    let mut script = Vec::new(rt.alloc());
    let mut wanted = Vec::new(rt.alloc());
    for _edit in 0..20 {
        script.extend_from_slice(b"new e\ndrop e\n")?;
        wanted.extend_from_slice(b"ok\nok\n")?;
    }
    for _undo in 0..32 {
        script.extend_from_slice(b"undo\n")?;
        wanted.extend_from_slice(b"ok\n")?;
    }
    script.extend_from_slice(b"undo\n")?;
    wanted.extend_from_slice(b"refused 10 nothing\n")?;
    let (_, written) = answers(rt.alloc(), &script)?;
    assert_eq!(rt; written.as_slice(), wanted.as_slice());
    Ok(())
}

/// A line that is read though it is one byte too long, or one that is not though its end alone makes it so.
#[test]
fn long_lines_are_refused(rt: HostRuntime) -> Result<(), Fail> {
    let rows = [
        (4093, "\r\n", "fits glav 0\n"),
        (4094, "\r\n", "refused 1 line\n"),
        (4093, "", "fits glav 0\n"),
        (4094, "\r", "refused 1 line\n"),
    ];
    for (spaces, end, wanted) in rows {
        let mut script = b"fit".as_slice().to_vec(rt.alloc())?;
        for _space in 0..spaces {
            script.push(b' ')?;
        }
        script.extend_from_slice(end.as_bytes())?;
        let (_, written) = answers(rt.alloc(), &script)?;
        assert_eq!(rt; written.as_slice(), wanted.as_bytes(), "at {spaces}");
    }
    Ok(())
}
