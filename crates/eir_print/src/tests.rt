//! Worked texts, each call once with ample memory, and each reply and refusal with its bytes. A body that always wants
//! memory would pass the check.
ghost use Rattle.std.specs.Prelude.{◌≡◌, IfOk};

use crate::mapping::print_mapping;
use crate::{
    At, Reasons, Reduction, Refusal, Reply, Stored, StoredFiles, print_dep, print_fact,
    print_refusal, print_reply,
};
use eir_dep::{Dep, Mapping};
use eir_edit::Example;
use eir_inst::Instance;
use eir_schema::{Names, Schema};
use eir_term::Val::{Const, Fixed, Null};
use eir_term::{Atom, Fact, Kind, Map, Side, Term, Text, Val};
use eir_verdict::Verdict;
use std::alloc::Global;
use std::process::Abort;
use std::rc::Rc;
use std::test::Fail;

/// A schema with the source relation `E` and the target relation `P`, of two columns each. Their numbers are 0 and 1.
fn schema(alloc: Global) -> Result<Schema, Fail> {
    let mut schema = Schema::new(alloc);
    let columns = [Text::make(alloc, b"a")?, Text::make(alloc, b"b")?];
    schema.declare(Side::Source, &Text::make(alloc, b"E")?, &columns)?;
    schema.declare(Side::Target, &Text::make(alloc, b"P")?, &columns)?;
    Ok(schema)
}

/// The names `ann`, `bob` and `n`, with the numbers 0, 1 and 2.
fn names(alloc: Global) -> Result<Names, Fail> {
    let mut names = Names::new(alloc);
    names.number(b"ann")?;
    names.number(b"bob")?;
    names.number(b"n")?;
    Ok(names)
}

/// The instance of one fact.
fn instance(alloc: Global, rel: u32, args: [Val; 2]) -> Result<Instance, Fail>
    ensures { IfOk result (λ i. i.limit ≡ 512) }
{
    let mut instance = Instance::new(alloc, 512);
    instance.insert(Fact::make(alloc, rel, &args)?)?;
    Ok(instance)
}

/// The example of this name, with one source fact and the target fact `P(ann,?n)`.
fn example(alloc: Global, name: &[u8], args: [Val; 2]) -> Result<Rc<Example>, Fail> {
    let example = Example {
        name: Text::make(alloc, name)?,
        version: 0,
        source: Rc::new(alloc, instance(alloc, 0, args)?)?,
        target: Rc::new(alloc, instance(alloc, 1, [Const(0), Null(2)])?)?,
    };
    let example = Rc::new(alloc, example)?;
    Ok(example)
}

/// The examples `e` and `f` with the source facts `E(ann,bob)` and `E(bob,bob)`.
fn examples(alloc: Global) -> Result<Vec<Rc<Example>>, Fail> {
    let mut examples = Vec::new(alloc);
    examples.push(example(alloc, b"e", [Const(0), Const(1)])?)?;
    examples.push(example(alloc, b"f", [Const(1), Const(1)])?)?;
    Ok(examples)
}

/// The atoms of a relation with these variables.
fn atoms(alloc: Global, rel: u32, variables: &[[u32; 2]]) -> Result<Vec<Atom>, Fail> {
    let mut atoms = Vec::new(alloc);
    for [first, second] in variables {
        atoms.push(Atom::make(alloc, rel, &[Term::Var(*first), Term::Var(*second)])?)?;
    }
    Ok(atoms)
}

/// The dependency from `E` to `P` with these variables.
fn dependency(
    alloc: Global,
    premise: &[[u32; 2]],
    exists: &[u32],
    conclusion: &[[u32; 2]],
) -> Result<Dep, Fail> {
    let premise = atoms(alloc, 0, premise)?;
    let conclusion = atoms(alloc, 1, conclusion)?;
    let dep = Dep::new(premise, exists.to_vec(alloc)?, conclusion)?;
    Ok(dep)
}

/// The mapping of a dependency that makes the second value, and of one that swaps the values.
fn mapping(alloc: Global) -> Result<Mapping, Fail> {
    let mut mapping = Mapping::new(alloc);
    mapping.push(dependency(alloc, &[[7, 5]], &[9], &[[7, 9]])?)?;
    mapping.push(dependency(alloc, &[[1, 2]], &[], &[[2, 1]])?)?;
    Ok(mapping)
}

/// The map that sends both constants to `bob`.
fn map(alloc: Global) -> Result<Map, Fail> {
    let mut map = Map::new(alloc);
    map.put(Const(0), Const(1))?;
    if map.get(Const(1)).is_none() {
        map.put(Const(1), Const(1))?;
    }
    Ok(map)
}

/// The reduction to the mapping, with one reason.
fn reduction(alloc: Global) -> Result<Reduction, Fail> {
    let mut lines = Reasons::new(alloc);
    lines.push(Text::make(alloc, b"- dependency E(x1,x2) -> P(x1,x1)")?)?;
    Ok(Reduction {
        mapping: mapping(alloc)?,
        lines,
    })
}

/// The files of an exchange of two tables.
fn files(alloc: Global) -> Result<StoredFiles, Fail> {
    let mut files = StoredFiles::new(alloc);
    let file = Text::make(alloc, b"out-P.csv")?;
    files.push(Stored { file, rows: 3 })?;
    let file = Text::make(alloc, b"out-Q.csv")?;
    files.push(Stored { file, rows: 0 })?;
    Ok(files)
}

/// Asserts that each reply has its text, behind what was there.
fn compare_replies(
    rt: &impl Abort,
    alloc: Global,
    cases: &[(Reply, &'static str)],
) -> Result<(), Fail> {
    let (schema, names, examples) = (schema(alloc)?, names(alloc)?, examples(alloc)?);
    for (reply, text) in cases {
        let mut out = Text::make(alloc, b"> ")?;
        print_reply(alloc, reply, &schema, &names, &examples, &mut out)?;
        assert_eq!(rt; out.bytes().strip_prefix(b"> "), Some(text.as_bytes()));
    }
    Ok(())
}

/// The reply to a fit that found this.
fn found(alloc: Global, kind: Kind, verdict: Verdict) -> Result<Reply, Fail> {
    Ok(Reply::Verdict(kind, Box::new(alloc, verdict)?))
}

#[test]
fn verdicts(rt: HostRuntime) -> Result<(), Fail> {
    let alloc = rt.alloc();
    let domain = Verdict::Domain {
        example: 0,
        constant: 1,
    };
    let refuted = Verdict::Refuted {
        first: 0,
        second: 1,
        map: map(alloc)?,
    };
    let cases = [
        (found(alloc, Kind::Glav, domain)?, "domain e bob\n"),
        (
            found(alloc, Kind::Gav, Verdict::Fold { example: 1 })?,
            "fold f\n",
        ),
        (
            found(alloc, Kind::Glav, refuted)?,
            "refuted e f ann->bob bob->bob\n",
        ),
        (
            found(alloc, Kind::Glav, Verdict::Fits(mapping(alloc)?))?,
            "fits glav 2\nE(x1,x2) -> exists y1 . P(x1,y1)\nE(x1,x2) -> P(x2,x1)\n",
        ),
        (
            found(alloc, Kind::Gav, Verdict::Fits(Mapping::new(alloc)))?,
            "fits gav 0\n",
        ),
    ];
    compare_replies(&rt, alloc, &cases)
}

#[test]
fn replies(rt: HostRuntime) -> Result<(), Fail> {
    let alloc = rt.alloc();
    let spent = Reply::Spent {
        limit: 10,
        pairs: 2,
    };
    let chased = instance(alloc, 1, [Const(1), Null(1)])?;
    let cases = [
        (Reply::Done, "ok\n"),
        (spent, "spent 10 after 2 pairs\n"),
        (Reply::Tries(u64::MAX), "tries 18446744073709551615\n"),
        (
            Reply::Reduced(Kind::Gav, Box::new(alloc, reduction(alloc)?)?),
            "reduced gav 2 1\nE(x1,x2) -> exists y1 . P(x1,y1)\nE(x1,x2) -> P(x2,x1)\n- dependency E(x1,x2) -> P(x1,x1)\n",
        ),
        (
            Reply::Chased(Text::make(alloc, b"e")?, Box::new(alloc, chased)?),
            "chase e 1\nP(bob,?1)\n",
        ),
        (
            Reply::Cert(Text::make(alloc, b"c.txt")?, 248),
            "cert c.txt 248\n",
        ),
        (
            Reply::Exchange(files(alloc)?),
            "exchange 2\nout-P.csv 3\nout-Q.csv 0\n",
        ),
    ];
    compare_replies(&rt, alloc, &cases)
}

#[test]
fn budgets(rt: HostRuntime) -> Result<(), Fail> {
    let (alloc, limit) = (rt.alloc(), 10);
    let cases = [
        (
            Reply::SpentAt {
                limit,
                at: At::Part(3),
            },
            "spent 10 at part 3\n",
        ),
        (
            Reply::SpentAt {
                limit,
                at: At::Chase,
            },
            "spent 10 at chase\n",
        ),
        (
            Reply::SpentAt {
                limit,
                at: At::Exchange,
            },
            "spent 10 at exchange\n",
        ),
        (
            Reply::SpentAt {
                limit,
                at: At::Cert,
            },
            "spent 10 at cert\n",
        ),
    ];
    compare_replies(&rt, alloc, &cases)
}

#[test]
fn refusals(rt: HostRuntime) -> Result<(), Fail> {
    let alloc = rt.alloc();
    let foreign = Refusal::Foreign(Text::make(alloc, b"E/2;P/2")?, Text::make(alloc, b";")?);
    let cases = [
        (Refusal::Line, "refused 1 line\n"),
        (Refusal::Taken, "refused 2 taken\n"),
        (Refusal::Relation, "refused 3 relation\n"),
        (Refusal::Arity, "refused 4 arity\n"),
        (Refusal::Null, "refused 5 null\n"),
        (Refusal::Example, "refused 6 example\n"),
        (Refusal::There, "refused 7 there\n"),
        (Refusal::Missing, "refused 8 missing\n"),
        (Refusal::Full(512), "refused 9 full 512\n"),
        (Refusal::Nothing, "refused 10 nothing\n"),
        (Refusal::NoFile, "refused 11 nofile\n"),
        (Refusal::Table(0), "refused 12 table 0\n"),
        (foreign, "refused 13 foreign E/2;P/2 ;\n"),
        (Refusal::Memory, ""),
    ];
    for (refusal, text) in &cases {
        let mut out = Text::make(alloc, b"> ")?;
        print_refusal(refusal, &mut out)?;
        assert_eq!(rt; out.bytes().strip_prefix(b"> "), Some(text.as_bytes()));
    }
    Ok(())
}

/// Premise variables, existential variables and conclusion variables, with the text of the dependency.
type Case = (
    &'static [[u32; 2]],
    &'static [u32],
    &'static [[u32; 2]],
    &'static str,
);

#[test]
fn dependencies(rt: HostRuntime) -> Result<(), Fail> {
    let alloc = rt.alloc();
    let schema = schema(alloc)?;
    let cases: [Case; 4] = [
        (&[[3, 3]], &[], &[[3, 3]], "E(x1,x1) -> P(x1,x1)"),
        (
            &[[9, 4], [4, 2]],
            &[],
            &[[2, 9]],
            "E(x1,x2) & E(x2,x3) -> P(x3,x1)",
        ),
        (
            &[[7, 5]],
            &[8, 9],
            &[[9, 5], [8, 9]],
            "E(x1,x2) -> exists y1 y2 . P(y1,x2) & P(y2,y1)",
        ),
        (&[], &[1, 2], &[[2, 1]], "true -> exists y1 y2 . P(y1,y2)"),
    ];
    for (premise, exists, conclusion, text) in cases {
        let mut out = Text::make(alloc, b"")?;
        let dep = dependency(alloc, premise, exists, conclusion)?;
        print_dep(alloc, &dep, &schema, &mut out)?;
        assert_eq!(rt; out.bytes(), text.as_bytes());
    }
    Ok(())
}

/// A premise that comes again, and one that does not.
#[test]
fn shared_premises(rt: HostRuntime) -> Result<(), Fail> {
    let alloc = rt.alloc();
    let schema = schema(alloc)?;
    let mut mapping = Mapping::new(alloc);
    mapping.push(dependency(alloc, &[[7, 5], [5, 3]], &[], &[[7, 3]])?)?;
    mapping.push(dependency(alloc, &[[7, 5], [5, 3]], &[], &[[3, 5]])?)?;
    mapping.push(dependency(alloc, &[[5, 7], [5, 3]], &[], &[[7, 3]])?)?;
    let mut out = Text::make(alloc, b"")?;
    print_mapping(alloc, &mapping, &schema, &mut out)?;
    let text =
        "E(x1,x2) & E(x2,x3) -> P(x1,x3)\nE(x1,x2) & E(x2,x3) -> P(x3,x2)\nE(x1,x2) & E(x1,x3) -> P(x2,x3)\n";
    assert_eq!(rt; out.bytes(), text.as_bytes());
    Ok(())
}

#[test]
fn facts(rt: HostRuntime) -> Result<(), Fail> {
    let alloc = rt.alloc();
    let (schema, names) = (schema(alloc)?, names(alloc)?);
    for (args, text) in [
        ([Const(0), Null(2)], "P(ann,?n)"),
        ([Fixed(1), Const(1)], "P(bob,bob)"),
    ] {
        let mut out = Text::make(alloc, b"")?;
        print_fact(&Fact::make(alloc, 1, &args)?, &schema, &names, &mut out)?;
        assert_eq!(rt; out.bytes(), text.as_bytes());
    }
    Ok(())
}

/// Where some allocation fails, as the check lets each in turn, a prefix of the text stands behind what was there.
#[test]
fn leaves_a_prefix_where_memory_is_refused(rt: HostRuntime) -> Result<(), Fail> {
    let alloc = rt.alloc();
    let schema = schema(alloc)?;
    let dep = dependency(alloc, &[[1, 2]], &[3], &[[1, 3]])?;
    let mut out = Text::make(alloc, b"> ")?;
    let answer = print_dep(alloc, &dep, &schema, &mut out);
    let whole = "> E(x1,x2) -> exists y1 . P(x1,y1)".as_bytes();
    assert!(rt; out.bytes().starts_with(b"> ") && whole.starts_with(out.bytes()));
    assert!(rt; answer.is_err() || out.bytes() == whole);
    Ok(())
}
