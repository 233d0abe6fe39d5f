//! Examples that a person decides: their first foreign constants, and whether their targets fold, at once with just enough
//! fuel and with a try too few, and try by try. Each call is made once with ample memory: a body that always wants memory
//! would pass the check.
ghost use Rattle.std.specs.Prelude.{◌≡◌, ◌<◌, IfOk};

use crate::{FoldTest, FoldTurn, first_foreign, folds};
use eir_edit::Example;
use eir_hom::FindStop;
use eir_inst::Instance;
use eir_search::{Fuel, Steps};
use eir_term::Val::{Const, Fixed, Null};
use eir_term::{Fact, Text, Val};
use std::alloc::Global;
use std::marker::Brand;
use std::rc::Rc;
use std::sync::ledger::{Blank, Ledger};
use std::test::Fail;

/// The instance of these facts of one relation.
fn instance(alloc: Global, pairs: &[(Val, Val)]) -> Result<Rc<Instance>, Fail>
    ensures { IfOk result (λ i. i.value.limit ≡ 512) }
{
    let mut instance = Instance::new(alloc, 512);
    'pairs: for (v, w) in pairs {
        instance.insert(Fact::make(alloc, 0, &[*v, *w])?)?;
    }
    let instance = Rc::new(alloc, instance)?;
    Ok(instance)
}

/// The example of these facts.
fn example(
    alloc: Global,
    source: &[(Val, Val)],
    target: &[(Val, Val)],
) -> Result<Rc<Example>, Fail> {
    let name = Text::make(alloc, b"e")?;
    let source = instance(alloc, source)?;
    let target = instance(alloc, target)?;
    let example = Example {
        name,
        version: 0,
        source,
        target,
    };
    let example = Rc::new(alloc, example)?;
    Ok(example)
}

/// The facts of a source and of a target, and the number of the first foreign constant.
#[derive(Drop)]
struct Foreign<'a> {
    source: &'a [(Val, Val)],
    target: &'a [(Val, Val)],
    first: Option<u64>,
}

#[test]
fn tells_the_first_foreign_constant(rt: HostRuntime) -> Result<(), Fail> {
    let (a, b, c, d) = (Const(1), Const(2), Const(3), Const(4));
    let cases = [
        // nulls and fixed constants are not foreign, and constants may stand anywhere in the source
        Foreign {
            source: &[(a, b), (c, a)],
            target: &[(c, Null(1)), (Fixed(9), b), (b, a)],
            first: None,
        },
        Foreign {
            source: &[(a, b)],
            target: &[],
            first: None,
        },
        // an earlier fact goes before an earlier column
        Foreign {
            source: &[(a, b)],
            target: &[(b, Null(1)), (a, d), (c, a)],
            first: Some(4),
        },
        // and of one fact the earlier column goes first
        Foreign {
            source: &[(a, b)],
            target: &[(d, c)],
            first: Some(4),
        },
        // a source without facts has no constant
        Foreign {
            source: &[],
            target: &[(a, b)],
            first: Some(1),
        },
    ];
    for case in cases {
        let example = example(rt.alloc(), case.source, case.target)?;
        assert_eq!(rt; first_foreign(&example), case.first);
    }
    Ok(())
}

/// Whether the target of an example folds, within so many tries. Nothing where they are too few. Where memory is refused, as
/// `--fail-alloc` lets each allocation be in turn, the call says so, and is made once more.
fn within<L: Ledger>(
    alloc: Global,
    example: &Rc<Example>,
    limit: u64,
    blank: Blank,
) -> Result<Option<bool>, Fail>
    requires name { blank.name ≡ L.name }
    requires parts { blank.parts ≡ L.parts }
    requires some { 0 < blank.parts }
{
    let mut steps = Steps::<L>::open(blank);
    let mut fuel = Fuel::new(limit);
    let mut end = folds(alloc, example, &mut fuel, &mut steps);
    if matches!(end, Err(FindStop::Memory)) {
        end = folds(alloc, example, &mut fuel, &mut steps);
    }
    match end {
        Ok(folds) => Ok(Some(folds)),
        Err(FindStop::Spent) => Ok(None),
        Err(FindStop::Memory) => Err("no memory".into()),
    }
}

/// The same, where nobody counts on.
fn folds_within(alloc: Global, example: &Rc<Example>, limit: u64) -> Result<Option<bool>, Fail> {
    within::<Brand>(alloc, example, limit, Blank::new(1))
}

/// How the fold test of an example ends that makes one try a turn, and the tries that it makes. It is asked once more when
/// it is decided.
fn by_turns<L: Ledger>(
    alloc: Global,
    example: &Rc<Example>,
    blank: Blank,
) -> Result<(FoldTurn, u64), Fail>
    requires name { blank.name ≡ L.name }
    requires parts { blank.parts ≡ L.parts }
    requires some { 0 < blank.parts }
{
    let mut steps = Steps::<L>::open(blank);
    let mut fuel = Fuel::new(100);
    let mut test = FoldTest::begin(alloc, example)?;
    'turns: for _ in 0..100 {
        let end = test.turn(1, &mut fuel, &mut steps);
        if end == FoldTurn::Going {
            continue;
        }
        let tries = fuel.used();
        let again = test.turn(1, &mut fuel, &mut steps);
        if again != end || fuel.used() != tries {
            return Err("it went on".into());
        }
        return Ok((end, tries));
    }
    Err("it was not decided".into())
}

/// The same, where nobody counts on.
fn folds_by_turns(alloc: Global, example: &Rc<Example>) -> Result<(FoldTurn, u64), Fail> {
    by_turns::<Brand>(alloc, example, Blank::new(1))
}

/// The facts of a target, whether it folds, and the tries that tell it.
#[derive(Drop)]
struct Folding<'a> {
    target: &'a [(Val, Val)],
    folds: bool,
    tries: u64,
}

#[test]
fn tells_whether_a_target_folds(rt: HostRuntime) -> Result<(), Fail> {
    let alloc = rt.alloc();
    let (a, b, c, d, e) = (Const(1), Const(2), Const(3), Const(4), Const(5));
    let n = Null(1);
    let cases = [
        // a null that a constant stands for, and one for which none does
        Folding {
            target: &[(a, n), (a, b)],
            folds: true,
            tries: 2,
        },
        Folding {
            target: &[(a, n), (c, b)],
            folds: false,
            tries: 1,
        },
        // one for which a constant stands in both facts, and one for which it does in the first alone
        Folding {
            target: &[(a, n), (n, b), (a, c), (c, b)],
            folds: true,
            tries: 4,
        },
        Folding {
            target: &[(a, n), (n, b), (a, c), (c, e), (d, b)],
            folds: false,
            tries: 5,
        },
        // without nulls a target folds, also without facts; with nulls alone it does not
        Folding {
            target: &[(a, b), (b, c)],
            folds: true,
            tries: 2,
        },
        Folding {
            target: &[],
            folds: true,
            tries: 0,
        },
        Folding {
            target: &[(n, n)],
            folds: false,
            tries: 0,
        },
    ];
    for case in cases {
        let example = example(alloc, &[], case.target)?;
        let end = if case.folds {
            FoldTurn::Folds
        } else {
            FoldTurn::Fault
        };
        assert_eq!(rt;
            folds_within(alloc, &example, case.tries)?,
            Some(case.folds)
        );
        assert_eq!(rt; folds_by_turns(alloc, &example)?, (end, case.tries));
        if case.tries > 0 {
            assert_eq!(rt; folds_within(alloc, &example, case.tries - 1)?, None);
        }
    }
    Ok(())
}
