//! What the searches between two targets start with.
ghost use Rattle.std.specs.Prelude.{◌≡◌, None, IfOk};
ghost use Rattle.eir_term.specs.Lists.{IsDistinct};
ghost use Rattle.eir_term.specs.Instances.{consts, values};
ghost use Rattle.eir_term.specs.Maps.{domain_of, graph, image};
ghost use Rattle.eir_term.specs.Search.{constants_fixed};
ghost use Rattle.eir_term.specs.Verdicts.{first_foreign};
ghost use Rattle.eir_edit.specs.Pairs.{pair_of, paired};
ghost use Rattle.eir_ext.specs.Searching.{AreNumbers};

use eir_edit::Example;
use eir_inst::Indexed;
use eir_term::{Map, Memory};
use std::alloc::Global;

/// The constants of an example's target: a map that sends each to itself, and their numbers among the values of the
/// source, in the same order.
#[derive(Drop)]
pub(crate) struct Constants {
    pub(crate) start: Map,
    pub(crate) numbers: Vec<usize>,
}

/// The constants of the target, each of which occurs in the source.
pub(crate) fn constants_of(alloc: Global, example: &Example) -> Result<Constants, Memory>
    requires { first_foreign (pair_of example.now) ≡ None }
    ensures start { IfOk result (λ c. c.start ≡ constants_fixed example.now.target) }
    ensures numbers { IfOk result
        (λ c. AreNumbers (values example.now.source) (consts example.now.target) c.numbers.items) }
{
    let source = example.source.indexed()?;
    let target = example.target.indexed()?;
    constants_between(alloc, &source, &target)
}

/// The constants of the target, each of which occurs in the source: facts with their index.
fn constants_between(alloc: Global, source: &Indexed, target: &Indexed) -> Result<Constants, Memory>
    requires { first_foreign (paired source.now.facts target.now.facts) ≡ None }
    ensures start { IfOk result (λ c. c.start ≡ constants_fixed target.now.facts) }
    ensures numbers { IfOk result
        (λ c. AreNumbers (values source.now.facts) (consts target.now.facts) c.numbers.items) }
{
    let mut start = Map::new(alloc);
    let mut numbers = Vec::new(alloc);
    for value in target.values() {
        if value.is_const() {
            let Some(number) = source.number_of(*value) else {
                unreachable!()
            };
            start.put(*value, *value)?;
            numbers.push(number)?;
        }
    }
    Ok(Constants { start, numbers })
}

/// Sends each value that the start names where the homomorphism sends it, which names the value at its number.
pub(crate) fn follow(start: &mut Map, numbers: &[usize], hom: &Map)
    requires distinct { IsDistinct (domain_of hom.now) }
    requires numbers { AreNumbers (domain_of hom.now) (domain_of start.old) numbers.now }
    ensures { start.new ≡ graph (image hom.now) (domain_of start.old) }
{
    for (place, number) in numbers.iter().enumerate() {
        start.set_at(place, hom.image_at(*number));
    }
}
