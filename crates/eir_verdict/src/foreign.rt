//! Foreign constants.
ghost use Rattle.std.specs.Prelude.{◌≡◌, ◌∷◌, [], option_map};
ghost use Rattle.eir_term.specs.declared.val.Val.TheVariants.{Const};
ghost use Rattle.eir_term.specs.Instances.{occurrences};
ghost use Rattle.eir_term.specs.Verdicts.{first_foreign};
ghost use Rattle.eir_edit.specs.Pairs.{pair_of};
ghost use Rattle.eir_verdict.specs.Foreign.{args_at, first_among};

use eir_edit::Example;
use eir_inst::Instance;
use eir_term::Val;

/// The number of the first constant of the target, fact by fact and column by column, that does not occur in the
/// source. It takes no memory. Where both instances are settled it costs a hash for each constant of the target.
pub fn first_foreign(example: &Example) -> Option<u64>
    ensures { option_map Const result ≡ first_foreign (pair_of example.now) }
{
    first_foreign_in(&example.source, &example.target)
}

/// The same of a source and a target.
fn first_foreign_in(source: &Instance, target: &Instance) -> Option<u64>
    ensures { option_map Const result ≡ first_among source.now.facts (occurrences target.now.facts) }
{
    for place in 0..target.len() {
        let found = first_foreign_at(source, target, place);
        if found.is_some() {
            return found;
        }
    }
    None
}

/// The same of the target's fact at a place alone.
fn first_foreign_at(source: &Instance, target: &Instance, place: usize) -> Option<u64>
    ensures { option_map Const result ≡ first_among source.now.facts (args_at target.now.facts place) }
{
    match target.fact(place) {
        Some(fact) => first_foreign_among(source, fact.args.as_slice()),
        None => None,
    }
}

/// The same of these values.
fn first_foreign_among(source: &Instance, values: &[Val]) -> Option<u64>
    ensures { option_map Const result ≡ first_among source.now.facts values.now }
{
    for value in values {
        let found = foreign(source, *value);
        if found.is_some() {
            return found;
        }
    }
    None
}

/// The number of the value, where it is a constant that does not occur in the source.
fn foreign(source: &Instance, value: Val) -> Option<u64>
    ensures { option_map Const result ≡ first_among source.now.facts (value ∷ []) }
{
    match value {
        Val::Const(number) if !source.has_value(value) => Some(number),
        _ => None,
    }
}
