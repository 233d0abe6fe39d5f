//! Whether columns have names of their own.
ghost use Rattle.std.specs.Prelude.{◌≡◌, IfOk};
ghost use Rattle.std.specs.List.{list_any};
ghost use Rattle.std.specs.Str.{bytes_eq};
ghost use Rattle.eir_schema.specs.Declarations.{has_repeat};

use eir_term::{Memory, Text};
use indexmap::IndexSet;
use std::alloc::Global;

/// Up to so many names are compared pair by pair.
const FEW: usize = 16;

/// Whether one of these names stands twice. More than a few are told apart by a set by hash; where there is no memory
/// for it, they are compared pair by pair, so that the answer is there in any case.
pub fn has_repeat(alloc: Global, names: &[Text]) -> bool
    ensures { result ≡ has_repeat names.now }
{
    if names.len() <= FEW {
        return has_equal_pair(names);
    }
    match has_equal_hashed(alloc, names) {
        Ok(repeated) => repeated,
        Err(Memory) => has_equal_pair(names),
    }
}

/// The same, pair by pair.
fn has_equal_pair(names: &[Text]) -> bool
    ensures { result ≡ has_repeat names.now }
{
    'names: for place in 0..names.len() {
        if stands_in(&names[place + 1..], &names[place]) {
            return true;
        }
    }
    false
}

/// Whether the name is one of these.
fn stands_in(names: &[Text], name: &Text) -> bool
    ensures { result ≡ list_any (bytes_eq name.now) names.now }
{
    names.iter().any(|other| name.bytes() == other.bytes())
}

/// The same, by a set of the names so far.
fn has_equal_hashed(alloc: Global, names: &[Text]) -> Result<bool, Memory>
    ensures { IfOk result (λ repeated. repeated ≡ has_repeat names.now) }
{
    let mut seen = IndexSet::new(alloc);
    'names: for name in names {
        if !seen.insert(name.bytes())? {
            return Ok(true);
        }
    }
    Ok(false)
}
