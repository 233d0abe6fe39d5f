//! Equal atoms.
ghost use Rattle.std.specs.Prelude.{◌≡◌, IsTrue, slice_get};

use eir_term::Atom;

/// Whether these atoms are those, in order.
pub(crate) fn are_equal(first: &[Atom], second: &[Atom]) -> bool
    ensures { IsTrue result → first.now ≡ second.now }
{
    for place in 0..first.len() {
        if !are_equal_at(place, first, second) {
            return false;
        }
    }
    first.len() == second.len()
}

/// Whether there is one atom in both at a place.
fn are_equal_at(place: usize, first: &[Atom], second: &[Atom]) -> bool
    ensures { IsTrue result → slice_get first.now place ≡ slice_get second.now place }
{
    match (first.get(place), second.get(place)) {
        (Some(atom), Some(other)) => is_equal(atom, other),
        _ => false,
    }
}

/// Whether this atom is that one.
fn is_equal(first: &Atom, second: &Atom) -> bool
    ensures { IsTrue result → first.now ≡ second.now }
{
    first.rel == second.rel && first.args.as_slice() == second.args.as_slice()
}
