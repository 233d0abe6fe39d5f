//! Variables that occur in atoms or are listed, looked up by marks.
//!
//! A table of marks has a place for each number below its length, so a variable below it is found at once. A larger one
//! is looked for in the atoms.
ghost use Rattle.std.specs.Prelude.{◌≡◌, ◌⊎◌, ◌++◌, ◌∷◌, ◌↔◌, ℕ, Bool, List, [], true, IsTrue, slice_set};
ghost use Rattle.eir_term.specs.Lists.{◌∈◌};
ghost use Rattle.eir_term.specs.Dependencies.{term_vars, vars};
ghost use Rattle.eir_dep.specs.Marks.{AreMarks};

use eir_term::{Atom, Term};

/// Marks the variables of the atoms.
pub(crate) fn mark_atoms(marks: &mut [bool], atoms: &[Atom])
    ensures { (xs : List ℕ) → AreMarks marks.old xs → AreMarks marks.new (xs ++ vars atoms.now) }
{
    for atom in atoms {
        mark_terms(marks, atom.args.as_slice());
    }
}

/// Marks the variables among the terms.
fn mark_terms(marks: &mut [bool], terms: &[Term])
    ensures { (xs : List ℕ) → AreMarks marks.old xs → AreMarks marks.new (xs ++ term_vars terms.now) }
{
    for term in terms {
        if let Term::Var(v) = *term {
            mark(marks, v);
        }
    }
}

/// Marks a variable, where the table has a place for it.
pub(crate) fn mark(marks: &mut [bool], v: u32)
    ensures { (xs : List ℕ) → AreMarks marks.old xs → AreMarks marks.new (xs ++ v ∷ []) }
{
    let place = v as usize;
    if place < marks.len() {
        marks[place] = true;
    }
}

/// Whether the variable occurs in the atoms or is listed. The marks are those of both.
pub(crate) fn has(marks: &[bool], atoms: &[Atom], listed: &[u32], v: u32) -> bool
    requires { AreMarks marks.now (vars atoms.now ++ listed.now) }
    ensures { IsTrue result ↔ (v ∈ (vars atoms.now ++ listed.now)) }
{
    match marks.get(v as usize) {
        Some(marked) => *marked,
        None => occurs(atoms, v) || listed.contains(&v),
    }
}

/// Whether the variable occurs in the atoms.
fn occurs(atoms: &[Atom], v: u32) -> bool
    ensures { IsTrue result ↔ (v ∈ vars atoms.now) }
{
    for atom in atoms {
        if is_among(atom.args.as_slice(), v) {
            return true;
        }
    }
    false
}

/// Whether the variable is among the terms.
fn is_among(terms: &[Term], v: u32) -> bool
    ensures { IsTrue result ↔ (v ∈ term_vars terms.now) }
{
    for term in terms {
        if is_variable(*term, v) {
            return true;
        }
    }
    false
}

/// Whether the term is this variable.
fn is_variable(term: Term, v: u32) -> bool
    ensures { IsTrue result ↔ (v ∈ term_vars (term ∷ [])) }
{
    match term {
        Term::Var(x) => x == v,
        Term::Fixed(_) => false,
    }
}
