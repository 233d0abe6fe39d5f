//! Whether three lists make a dependency.
ghost use Rattle.std.specs.Prelude.{◌≡◌, ◌++◌, ◌↔◌, ℕ, [], None, IfSome, IsOk, IsErrOf};
ghost use Rattle.eir_term.specs.Lists.{◌∈◌};
ghost use Rattle.eir_term.specs.Dependencies.{IsDependency, term_vars, vars};
ghost use Rattle.eir_dep.specs.declared.dep.DepRefused.{DepRefused};
ghost use Rattle.eir_dep.specs.Refusals.{dependency, IsFirst, IsFirstBadExists, IsUnbound, IsFirstUnbound, IsRefused};
ghost use Rattle.eir_dep.specs.Marks.{AreMarks, AreListable};

use crate::DepRefused;
use crate::marks::{has, mark, mark_atoms};
use eir_term::{Atom, Term};

/// Premises and conclusions of at most this many atoms are tested with small tables of marks.
const FEW: usize = 8;

/// Refuses lists that make no dependency.
pub(crate) fn check(premise: &[Atom], exists: &[u32], conclusion: &[Atom]) -> Result<(), DepRefused>
    ensures accepted { IsOk result ↔ IsDependency (dependency premise.now exists.now conclusion.now) }
    ensures refused { (cause : DepRefused) → IsErrOf result cause
        ↔ IsRefused (dependency premise.now exists.now conclusion.now) cause }
{
    if conclusion.is_empty() {
        return Err(DepRefused::Empty);
    }
    if premise.len() <= FEW && conclusion.len() <= FEW {
        check_few(premise, exists, conclusion)
    } else {
        check_many(premise, exists, conclusion)
    }
}

/// The same where there is a conclusion atom, over tables that cost little to clear.
fn check_few(premise: &[Atom], exists: &[u32], conclusion: &[Atom]) -> Result<(), DepRefused>
    requires { conclusion.now ≡ [] → ⊥ }
    ensures accepted { IsOk result ↔ IsDependency (dependency premise.now exists.now conclusion.now) }
    ensures refused { (cause : DepRefused) → IsErrOf result cause
        ↔ IsRefused (dependency premise.now exists.now conclusion.now) cause }
{
    let mut bound = [false; 64];
    let mut concluded = [false; 64];
    check_marked(&mut bound, &mut concluded, premise, exists, conclusion)
}

/// The same over tables with a place for each variable of two instances of 512 facts.
#[inline(never)]
fn check_many(premise: &[Atom], exists: &[u32], conclusion: &[Atom]) -> Result<(), DepRefused>
    requires { conclusion.now ≡ [] → ⊥ }
    ensures accepted { IsOk result ↔ IsDependency (dependency premise.now exists.now conclusion.now) }
    ensures refused { (cause : DepRefused) → IsErrOf result cause
        ↔ IsRefused (dependency premise.now exists.now conclusion.now) cause }
{
    let mut bound = [false; 16384];
    let mut concluded = [false; 16384];
    check_marked(&mut bound, &mut concluded, premise, exists, conclusion)
}

/// The same over tables that have no mark.
fn check_marked(
    bound: &mut [bool],
    concluded: &mut [bool],
    premise: &[Atom],
    exists: &[u32],
    conclusion: &[Atom],
) -> Result<(), DepRefused>
    requires some_atom { conclusion.now ≡ [] → ⊥ }
    requires none_bound { AreMarks bound.old [] }
    requires none_concluded { AreMarks concluded.old [] }
    ensures accepted { IsOk result ↔ IsDependency (dependency premise.now exists.now conclusion.now) }
    ensures refused { (cause : DepRefused) → IsErrOf result cause
        ↔ IsRefused (dependency premise.now exists.now conclusion.now) cause }
{
    mark_atoms(bound, premise);
    mark_atoms(concluded, conclusion);
    if let Some(v) = first_bad(bound, concluded, premise, exists, conclusion) {
        return Err(DepRefused::BadExists(v));
    }
    match first_unbound(bound, premise, exists, conclusion) {
        Some(v) => Err(DepRefused::Unbound(v)),
        None => Ok(()),
    }
}

/// The first listed variable that cannot be existential. Where there is none, all listed ones are marked as bound.
fn first_bad(
    bound: &mut [bool],
    concluded: &[bool],
    premise: &[Atom],
    exists: &[u32],
    conclusion: &[Atom],
) -> Option<u32>
    requires bound { AreMarks bound.old (vars premise.now) }
    requires concluded { AreMarks concluded.now (vars conclusion.now) }
    ensures bad { IfSome result (IsFirstBadExists (dependency premise.now exists.now conclusion.now)) }
    ensures listable { result ≡ None
        → AreListable (dependency premise.now exists.now conclusion.now) exists.now }
    ensures marked { result ≡ None → AreMarks bound.new (vars premise.now ++ exists.now) }
{
    for place in 0..exists.len() {
        let v = exists[place];
        if has(bound, premise, &exists[..place], v) {
            return Some(v);
        }
        if !has(concluded, conclusion, &[], v) {
            return Some(v);
        }
        mark(bound, v);
    }
    None
}

/// The first conclusion variable that is neither listed nor in the premise.
fn first_unbound(
    bound: &[bool],
    premise: &[Atom],
    exists: &[u32],
    conclusion: &[Atom],
) -> Option<u32>
    requires { AreMarks bound.now (vars premise.now ++ exists.now) }
    ensures unbound { IfSome result
        (IsFirstUnbound (dependency premise.now exists.now conclusion.now)) }
    ensures bound { result ≡ None
        → (x : ℕ) → x ∈ vars conclusion.now → x ∈ (vars premise.now ++ exists.now) }
{
    for atom in conclusion {
        if let Some(v) = first_unbound_term(bound, premise, exists, atom.args.as_slice()) {
            return Some(v);
        }
    }
    None
}

/// The first variable among these terms that is neither listed nor in the premise.
fn first_unbound_term(
    bound: &[bool],
    premise: &[Atom],
    exists: &[u32],
    terms: &[Term],
) -> Option<u32>
    requires { AreMarks bound.now (vars premise.now ++ exists.now) }
    ensures unbound { IfSome result (IsFirst
        (λ before x. IsUnbound (dependency premise.now exists.now []) x) (term_vars terms.now)) }
    ensures bound { result ≡ None
        → (x : ℕ) → x ∈ term_vars terms.now → x ∈ (vars premise.now ++ exists.now) }
{
    for term in terms {
        let Term::Var(v) = *term else {
            continue;
        };
        if !has(bound, premise, exists, v) {
            return Some(v);
        }
    }
    None
}
