//! The texts of dependencies.
ghost use Rattle.std.specs.Prelude.{◌≡◌, ◌++◌, OnOk, OnErr, codes, flat_map};
ghost use Rattle.eir_print.specs.Prefixes.{AppendsPrefix};
ghost use Rattle.eir_print.specs.Words.{joined};
ghost use Rattle.eir_print.specs.Dependencies.{term_text, atom_text, premise_text, implied_text};
ghost use Rattle.eir_print.specs.Dependencies.{implication_text, dependency_text};

use crate::numbered::Numbered;
use crate::words::print_relation;
use eir_dep::Dep;
use eir_schema::Schema;
use eir_term::{Atom, Memory, Term, Text};
use std::alloc::Global;

/// Appends a dependency: its premise, an arrow, its existential variables, and its conclusion. Premise variables are
/// `x1`, `x2` and so on by first occurrence in the premise, existential ones `y1`, `y2` and so on by first occurrence
/// in the conclusion.
///
/// # Errors
/// `Memory`, which leaves a prefix of the text behind what there was.
pub fn print_dep(alloc: Global, dep: &Dep, schema: &Schema, out: &mut Text) -> Result<(), Memory>
    ensures ok { OnOk result (out.new ≡ out.old ++ dependency_text schema.now dep.now) }
    ensures err { OnErr result (AppendsPrefix out.old out.new (dependency_text schema.now dep.now)) }
{
    let numbered = Numbered::new(alloc, dep)?;
    print_implication(&numbered, dep.premise(), dep.conclusion(), schema, out)
}

/// Appends these atoms as a premise, and these as a conclusion.
fn print_implication(
    numbered: &Numbered,
    premise: &[Atom],
    conclusion: &[Atom],
    schema: &Schema,
    out: &mut Text,
) -> Result<(), Memory>
    ensures ok { OnOk result (out.new ≡ out.old
        ++ implication_text schema.now numbered.now premise.now conclusion.now) }
    ensures err { OnErr result (AppendsPrefix out.old out.new
        (implication_text schema.now numbered.now premise.now conclusion.now)) }
{
    print_premise(numbered, premise, schema, out)?;
    print_implied(numbered, conclusion, schema, out)
}

/// Appends an arrow, the existential variables, and these atoms as a conclusion.
pub(crate) fn print_implied(
    numbered: &Numbered,
    conclusion: &[Atom],
    schema: &Schema,
    out: &mut Text,
) -> Result<(), Memory>
    ensures ok { OnOk result (out.new ≡ out.old ++ implied_text schema.now numbered.now conclusion.now) }
    ensures err { OnErr result (AppendsPrefix out.old out.new
        (implied_text schema.now numbered.now conclusion.now)) }
{
    out.push_all(b" -> ")?;
    numbered.print_exists(out)?;
    print_atoms(numbered, conclusion, schema, out)
}

/// Appends the atoms of a premise, or `true` where there is none.
pub(crate) fn print_premise(
    numbered: &Numbered,
    atoms: &[Atom],
    schema: &Schema,
    out: &mut Text,
) -> Result<(), Memory>
    ensures ok { OnOk result (out.new ≡ out.old ++ premise_text schema.now numbered.now atoms.now) }
    ensures err { OnErr result (AppendsPrefix out.old out.new (premise_text schema.now numbered.now atoms.now)) }
{
    match atoms {
        [] => out.push_all(b"true"),
        [_, ..] => print_atoms(numbered, atoms, schema, out),
    }
}

/// Appends the atoms, with `&` between them.
fn print_atoms(
    numbered: &Numbered,
    atoms: &[Atom],
    schema: &Schema,
    out: &mut Text,
) -> Result<(), Memory>
    ensures ok { OnOk result (out.new ≡ out.old
        ++ joined (codes " & ") (atom_text schema.now numbered.now) atoms.now) }
    ensures err { OnErr result (AppendsPrefix out.old out.new
        (joined (codes " & ") (atom_text schema.now numbered.now) atoms.now)) }
{
    let [first, rest @ ..] = atoms else {
        return Ok(());
    };
    print_atom(numbered, first, schema, out)?;
    print_further_atoms(numbered, rest, schema, out)
}

/// Appends the atoms, with `&` in front of each.
fn print_further_atoms(
    numbered: &Numbered,
    atoms: &[Atom],
    schema: &Schema,
    out: &mut Text,
) -> Result<(), Memory>
    ensures ok { OnOk result (out.new ≡ out.old
        ++ flat_map (λ a. codes " & " ++ atom_text schema.now numbered.now a) atoms.now) }
    ensures err { OnErr result (AppendsPrefix out.old out.new
        (flat_map (λ a. codes " & " ++ atom_text schema.now numbered.now a) atoms.now)) }
{
    for atom in atoms {
        print_further_atom(numbered, atom, schema, out)?;
    }
    Ok(())
}

/// Appends `&` and the atom.
fn print_further_atom(
    numbered: &Numbered,
    atom: &Atom,
    schema: &Schema,
    out: &mut Text,
) -> Result<(), Memory>
    ensures ok { OnOk result (out.new ≡ out.old ++ (codes " & " ++ atom_text schema.now numbered.now atom.now)) }
    ensures err { OnErr result (AppendsPrefix out.old out.new
        (codes " & " ++ atom_text schema.now numbered.now atom.now)) }
{
    out.push_all(b" & ")?;
    print_atom(numbered, atom, schema, out)
}

/// Appends an atom: the name of its relation, and its terms in brackets.
fn print_atom(
    numbered: &Numbered,
    atom: &Atom,
    schema: &Schema,
    out: &mut Text,
) -> Result<(), Memory>
    ensures ok { OnOk result (out.new ≡ out.old ++ atom_text schema.now numbered.now atom.now) }
    ensures err { OnErr result (AppendsPrefix out.old out.new (atom_text schema.now numbered.now atom.now)) }
{
    print_relation(atom.rel, schema, out)?;
    out.push_all(b"(")?;
    print_terms(numbered, atom.args.as_slice(), out)?;
    out.push_all(b")")
}

/// Appends the terms, with commas between them.
fn print_terms(numbered: &Numbered, terms: &[Term], out: &mut Text) -> Result<(), Memory>
    ensures ok { OnOk result (out.new ≡ out.old ++ joined (codes ",") (term_text numbered.now) terms.now) }
    ensures err { OnErr result (AppendsPrefix out.old out.new (joined (codes ",") (term_text numbered.now) terms.now)) }
{
    let [first, rest @ ..] = terms else {
        return Ok(());
    };
    print_term(numbered, *first, out)?;
    print_further_terms(numbered, rest, out)
}

/// Appends the terms, with a comma in front of each.
fn print_further_terms(numbered: &Numbered, terms: &[Term], out: &mut Text) -> Result<(), Memory>
    ensures ok { OnOk result (out.new ≡ out.old ++ flat_map (λ t. codes "," ++ term_text numbered.now t) terms.now) }
    ensures err { OnErr result (AppendsPrefix out.old out.new
        (flat_map (λ t. codes "," ++ term_text numbered.now t) terms.now)) }
{
    for term in terms {
        print_further_term(numbered, *term, out)?;
    }
    Ok(())
}

/// Appends a comma and the term.
fn print_further_term(numbered: &Numbered, term: Term, out: &mut Text) -> Result<(), Memory>
    ensures ok { OnOk result (out.new ≡ out.old ++ (codes "," ++ term_text numbered.now term)) }
    ensures err { OnErr result (AppendsPrefix out.old out.new (codes "," ++ term_text numbered.now term)) }
{
    out.push_all(b",")?;
    print_term(numbered, term, out)
}

/// Appends a variable by its name. A fixed constant is in no dependency of a script, and has no text.
fn print_term(numbered: &Numbered, term: Term, out: &mut Text) -> Result<(), Memory>
    ensures ok { OnOk result (out.new ≡ out.old ++ term_text numbered.now term) }
    ensures err { OnErr result (AppendsPrefix out.old out.new (term_text numbered.now term)) }
{
    match term {
        Term::Var(variable) => numbered.print_variable(variable, out),
        Term::Fixed(_) => Ok(()),
    }
}
