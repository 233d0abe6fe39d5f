//! Dependencies with the numbers that their variables are printed by.
ghost use Rattle.std.specs.Prelude.{◌≡◌, ◌++◌, ◌<◌, ◌^◌, IsTrue, IfOk, OnOk, OnErr, nat_eq, codes, flat_map};
ghost use Rattle.indexmap.specs.IndexSet.{insert_all};
ghost use Rattle.eir_term.specs.Lists.{distinct, place_of};
ghost use Rattle.eir_term.specs.Dependencies.{term_vars, vars};
ghost use Rattle.eir_print.specs.Prefixes.{AppendsPrefix};
ghost use Rattle.eir_print.specs.Dependencies.{listed_text, exists_text, existential_variables};
ghost use Rattle.eir_print.specs.Dependencies.{numbered_name, variable_text, BeginsAlike};

use crate::equal::are_equal;
use crate::words::print_number;
use eir_dep::Dep;
use eir_term::{Atom, Memory, Term, Text};
use indexmap::IndexSet;
use std::alloc::Global;
use std::marker::Model;

/// A dependency whose variables have numbers by first occurrence, found by hash.
#[derive(Drop)]
pub(crate) struct Numbered<'a> {
    dep: &'a Dep,
    /// The existential variables.
    exists: IndexSet<u32>,
    /// The variables of the premise, in the order of their numbers.
    premise: IndexSet<u32>,
    /// The existential variables of the conclusion, in the order of their numbers.
    existential: IndexSet<u32>,
}

impl<'a> Model for Numbered<'a> {
    ghost use Rattle.std.specs.Prelude.{◌≡◌, nat_eq};
    ghost use Rattle.eir_term.specs.Lists.{distinct};
    ghost use Rattle.eir_term.specs.Dependencies.{Dependency};
    ghost use Rattle.eir_print.specs.Dependencies.{premise_variables, existential_variables};

    ghost Value = { Dependency };

    ghost view = { λ n. n.dep.now };

    ghost invariant = { λ n. (n.exists.keys ≡ distinct nat_eq n.dep.now.exists)
        × (n.premise.keys ≡ premise_variables n.dep.now)
        × (n.existential.keys ≡ existential_variables n.dep.now) };
}

impl Numbered<'_> {
    /// The dependency with its numbers.
    pub(crate) fn new(alloc: Global, dep: &Dep) -> Result<Numbered<'_>, Memory>
        ensures { IfOk result (λ n. n ≡ dep.now) }
    {
        let exists = numbers_in(alloc, dep.exists())?;
        let premise = variables_in(alloc, dep.premise())?;
        let mut existential = variables_in(alloc, dep.conclusion())?;
        existential.retain(|variable| exists.contains(variable));
        Ok(Numbered {
            dep,
            exists,
            premise,
            existential,
        })
    }

    /// Whether another dependency begins as this one does, which is found out where neither has an existential variable.
    pub(crate) fn begins_as(&self, dep: &Dep) -> bool
        ensures { IsTrue result → BeginsAlike self.now dep.now }
    {
        self.dep.exists().is_empty()
            && dep.exists().is_empty()
            && are_equal(self.dep.premise(), dep.premise())
    }

    /// Appends the name of a variable.
    pub(crate) fn print_variable(&self, variable: u32, out: &mut Text) -> Result<(), Memory>
        ensures ok { OnOk result (out.new ≡ out.old ++ variable_text self.now variable) }
        ensures err { OnErr result (AppendsPrefix out.old out.new (variable_text self.now variable)) }
    {
        if self.exists.contains(&variable) {
            print_numbered(b"y", place_in(&self.existential, variable), out)
        } else {
            print_numbered(b"x", place_in(&self.premise, variable), out)
        }
    }

    /// Appends the existential variables of the conclusion, where there are any.
    pub(crate) fn print_exists(&self, out: &mut Text) -> Result<(), Memory>
        ensures ok { OnOk result (out.new ≡ out.old ++ exists_text self.now (existential_variables self.now)) }
        ensures err { OnErr result (AppendsPrefix out.old out.new
            (exists_text self.now (existential_variables self.now))) }
    {
        self.print_if_any(self.existential.as_slice(), out)
    }

    /// Appends these existential variables, where there are any.
    fn print_if_any(&self, variables: &[u32], out: &mut Text) -> Result<(), Memory>
        ensures ok { OnOk result (out.new ≡ out.old ++ exists_text self.now variables.now) }
        ensures err { OnErr result (AppendsPrefix out.old out.new (exists_text self.now variables.now)) }
    {
        match variables {
            [] => Ok(()),
            [_, ..] => self.print_listed(variables, out),
        }
    }

    /// Appends `exists`, these variables, and a dot.
    fn print_listed(&self, variables: &[u32], out: &mut Text) -> Result<(), Memory>
        ensures ok { OnOk result (out.new ≡ out.old ++ listed_text self.now variables.now) }
        ensures err { OnErr result (AppendsPrefix out.old out.new (listed_text self.now variables.now)) }
    {
        out.push_all(b"exists")?;
        self.print_variables(variables, out)?;
        out.push_all(b" . ")
    }

    /// Appends the names of these variables, with a space in front of each.
    fn print_variables(&self, variables: &[u32], out: &mut Text) -> Result<(), Memory>
        ensures ok { OnOk result (out.new ≡ out.old
            ++ flat_map (λ x. codes " " ++ variable_text self.now x) variables.now) }
        ensures err { OnErr result (AppendsPrefix out.old out.new
            (flat_map (λ x. codes " " ++ variable_text self.now x) variables.now)) }
    {
        for variable in variables {
            self.print_further_variable(*variable, out)?;
        }
        Ok(())
    }

    /// Appends a space and the name of a variable.
    fn print_further_variable(&self, variable: u32, out: &mut Text) -> Result<(), Memory>
        ensures ok { OnOk result (out.new ≡ out.old ++ (codes " " ++ variable_text self.now variable)) }
        ensures err { OnErr result (AppendsPrefix out.old out.new (codes " " ++ variable_text self.now variable)) }
    {
        out.push_all(b" ")?;
        self.print_variable(variable, out)
    }
}

/// Appends a letter and the number of a place, from 1.
fn print_numbered(letter: &[u8], place: usize, out: &mut Text) -> Result<(), Memory>
    requires { place < 2 ^ 63 }
    ensures ok { OnOk result (out.new ≡ out.old ++ numbered_name letter.now place) }
    ensures err { OnErr result (AppendsPrefix out.old out.new (numbered_name letter.now place)) }
{
    out.push_all(letter)?;
    print_number(place as u64 + 1, out)
}

/// The place of a variable in the set, or the number of variables in it.
fn place_in(variables: &IndexSet<u32>, variable: u32) -> usize
    ensures exact { result ≡ place_of nat_eq variable variables.now.keys }
    ensures small { result < 2 ^ 63 }
{
    variables.get_index_of(&variable).unwrap_or(variables.len())
}

/// The distinct numbers among these, by first occurrence.
fn numbers_in(alloc: Global, numbers: &[u32]) -> Result<IndexSet<u32>, Memory>
    ensures { IfOk result (λ s. s.keys ≡ distinct nat_eq numbers.now) }
{
    let mut found = IndexSet::new(alloc);
    found.extend(numbers)?;
    Ok(found)
}

/// The variables of the atoms, by first occurrence.
fn variables_in(alloc: Global, atoms: &[Atom]) -> Result<IndexSet<u32>, Memory>
    ensures { IfOk result (λ s. s.keys ≡ distinct nat_eq (vars atoms.now)) }
{
    let mut found = IndexSet::new(alloc);
    for atom in atoms {
        insert_variables(&mut found, atom.args.as_slice())?;
    }
    Ok(found)
}

/// Puts each variable among the terms last where it is new.
fn insert_variables(found: &mut IndexSet<u32>, terms: &[Term]) -> Result<(), Memory>
    ensures { OnOk result (found.new.keys ≡ insert_all nat_eq found.old.keys (term_vars terms.now)) }
{
    for term in terms {
        if let Term::Var(variable) = *term {
            found.insert(variable)?;
        }
    }
    Ok(())
}
