//! The texts that dependencies begin with. One that comes again is copied.
ghost use Rattle.std.specs.Prelude.{◌≡◌, ◌++◌, IfOk, OnOk, OnErr};
ghost use Rattle.eir_print.specs.Prefixes.{AppendsPrefix};
ghost use Rattle.eir_print.specs.Dependencies.{BeginsAlike, implication_text, dependency_line};

use crate::dependency::{print_implied, print_premise};
use crate::numbered::Numbered;
use eir_dep::Dep;
use eir_schema::Schema;
use eir_term::{Atom, Memory, Text};
use std::alloc::Global;
use std::marker::Model;

/// A dependency with the text of its premise, which those share that begin alike.
#[derive(Drop)]
pub(crate) struct Opening<'a> {
    numbered: Numbered<'a>,
    schema: &'a Schema,
    premise: Text,
}

impl<'a> Model for Opening<'a> {
    ghost use Rattle.std.specs.Prelude.{◌≡◌, List};
    ghost use Rattle.eir_term.specs.Dependencies.{Dependency};
    ghost use Rattle.eir_schema.specs.Schemas.{Relation};
    ghost use Rattle.eir_print.specs.Dependencies.{premise_text};

    ghost Value = { Dependency × List Relation };

    ghost view = { λ o. (o.numbered, o.schema.now) };

    ghost invariant = { λ o. o.premise ≡ premise_text o.schema.now o.numbered o.numbered.premise };
}

impl<'a> Opening<'a> {
    /// The text that this dependency begins with.
    pub(crate) fn new(
        alloc: Global,
        dep: &'a Dep,
        schema: &'a Schema,
    ) -> Result<Opening<'a>, Memory>
        ensures dep { IfOk result (λ o. o.0 ≡ dep.now) }
        ensures schema { IfOk result (λ o. o.1 ≡ schema.now) }
    {
        let numbered = Numbered::new(alloc, dep)?;
        let mut premise = Text::make(alloc, b"")?;
        print_premise(&numbered, dep.premise(), schema, &mut premise)?;
        Ok(Opening {
            numbered,
            schema,
            premise,
        })
    }

    /// Turns to a text that the dependency begins with.
    pub(crate) fn turn_to(&mut self, alloc: Global, dep: &'a Dep) -> Result<(), Memory>
        ensures alike { OnOk result (BeginsAlike self.new.0 dep.now) }
        ensures schema { self.new.1 ≡ self.old.1 }
    {
        if !self.numbered.begins_as(dep) {
            *self = Opening::new(alloc, dep, self.schema)?;
        }
        Ok(())
    }

    /// Appends a dependency that begins so, on a line.
    pub(crate) fn print_line(&self, dep: &Dep, out: &mut Text) -> Result<(), Memory>
        requires { BeginsAlike self.now.0 dep.now }
        ensures ok { OnOk result (out.new ≡ out.old ++ dependency_line self.now.1 dep.now) }
        ensures err { OnErr result (AppendsPrefix out.old out.new (dependency_line self.now.1 dep.now)) }
    {
        self.print_before(dep.conclusion(), out)?;
        out.push_all(b"\n")
    }

    /// Appends the premise, and these atoms as a conclusion.
    fn print_before(&self, conclusion: &[Atom], out: &mut Text) -> Result<(), Memory>
        ensures ok { OnOk result (out.new ≡ out.old
            ++ implication_text self.now.1 self.now.0 self.now.0.premise conclusion.now) }
        ensures err { OnErr result (AppendsPrefix out.old out.new
            (implication_text self.now.1 self.now.0 self.now.0.premise conclusion.now)) }
    {
        out.push_all(self.premise.bytes())?;
        print_implied(&self.numbered, conclusion, self.schema, out)
    }
}
