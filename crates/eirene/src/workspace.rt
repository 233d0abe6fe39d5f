//! The state of a run.
ghost use Rattle.std.specs.Prelude.{◌≡◌, ◌⊎◌, ◌≤◌, false, None, Some, Err, IfErr, IfOk, OnOk, OnErr, length};
ghost use Rattle.std.specs.List.{list_any};
ghost use Rattle.eir_term.specs.Values.{is_null};
ghost use Rattle.eir_schema.specs.Schemas.{find_relation};
ghost use Rattle.eir_edit.specs.Causes.{first_cause};
ghost use Rattle.eir_edit.specs.Edits.{is_null_in_source};
ghost use Rattle.eir_edit.specs.State as state;
ghost use Rattle.eir_edit.specs.State.{fact_of, fact_tests, relation_of};
ghost use Rattle.eirene.specs.Workspaces.{empty_workspace, kind_of};
ghost use Rattle.eir_print.specs.Causes.{IsCaused};
ghost use Rattle.eir_print.specs.declared.refusal.Refusal.TheVariants as refusal;
ghost use Rattle.eirene.specs.Replies.{Request, act, after, answer, done, fit, given, next, next_by, reply_by, reply_to, request_of};
ghost use Rattle.eirene.specs.Answers.{IsAnswer, IsFilledCommand, IsRefused, IsReply};
ghost use Rattle.eirene.specs.Versions.{HasVersions};

use crate::verdict::verdict_on;
use eir_edit::{Examples, Versions};
use eir_print::{Refusal, Reply};
use eir_schema::{Names, Schema};
use eir_script::{Command, LineRefused, RawFact, read_line};
use eir_term::{Fact, Kind, Side, Text, Val};
use std::alloc::Global;
use std::marker::Model;

/// The table of names, the schema, the examples with their undo list, the kind of mapping that is asked for, and the
/// number of versions drawn.
#[derive(Drop)]
pub struct Workspace {
    alloc: Global,
    pub names: Names,
    pub schema: Schema,
    pub examples: Examples,
    kind: Kind,
    versions: Versions,
}

impl Model for Workspace {
    ghost use Rattle.eirene.specs.Workspaces.{Workspace as State, first_budget};

    ghost Value = { State };

    ghost view = { λ w. record {
      names = w.names;
      work = record {
        drawn = w.versions;
        desk = record { schema = w.schema; history = w.examples; kind = w.kind; budget = first_budget; limit = 512 };
      };
    } };
}

impl Workspace {
    /// No name, no relation and no example; the kind is GLAV.
    pub fn new(alloc: Global) -> Workspace
        ensures { result ≡ empty_workspace }
    {
        Workspace {
            alloc,
            names: Names::new(alloc),
            schema: Schema::new(alloc),
            examples: Examples::new(alloc),
            kind: Kind::Glav,
            versions: Versions::new(),
        }
    }

    /// Answers a line. A blank one has no reply.
    pub fn answer(&mut self, line: &[u8]) -> Result<Option<Reply>, Refusal>
        requires { HasVersions self.old 1 }
        ensures answer { IsAnswer result (reply_to line.now self.old) (kind_of self.new) }
        ensures next { (result ≡ Err refusal.Memory) ⊎ (self.new ≡ next line.now self.old) }
    {
        match read_line(self.alloc, line, &mut self.names) {
            Ok(command) => self.apply(&command),
            Err(LineRefused::Bad) => Err(Refusal::Line),
            Err(LineRefused::Memory) => Err(Refusal::Memory),
        }
    }

    /// Does what a command asks, or refuses it. A blank one has no reply.
    #[inline(never)]
    fn apply(&mut self, command: &Command) -> Result<Option<Reply>, Refusal>
        requires versions { HasVersions self.old 1 }
        requires filled { IsFilledCommand command.now }
        ensures answer { IsAnswer result (reply_by (Some command.now) self.old) (kind_of self.new) }
        ensures next { (result ≡ Err refusal.Memory) ⊎ (self.new ≡ next_by (Some command.now) self.old) }
    {
        match command {
            Command::Blank => Ok(None),
            Command::Fit => Ok(Some(self.fit()?)),
            _ => {
                self.act(command)?;
                Ok(Some(Reply::Done))
            }
        }
    }

    /// The verdict on the present examples, each of which gets the index of its facts first.
    #[inline(never)]
    fn fit(&mut self) -> Result<Reply, Refusal>
        ensures reply { IfOk result (λ r. IsReply r (answer (Some fit) self.old) (kind_of self.new)) }
        ensures memory { IfErr result (λ e. e ≡ refusal.Memory) }
        ensures same { self.new ≡ self.old }
    {
        self.examples.settle()?;
        let found = verdict_on(self.alloc, self.kind, self.examples.list())?;
        match Box::new(self.alloc, found) {
            Ok(found) => Ok(Reply::Verdict(self.kind, found)),
            Err(_) => Err(Refusal::Memory),
        }
    }

    /// Does what a command other than a fit asks, or refuses it for the first cause that holds.
    #[inline(never)]
    fn act(&mut self, command: &Command) -> Result<(), Refusal>
        requires versions { HasVersions self.old 1 }
        requires filled { IsFilledCommand command.now }
        requires other { command.now ≡ Command.Fit → ⊥ }
        ensures ok { OnOk result ((answer (request_of command.now) self.old ≡ done)
            × (self.new ≡ after (request_of command.now) self.old)) }
        ensures refused { IfErr result (λ e. IsRefused e (request_of command.now) self.old) }
        ensures err { OnErr result (self.new ≡ self.old) }
    {
        match command {
            Command::Declare(side, name, columns) => self.declare(*side, name, columns.as_slice()),
            Command::New(name) => self.add(name),
            Command::Put(name, raw) => self.put(name, raw),
            Command::Cut(name, raw) => self.cut(name, raw),
            Command::Drop(name) => self.drop_one(name),
            Command::Undo => self.undo(),
            Command::Kind(kind) => {
                self.kind = *kind;
                Ok(())
            }
            _ => Err(Refusal::Line),
        }
    }

    /// Declares a relation.
    fn declare(&mut self, side: Side, name: &Text, columns: &[Text]) -> Result<(), Refusal>
        requires { 1 ≤ length columns.now }
        ensures ok { let asked = Some (act (state.declare side name.now columns.now)) in
            OnOk result ((answer asked self.old ≡ done) × (self.new ≡ after asked self.old)) }
        ensures refused { let asked = Some (act (state.declare side name.now columns.now)) in
            IfErr result (λ e. IsRefused e asked self.old) }
        ensures err { OnErr result (self.new ≡ self.old) }
    {
        self.schema.declare(side, name, columns)?;
        Ok(())
    }

    /// Adds an example.
    fn add(&mut self, name: &Text) -> Result<(), Refusal>
        requires { HasVersions self.old 1 }
        ensures ok { let asked = Some (act (state.add name.now)) in
            OnOk result ((answer asked self.old ≡ done) × (self.new ≡ after asked self.old)) }
        ensures refused { let asked = Some (act (state.add name.now)) in
            IfErr result (λ e. IsRefused e asked self.old) }
        ensures err { OnErr result (self.new ≡ self.old) }
    {
        self.examples.add(&mut self.versions, name)?;
        Ok(())
    }

    /// Puts a fact into the example of this name.
    fn put(&mut self, name: &Text, raw: &RawFact) -> Result<(), Refusal>
        requires { HasVersions self.old 1 }
        ensures ok { let asked = Some (act (state.put name.now (given raw.now))) in
            OnOk result ((answer asked self.old ≡ done) × (self.new ≡ after asked self.old)) }
        ensures refused { let asked = Some (act (state.put name.now (given raw.now))) in
            IfErr result (λ e. IsRefused e asked self.old) }
        ensures err { OnErr result (self.new ≡ self.old) }
    {
        let (side, fact) = self.fact(raw)?;
        self.examples.put(&mut self.versions, name, side, fact)?;
        Ok(())
    }

    /// Takes a fact out of the example of this name.
    fn cut(&mut self, name: &Text, raw: &RawFact) -> Result<(), Refusal>
        requires { HasVersions self.old 1 }
        ensures ok { let asked = Some (act (state.cut name.now (given raw.now))) in
            OnOk result ((answer asked self.old ≡ done) × (self.new ≡ after asked self.old)) }
        ensures refused { let asked = Some (act (state.cut name.now (given raw.now))) in
            IfErr result (λ e. IsRefused e asked self.old) }
        ensures err { OnErr result (self.new ≡ self.old) }
    {
        let (side, fact) = self.fact(raw)?;
        self.examples.cut(&mut self.versions, name, side, &fact)?;
        Ok(())
    }

    /// Drops an example.
    fn drop_one(&mut self, name: &Text) -> Result<(), Refusal>
        ensures ok { let asked = Some (act (state.drop name.now)) in
            OnOk result ((answer asked self.old ≡ done) × (self.new ≡ after asked self.old)) }
        ensures refused { let asked = Some (act (state.drop name.now)) in
            IfErr result (λ e. IsRefused e asked self.old) }
        ensures err { OnErr result (self.new ≡ self.old) }
    {
        self.examples.drop_one(name)?;
        Ok(())
    }

    /// Undoes the last edit that is not yet undone.
    fn undo(&mut self) -> Result<(), Refusal>
        ensures ok { let asked = Some (act state.undo_last) in
            OnOk result ((answer asked self.old ≡ done) × (self.new ≡ after asked self.old)) }
        ensures refused { IfErr result (λ e. IsRefused e (Some (act state.undo_last)) self.old) }
        ensures err { OnErr result (self.new ≡ self.old) }
    {
        self.examples.undo()?;
        Ok(())
    }

    /// The fact that is written, with the side of its relation. It is refused where there is no such relation, for
    /// another number of arguments, and for a null in a source fact, in this order.
    fn fact(&self, raw: &RawFact) -> Result<(Side, Fact), Refusal>
        ensures ok { IfOk result (λ r. (first_cause (fact_tests (given raw.now) self.now.work.desk.schema) ≡ None)
            × (r.0 ≡ (relation_of (given raw.now) self.now.work.desk.schema).side)
            × (r.1 ≡ fact_of (given raw.now) self.now.work.desk.schema)
            × (is_null_in_source r.0 r.1.args ≡ false)) }
        ensures refused { IfErr result
            (λ e. IsCaused e (first_cause (fact_tests (given raw.now) self.now.work.desk.schema))) }
    {
        let Some(relation) = self.schema.find(&raw.relation) else {
            return Err(Refusal::Relation);
        };
        let values = raw.args.as_slice();
        if values.len() != relation.arity as usize {
            return Err(Refusal::Arity);
        }
        if is_null_in_source(relation.side, values) {
            return Err(Refusal::Null);
        }
        let fact = Fact::make(self.alloc, relation.number, values)?;
        Ok((relation.side, fact))
    }
}

/// Whether the relation is of the source and a value is a null.
fn is_null_in_source(side: Side, values: &[Val]) -> bool
    ensures { result ≡ is_null_in_source side values.now }
{
    match side {
        Side::Source => has_null(values),
        Side::Target => false,
    }
}

/// Whether a value is a null.
fn has_null(values: &[Val]) -> bool
    ensures { result ≡ list_any is_null values.now }
{
    values.iter().any(|value| value.is_null())
}
