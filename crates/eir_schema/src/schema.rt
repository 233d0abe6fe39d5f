//! The declared relations.
ghost use Rattle.std.specs.Prelude.{◌≡◌, ◌≤◌, ◌++◌, ◌∷◌, ◌↔◌, [], None, IsTrue, IfOk, IfErr, OnErr};
ghost use Rattle.std.specs.Prelude.{length, option_copied, option_map};
ghost use Rattle.eir_schema.specs.Schemas.{Relation, IsSchema, find_relation, name_at, column_at, number_at};
ghost use Rattle.eir_schema.specs.Schemas.{next_number, relation_at, relations_of};
ghost use Rattle.eir_schema.specs.Declarations.{refusal, told};
ghost use Rattle.eir_schema.specs.Stamps.{stamp};

use crate::columns::has_repeat;
use crate::refused::DeclareRefused;
use crate::relation::{Declaration, RelInfo};
use crate::stamp::Stamp;
use crate::summary::Summary;
use eir_term::{Memory, Side, Text};
use indexmap::IndexMap;
use std::alloc::Global;
use std::marker::Model;

/// The most columns of a relation.
const COLUMN_LIMIT: usize = 16;

/// The most relations of a side.
const RELATION_LIMIT: usize = 64;

/// The relations of the source and of the target, in the order in which they were declared (textbook).
#[derive(Drop)]
pub struct Schema {
    alloc: Global,
    declarations: IndexMap<Vec<u8>, Declaration>,
    summary: Summary,
}

impl Model for Schema {
    ghost use Rattle.std.specs.Prelude.{List};
    ghost use Rattle.eir_schema.specs.Schemas.{Relation};
    ghost use Rattle.eir_schema.specs.Tables.{declared, IsTable};

    ghost Value = { List Relation };

    ghost view = { λ s. declared s.declarations.entries };

    ghost invariant = { λ s. IsTable s.declarations.entries s.summary };
}

impl Schema {
    /// No relation.
    pub fn new(alloc: Global) -> Schema
        ensures { result ≡ [] }
    {
        Schema {
            alloc,
            declarations: IndexMap::new(alloc),
            summary: Summary::new(alloc),
        }
    }

    /// Declares a relation of a side, behind the others, and gives its number: twice the number of relations that the
    /// side had, and one more on the target side.
    pub fn declare(
        &mut self,
        side: Side,
        name: &Text,
        columns: &[Text],
    ) -> Result<u32, DeclareRefused>
        requires { 1 ≤ length columns.now }
        ensures ok { let d : Relation = record { side = side; name = name.now; columns = columns.now } in
            IfOk result (λ n. (refusal self.old d ≡ None) × (n ≡ next_number side self.old) × (self.new ≡ self.old ++ d ∷ [])) }
        ensures refused { let d : Relation = record { side = side; name = name.now; columns = columns.now } in
            IfErr result (λ e. told e ≡ refusal self.old d) }
        ensures err { OnErr result (self.new ≡ self.old) }
    {
        if let Some(refused) = self.refusal(side, name, columns) {
            return Err(refused);
        }
        let number = self.append(side, name, columns)?;
        Ok(number)
    }

    /// Why a relation may not be declared, if it may not.
    fn refusal(&self, side: Side, name: &Text, columns: &[Text]) -> Option<DeclareRefused>
        ensures { let d : Relation = record { side = side; name = name.now; columns = columns.now } in
            result ≡ refusal self.now d }
    {
        if self.find(name).is_some() || has_repeat(self.alloc, columns) {
            return Some(DeclareRefused::Taken);
        }
        if columns.len() > COLUMN_LIMIT {
            return Some(DeclareRefused::Full(COLUMN_LIMIT as u64));
        }
        if self.count(side) >= RELATION_LIMIT {
            return Some(DeclareRefused::Full(RELATION_LIMIT as u64));
        }
        None
    }

    /// Puts a relation that is not refused behind the others. What can want memory comes before the first change.
    fn append(&mut self, side: Side, name: &Text, columns: &[Text]) -> Result<u32, Memory>
        requires some { 1 ≤ length columns.now }
        requires admitted { let d : Relation = record { side = side; name = name.now; columns = columns.now } in
            refusal self.old d ≡ None }
        ensures ok { let d : Relation = record { side = side; name = name.now; columns = columns.now } in
            IfOk result (λ n. (n ≡ next_number side self.old) × (self.new ≡ self.old ++ d ∷ [])) }
        ensures err { OnErr result (self.new ≡ self.old) }
    {
        let number = self.next_number(side);
        let place = self.len();
        let key = name.bytes().to_vec(self.alloc)?;
        let declaration = Declaration::make(self.alloc, number, side, name, columns)?;
        self.declarations.reserve(1)?;
        self.summary
            .add(self.alloc, side, name, columns.len() as u32, place)?;
        self.declarations.insert(key, declaration).unwrap();
        Ok(number)
    }

    /// The number of relations of a side.
    fn count(&self, side: Side) -> usize
        ensures exact { result ≡ length (relations_of side self.now) }
        ensures few { result ≤ 64 }
    {
        self.summary.count(side)
    }

    /// The number of the relation that is declared on a side next.
    fn next_number(&self, side: Side) -> u32
        ensures { result ≡ next_number side self.now }
    {
        let on_target = match side {
            Side::Source => 0,
            Side::Target => 1,
        };
        2 * self.count(side) as u32 + on_target
    }

    /// The relation of this name.
    pub fn find(&self, name: &Text) -> Option<RelInfo>
        ensures exact { result ≡ find_relation self.now name.now }
        ensures lawful { IsSchema self.now }
    {
        let (_, _, declaration) = self.declarations.get_full(name.bytes())?;
        Some(declaration.info())
    }

    /// The name of the relation of this number.
    pub fn name_of(&self, rel: u32) -> Option<&Text>
        ensures { option_copied result ≡ name_at self.now rel }
    {
        Some(self.declaration(rel)?.name())
    }

    /// The name of the column at a place, from 0, of the relation of this number.
    pub fn column(&self, rel: u32, place: u32) -> Option<&Text>
        ensures { option_copied result ≡ column_at self.now rel place }
    {
        self.declaration(rel)?.column(place)
    }

    /// The relation of this number.
    fn declaration(&self, rel: u32) -> Option<&Declaration>
        ensures { option_map (λ d. d.now.relation) result ≡ relation_at self.now rel }
    {
        let place = self.summary.place(rel)?;
        let (_, declaration) = self.declarations.get_index(place as usize)?;
        Some(declaration)
    }

    /// The number of the relation that was declared at this place, from 0, among both sides.
    pub fn nth(&self, place: u32) -> Option<u32>
        ensures { result ≡ number_at self.now place }
    {
        let (_, declaration) = self.declarations.get_index(place as usize)?;
        Some(declaration.number())
    }

    /// The number of relations of both sides.
    pub fn len(&self) -> u32
        ensures exact { result ≡ length self.now }
        ensures lawful { IsSchema self.now }
    {
        self.declarations.len() as u32
    }

    /// The stamp: `name/arity` of the source relations joined by commas, `;`, and the same of the target relations.
    pub fn stamp(&self, alloc: Global) -> Result<Text, Memory>
        ensures { IfOk result (λ t. t ≡ stamp self.now) }
    {
        self.lent_stamp().to_text(alloc)
    }

    /// Whether both have the same stamp.
    pub fn same_stamp(&self, other: &Schema) -> bool
        ensures { IsTrue result ↔ (stamp self.now ≡ stamp other.now) }
    {
        self.lent_stamp().is_same(&other.lent_stamp())
    }

    /// The stamp, lent.
    fn lent_stamp(&self) -> Stamp
        ensures { result ≡ stamp self.now }
    {
        Stamp::new(&self.summary.source.stamp, &self.summary.target.stamp)
    }
}
