//! What is kept of the relations of each side beside the relations.
ghost use Rattle.std.specs.Prelude.{◌≡◌, ◌++◌, ◌/◌, [], IfOk, OnOk, OnErr, codes, decimal, length, slice_get};
ghost use Rattle.eir_schema.specs.Schemas.{side_with};
ghost use Rattle.eir_schema.specs.Tables.{separator, places_on, AddsStamp, AddsTo, IsSame, SumsUp};

use eir_term::{Memory, Side, Text};
use itoa::Buffer;
use std::alloc::Global;

/// What is kept of the relations of one side.
#[derive(Drop)]
pub struct SideSummary {
    /// Their places in the order of declaration, among both sides, from 0.
    pub places: Vec<u32>,
    /// Their stamps, joined by commas.
    pub stamp: Vec<u8>,
}

/// What is kept of the relations of each side.
#[derive(Drop)]
pub struct Summary {
    pub source: SideSummary,
    pub target: SideSummary,
}

impl Summary {
    /// Of no relation.
    pub fn new(alloc: Global) -> Summary
        ensures { SumsUp [] result }
    {
        Summary {
            source: SideSummary::new(alloc),
            target: SideSummary::new(alloc),
        }
    }

    /// The number of relations of a side.
    pub fn count(&self, side: Side) -> usize
        ensures { result ≡ length (places_on side self.now) }
    {
        self.side(side).places.len()
    }

    /// The place at which the relation of this number was declared. Even numbers are of the source.
    pub fn place(&self, number: u32) -> Option<u32>
        ensures { result ≡ slice_get (places_on (side_with number) self.now) (number / 2) }
    {
        let side = if number % 2 == 0 {
            Side::Source
        } else {
            Side::Target
        };
        self.side(side).places.get((number / 2) as usize).copied()
    }

    /// What is kept of a side.
    fn side(&self, side: Side) -> &SideSummary
        ensures { result.now.places.items ≡ places_on side self.now }
    {
        match side {
            Side::Source => &self.source,
            Side::Target => &self.target,
        }
    }

    /// One relation more, behind the others, declared at this place. Without memory all stays.
    pub fn add(
        &mut self,
        alloc: Global,
        side: Side,
        name: &Text,
        arity: u32,
        place: u32,
    ) -> Result<(), Memory>
        ensures ok { OnOk result (AddsTo side self.old self.new name.now arity place) }
        ensures err { OnErr result (IsSame self.old.source self.new.source × IsSame self.old.target self.new.target) }
    {
        match side {
            Side::Source => self.source.add(alloc, name, arity, place),
            Side::Target => self.target.add(alloc, name, arity, place),
        }
    }
}

impl SideSummary {
    /// Of no relation.
    fn new(alloc: Global) -> SideSummary
        ensures places { result.places.items ≡ [] }
        ensures stamp { result.stamp.items ≡ [] }
    {
        SideSummary {
            places: Vec::new(alloc),
            stamp: Vec::new(alloc),
        }
    }

    /// One relation more, declared at this place. Without memory all stays.
    fn add(&mut self, alloc: Global, name: &Text, arity: u32, place: u32) -> Result<(), Memory>
        ensures ok { OnOk result (AddsStamp self.old self.new name.now arity place) }
        ensures err { OnErr result (IsSame self.old self.new) }
    {
        let part = part_of_stamp(alloc, !self.places.is_empty(), name, arity)?;
        self.places.reserve(1)?;
        self.stamp.extend_from_slice(part.bytes())?;
        self.places.push_reserved(place);
        Ok(())
    }
}

/// What a relation adds to the stamp of its side, behind others or as the first.
fn part_of_stamp(alloc: Global, follows: bool, name: &Text, arity: u32) -> Result<Text, Memory>
    ensures { IfOk result (λ part. part ≡ separator follows ++ (name.now ++ codes "/" ++ decimal arity)) }
{
    let separator: &[u8] = if follows { b"," } else { b"" };
    let mut part = Text::make(alloc, separator)?;
    part.push_all(name.bytes())?;
    part.push_all(b"/")?;
    let mut digits = Buffer::new();
    part.push_all(digits.format(arity).as_bytes())?;
    Ok(part)
}
