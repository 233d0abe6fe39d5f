//! One declared relation.
ghost use Rattle.std.specs.Prelude.{◌≡◌, ◌<◌, ◌^◌, length, IfOk, option_copied, slice_get};

use eir_term::{Memory, Side, Text};
use std::alloc::Global;
use std::marker::Model;

/// What is told of a relation that was found by its name.
#[derive(Clone, Copy, Debug, PartialEq, Eq)]
pub struct RelInfo {
    /// Twice its place, from 0, among the declarations of its side, and one more on the target side. So it is at most 127.
    pub number: u32,
    pub side: Side,
    /// The number of its columns.
    pub arity: u32,
}

/// A relation as it was declared, with its number.
#[derive(Drop)]
pub struct Declaration {
    number: u32,
    side: Side,
    name: Text,
    columns: Vec<Text>,
}

impl Model for Declaration {
    ghost use Rattle.eir_schema.specs.Tables.{Numbered};

    ghost Value = { Numbered };

    ghost view = { λ d. record {
      number = d.number;
      relation = record { side = d.side; name = d.name; columns = d.columns.items };
    } };
}

impl Declaration {
    /// The relation of this number, side, name and columns. Name and columns are copied.
    pub fn make(
        alloc: Global,
        number: u32,
        side: Side,
        name: &Text,
        columns: &[Text],
    ) -> Result<Declaration, Memory>
        ensures number { IfOk result (λ d. d.number ≡ number) }
        ensures relation { IfOk result (λ d. d.relation ≡ record { side = side; name = name.now; columns = columns.now }) }
    {
        Ok(Declaration {
            number,
            side,
            name: Text::make(alloc, name.bytes())?,
            columns: copies(alloc, columns)?,
        })
    }

    /// The number.
    pub fn number(&self) -> u32
        ensures { result ≡ self.now.number }
    {
        self.number
    }

    /// The name.
    pub fn name(&self) -> &Text
        ensures { result.now ≡ self.now.relation.name }
    {
        &self.name
    }

    /// The name of the column at a place, from 0.
    pub fn column(&self, place: u32) -> Option<&Text>
        ensures { option_copied result ≡ slice_get self.now.relation.columns place }
    {
        self.columns.get(place as usize)
    }

    /// What is told of it.
    pub fn info(&self) -> RelInfo
        requires { length self.now.relation.columns < 2 ^ 32 }
        ensures { result ≡ record {
          number = self.now.number;
          side = self.now.relation.side;
          arity = length self.now.relation.columns;
        } }
    {
        RelInfo {
            number: self.number,
            side: self.side,
            arity: self.columns.len() as u32,
        }
    }
}

/// Copies of these texts.
fn copies(alloc: Global, texts: &[Text]) -> Result<Vec<Text>, Memory>
    ensures { IfOk result (λ copied. copied.items ≡ texts.now) }
{
    let mut copied = Vec::with_capacity(alloc, texts.len())?;
    'texts: for text in texts {
        copied.push(Text::make(alloc, text.bytes())?)?;
    }
    Ok(copied)
}
