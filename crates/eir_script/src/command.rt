//! What a line asks.
ghost use Rattle.std.specs.Prelude.{◌≡◌};

use eir_term::{Kind, Side, Text, Val};
use std::marker::Model;

/// Names of columns, in order.
#[derive(Drop)]
pub struct Columns {
    names: Vec<Text>,
}

impl Model for Columns {
    ghost use Rattle.std.specs.Prelude.{List, ℕ};

    ghost Value = { List (List ℕ) };

    ghost view = { λ c. c.names.items };
}

impl Columns {
    /// The columns with these names.
    pub(crate) fn make(names: Vec<Text>) -> Columns
        ensures { result ≡ names.items }
    {
        Columns { names }
    }

    /// The names, lent.
    pub fn as_slice(&self) -> &[Text]
        ensures { result.now ≡ self.now }
    {
        &self.names
    }
}

/// Values, in order.
#[derive(Drop)]
pub struct Values {
    items: Vec<Val>,
}

impl Model for Values {
    ghost use Rattle.std.specs.Prelude.{List};
    ghost use Rattle.eir_term.specs.declared.val.Val.{Val};

    ghost Value = { List Val };

    ghost view = { λ v. v.items.items };
}

impl Values {
    /// These values.
    pub(crate) fn make(items: Vec<Val>) -> Values
        ensures { result ≡ items.items }
    {
        Values { items }
    }

    /// The values, lent.
    pub fn as_slice(&self) -> &[Val]
        ensures { result.now ≡ self.now }
    {
        &self.items
    }
}

/// A fact whose relation stands by its name, which may not be declared.
#[derive(Drop)]
pub struct RawFact {
    pub relation: Text,
    pub args: Values,
}

/// What a line asks, constants and nulls by their numbers in the table of names.
#[derive(Drop)]
pub enum Command {
    /// A blank line, which asks nothing.
    Blank,
    /// `source R(c,..)` and `target R(c,..)`.
    Declare(Side, Text, Columns),
    /// `new E`.
    New(Text),
    /// `put E R(a,..)`.
    Put(Text, RawFact),
    /// `cut E R(a,..)`.
    Cut(Text, RawFact),
    /// `drop E`.
    Drop(Text),
    /// `undo`.
    Undo,
    /// `take NAME E`: the designer, and the example.
    Take(Text, Text),
    /// `kind glav` and `kind gav`.
    Kind(Kind),
    /// `budget N`, a number of tries from 1 to 1,000,000,000,000.
    Budget(u64),
    /// `fit`.
    Fit,
    /// `tries`.
    Tries,
    /// `reduce`.
    Reduce,
    /// `chase E`.
    Chase(Text),
    /// `cert FILE`.
    Cert(Text),
    /// `table R FILE`: the relation, and the file.
    Table(Text, Text),
    /// `exchange`.
    Exchange,
}
