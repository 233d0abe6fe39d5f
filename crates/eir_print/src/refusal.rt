//! Refusals.
ghost use Rattle.std.specs.Prelude.{◌≡◌, ◌++◌, OnOk, OnErr};
ghost use Rattle.eir_print.specs.Prefixes.{AppendsPrefix};
ghost use Rattle.eir_print.specs.Words.{pair_line};
ghost use Rattle.eir_print.specs.Refusals.{refusal_text};

use crate::words::print_counted;
use eir_edit::EditRefused;
use eir_schema::DeclareRefused;
use eir_term::{Memory, Text};

/// Why a line is refused, in the order of the numbers that the texts begin with.
#[derive(Drop)]
pub enum Refusal {
    /// The line is not in the grammar.
    Line,
    /// The name, or a column of the declaration, is there already.
    Taken,
    /// No relation has the name.
    Relation,
    /// Another number of arguments than columns.
    Arity,
    /// A null in a fact of a source relation.
    Null,
    /// No present example has the name.
    Example,
    /// The fact stands in the instance.
    There,
    /// The fact does not stand in the instance.
    Missing,
    /// A counted quantity would go above its limit, which is given.
    Full(u64),
    /// The undo list is empty.
    Nothing,
    /// There is no such file.
    NoFile,
    /// The first record of a table that breaks the rules, counted from 1, or the header at 0.
    Table(u64),
    /// The stamps of the taker's and of the lender's schema differ.
    Foreign(Text, Text),
    /// There was no memory. It is no answer to a line, and has no text.
    Memory,
}

/// Appends a refusal: its number, its word and what it tells. Want of memory appends nothing.
///
/// # Errors
/// `Memory`, which leaves a prefix of the text behind what there was.
pub fn print_refusal(refusal: &Refusal, out: &mut Text) -> Result<(), Memory>
    ensures ok { OnOk result (out.new ≡ out.old ++ refusal_text refusal.now) }
    ensures err { OnErr result (AppendsPrefix out.old out.new (refusal_text refusal.now)) }
{
    match refusal {
        Refusal::Line => out.push_all(b"refused 1 line\n"),
        Refusal::Taken => out.push_all(b"refused 2 taken\n"),
        Refusal::Relation => out.push_all(b"refused 3 relation\n"),
        Refusal::Arity => out.push_all(b"refused 4 arity\n"),
        Refusal::Null => out.push_all(b"refused 5 null\n"),
        Refusal::Example => out.push_all(b"refused 6 example\n"),
        Refusal::There => out.push_all(b"refused 7 there\n"),
        Refusal::Missing => out.push_all(b"refused 8 missing\n"),
        Refusal::Full(limit) => print_counted(b"refused 9 full", *limit, out),
        Refusal::Nothing => out.push_all(b"refused 10 nothing\n"),
        Refusal::NoFile => out.push_all(b"refused 11 nofile\n"),
        Refusal::Table(place) => print_counted(b"refused 12 table", *place, out),
        Refusal::Foreign(mine, theirs) => { print_pair(b"refused 13 foreign ", mine, theirs, out) }
        Refusal::Memory => Ok(()),
    }
}

/// Appends a word and two texts, on a line.
fn print_pair(word: &[u8], first: &Text, second: &Text, out: &mut Text) -> Result<(), Memory>
    ensures ok { OnOk result (out.new ≡ out.old ++ pair_line word.now first.now second.now) }
    ensures err { OnErr result (AppendsPrefix out.old out.new (pair_line word.now first.now second.now)) }
{
    out.push_all(word)?;
    out.push_all(first.bytes())?;
    out.push_all(b" ")?;
    out.push_all(second.bytes())?;
    out.push_all(b"\n")
}

impl From<Memory> for Refusal {
    ghost use Rattle.std.specs.Prelude.{◌≡◌};
    ghost use Rattle.eir_print.specs.declared.refusal.Refusal.TheVariants as refusal;

    ghost from_gives = { λ _ e. e ≡ refusal.Memory };

    fn from(_: Memory) -> Self {
        Refusal::Memory
    }
}

impl From<DeclareRefused> for Refusal {
    ghost use Rattle.std.specs.Prelude.{◌≡◌};
    ghost use Rattle.eir_print.specs.Causes.{refusal_of_declaration};

    ghost from_gives = { λ refused e. e ≡ refusal_of_declaration refused };

    fn from(refused: DeclareRefused) -> Self {
        match refused {
            DeclareRefused::Taken => Refusal::Taken,
            DeclareRefused::Full(limit) => Refusal::Full(limit),
            DeclareRefused::Memory => Refusal::Memory,
        }
    }
}

impl From<EditRefused> for Refusal {
    ghost use Rattle.std.specs.Prelude.{◌≡◌};
    ghost use Rattle.eir_print.specs.Causes.{refusal_of_edit};

    ghost from_gives = { λ refused e. e ≡ refusal_of_edit refused };

    fn from(refused: EditRefused) -> Self {
        match refused {
            EditRefused::Taken => Refusal::Taken,
            EditRefused::NoExample => Refusal::Example,
            EditRefused::There => Refusal::There,
            EditRefused::Missing => Refusal::Missing,
            EditRefused::Full(limit) => Refusal::Full(limit),
            EditRefused::Nothing => Refusal::Nothing,
            EditRefused::Foreign(mine, theirs) => Refusal::Foreign(mine, theirs),
            EditRefused::Memory => Refusal::Memory,
        }
    }
}
