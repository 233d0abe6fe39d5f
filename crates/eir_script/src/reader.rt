//! Lines of a script, read as the commands that they are.
//!
//! A command that owns something is made by a function of its own, so that a line clears no room for what other commands
//! own.
ghost use Rattle.std.specs.Prelude.{◌≡◌, ◌↔◌, ◌⊎◌, ◌++◌, ℕ, List, map, None, Some, IfOk, OnErr, IsErrOf, IsSome};
ghost use Rattle.eir_schema.specs.Names.{with_name};
ghost use Rattle.eir_script.specs.Forms.{argument_in, said_in, written_in};
ghost use Rattle.eir_script.specs.Grammar.{Argument as WrittenArgument, IsBlank, Said, Says, WrittenFact};
ghost use Rattle.eir_script.specs.Naming.{command_read, named, names_in, names_read, numbered, raw_fact, value_of};
ghost use Rattle.eir_script.specs.Reading.{argument_name, arguments_of, bad, blank, read_by, reading, said_by};

use crate::arguments::{Argument, next_argument};
use crate::blank::is_blank;
use crate::command::{Columns, Command, RawFact, Values};
use crate::form::{Atom, Form, form_of};
use eir_schema::Names;
use eir_term::{Memory, Side, Text, Val};
use std::alloc::{AllocError, AllocFailed, Global};

/// The most bytes of a line.
const LINE_LIMIT: usize = 4_096;

/// Why a line has no command.
#[derive(Clone, Copy, Debug, PartialEq, Eq)]
pub enum LineRefused {
    /// The line is not of the grammar, or has more than 4,096 bytes.
    Bad,
    /// There was no memory. Names of the line may have been put into the table.
    Memory,
}

impl From<Memory> for LineRefused {
    ghost use Rattle.std.specs.Prelude.{◌≡◌};
    ghost use Rattle.eir_script.specs.declared.reader.LineRefused.TheVariants as refused;

    ghost from_gives = { λ _ e. e ≡ refused.Memory };

    fn from(_: Memory) -> Self {
        LineRefused::Memory
    }
}

impl From<AllocError> for LineRefused {
    ghost use Rattle.std.specs.Prelude.{◌≡◌};
    ghost use Rattle.eir_script.specs.declared.reader.LineRefused.TheVariants as refused;

    ghost from_gives = { λ _ e. e ≡ refused.Memory };

    fn from(_: AllocError) -> Self {
        LineRefused::Memory
    }
}

impl<T: Drop> From<AllocFailed<T>> for LineRefused {
    ghost use Rattle.std.specs.Prelude.{◌≡◌};
    ghost use Rattle.eir_script.specs.declared.reader.LineRefused.TheVariants as refused;

    ghost from_gives = { λ _ e. e ≡ refused.Memory };

    fn from(_: AllocFailed<T>) -> Self {
        LineRefused::Memory
    }
}

/// The value of this argument, whose name is numbered.
fn value_in(argument: Argument<'_>, names: &mut Names) -> Result<Val, Memory>
    ensures ok { IfOk result (λ v. (names.new ≡ with_name names.old (argument_name (argument_in argument.entry)))
        × (v ≡ value_of names.new (argument_in argument.entry))) }
    ensures err { OnErr result (names.new ≡ names.old) }
{
    match argument {
        Argument::Constant(name) => Ok(Val::Const(names.number(name)?)),
        Argument::Labelled(name) => Ok(Val::Null(names.number(name)?)),
    }
}

/// The values of the arguments of an atom, whose names are numbered in turn.
fn values_of(alloc: Global, atom: Atom<'_>, names: &mut Names) -> Result<Values, LineRefused>
    ensures read { IfOk result (λ vs. (all : List WrittenArgument)
        × (read_by arguments_of atom.entry.arguments.now ≡ Some all)
        × (names.new ≡ named names.old (map argument_name all)) × (vs ≡ map (value_of names.new) all)) }
    ensures bad { IsErrOf result LineRefused.Bad → read_by arguments_of atom.entry.arguments.now ≡ None }
    ensures grown { OnErr result ((more : List (List ℕ)) × (names.new ≡ names.old ++ more)) }
{
    let mut values = Vec::with_capacity(alloc, atom.count)?;
    let mut left = Some(atom.arguments);
    'left: while let Some(rest) = left {
        let (argument, behind) = next_argument(rest).ok_or(LineRefused::Bad)?;
        values.push(value_in(argument, names)?)?;
        left = behind;
    }
    Ok(Values::make(values))
}

/// The names of the arguments of an atom.
fn columns_of(alloc: Global, atom: Atom<'_>) -> Result<Columns, LineRefused>
    ensures read { IfOk result (λ cs. (all : List WrittenArgument)
        × (read_by arguments_of atom.entry.arguments.now ≡ Some all)
        × (cs ≡ map argument_name all)) }
    ensures bad { IsErrOf result LineRefused.Bad → read_by arguments_of atom.entry.arguments.now ≡ None }
{
    let mut columns = Vec::with_capacity(alloc, atom.count)?;
    let mut left = Some(atom.arguments);
    'left: while let Some(rest) = left {
        let (argument, behind) = next_argument(rest).ok_or(LineRefused::Bad)?;
        columns.push(Text::make(alloc, argument.name())?)?;
        left = behind;
    }
    Ok(Columns::make(columns))
}

/// The fact of an atom, whose names are numbered.
fn fact_of(alloc: Global, atom: Atom<'_>, names: &mut Names) -> Result<RawFact, LineRefused>
    ensures read { IfOk result (λ f. (w : WrittenFact) × (written_in atom.entry ≡ Some w)
        × (names.new ≡ named names.old (map argument_name w.arguments)) × (f ≡ raw_fact names.new w)) }
    ensures bad { IsErrOf result LineRefused.Bad → written_in atom.entry ≡ None }
    ensures grown { OnErr result ((more : List (List ℕ)) × (names.new ≡ names.old ++ more)) }
{
    let relation = Text::make(alloc, atom.relation)?;
    let args = values_of(alloc, atom, names)?;
    Ok(RawFact { relation, args })
}

/// The declaration of an atom for this side.
#[inline(never)]
fn declare_command(alloc: Global, side: Side, atom: Atom<'_>) -> Result<Command, LineRefused>
    ensures read { IfOk result (λ c. (all : List WrittenArgument)
        × (read_by arguments_of atom.entry.arguments.now ≡ Some all)
        × (c ≡ Command.Declare side atom.entry.relation.now (map argument_name all))) }
    ensures bad { IsErrOf result LineRefused.Bad → read_by arguments_of atom.entry.arguments.now ≡ None }
{
    let relation = Text::make(alloc, atom.relation)?;
    let columns = columns_of(alloc, atom)?;
    Ok(Command::Declare(side, relation, columns))
}

/// The command that puts a fact, whose names are numbered.
#[inline(never)]
fn put_command(
    alloc: Global,
    example: &[u8],
    atom: Atom<'_>,
    names: &mut Names,
) -> Result<Command, LineRefused>
    ensures read { IfOk result (λ c. (w : WrittenFact) × (written_in atom.entry ≡ Some w)
        × (names.new ≡ named names.old (map argument_name w.arguments))
        × (c ≡ Command.Put example.now (raw_fact names.new w))) }
    ensures bad { IsErrOf result LineRefused.Bad → written_in atom.entry ≡ None }
    ensures grown { OnErr result ((more : List (List ℕ)) × (names.new ≡ names.old ++ more)) }
{
    let example = Text::make(alloc, example)?;
    let fact = fact_of(alloc, atom, names)?;
    Ok(Command::Put(example, fact))
}

/// The command that cuts a fact, whose names are numbered.
#[inline(never)]
fn cut_command(
    alloc: Global,
    example: &[u8],
    atom: Atom<'_>,
    names: &mut Names,
) -> Result<Command, LineRefused>
    ensures read { IfOk result (λ c. (w : WrittenFact) × (written_in atom.entry ≡ Some w)
        × (names.new ≡ named names.old (map argument_name w.arguments))
        × (c ≡ Command.Cut example.now (raw_fact names.new w))) }
    ensures bad { IsErrOf result LineRefused.Bad → written_in atom.entry ≡ None }
    ensures grown { OnErr result ((more : List (List ℕ)) × (names.new ≡ names.old ++ more)) }
{
    let example = Text::make(alloc, example)?;
    let fact = fact_of(alloc, atom, names)?;
    Ok(Command::Cut(example, fact))
}

/// The command that makes an example.
#[inline(never)]
fn new_command(alloc: Global, example: &[u8]) -> Result<Command, LineRefused>
    ensures made { IfOk result (λ c. c ≡ Command.New example.now) }
    ensures well_formed { IsErrOf result LineRefused.Bad → ⊥ }
{
    Ok(Command::New(Text::make(alloc, example)?))
}

/// The command that drops an example.
#[inline(never)]
fn drop_command(alloc: Global, example: &[u8]) -> Result<Command, LineRefused>
    ensures made { IfOk result (λ c. c ≡ Command.Drop example.now) }
    ensures well_formed { IsErrOf result LineRefused.Bad → ⊥ }
{
    Ok(Command::Drop(Text::make(alloc, example)?))
}

/// The command that takes an example from a designer.
#[inline(never)]
fn take_command(alloc: Global, designer: &[u8], example: &[u8]) -> Result<Command, LineRefused>
    ensures made { IfOk result (λ c. c ≡ Command.Take designer.now example.now) }
    ensures well_formed { IsErrOf result LineRefused.Bad → ⊥ }
{
    let designer = Text::make(alloc, designer)?;
    let example = Text::make(alloc, example)?;
    Ok(Command::Take(designer, example))
}

/// The command that chases an example.
#[inline(never)]
fn chase_command(alloc: Global, example: &[u8]) -> Result<Command, LineRefused>
    ensures made { IfOk result (λ c. c ≡ Command.Chase example.now) }
    ensures well_formed { IsErrOf result LineRefused.Bad → ⊥ }
{
    Ok(Command::Chase(Text::make(alloc, example)?))
}

/// The command that asks for a certificate.
#[inline(never)]
fn cert_command(alloc: Global, file: &[u8]) -> Result<Command, LineRefused>
    ensures made { IfOk result (λ c. c ≡ Command.Cert file.now) }
    ensures well_formed { IsErrOf result LineRefused.Bad → ⊥ }
{
    Ok(Command::Cert(Text::make(alloc, file)?))
}

/// The command that reads a table.
#[inline(never)]
fn table_command(alloc: Global, relation: &[u8], file: &[u8]) -> Result<Command, LineRefused>
    ensures made { IfOk result (λ c. c ≡ Command.Table relation.now file.now) }
    ensures well_formed { IsErrOf result LineRefused.Bad → ⊥ }
{
    let relation = Text::make(alloc, relation)?;
    let file = Text::make(alloc, file)?;
    Ok(Command::Table(relation, file))
}

/// The command of this form.
fn command_of(alloc: Global, form: Form<'_>, names: &mut Names) -> Result<Command, LineRefused>
    requires { IsSome (said_in form) }
    ensures read { IfOk result (λ c. (s : Said) × (said_in form.entry ≡ Some s)
        × (names.new ≡ named names.old (names_in s)) × (c ≡ numbered names.new s)) }
    ensures bad { IsErrOf result LineRefused.Bad → said_in form.entry ≡ None }
    ensures grown { OnErr result ((more : List (List ℕ)) × (names.new ≡ names.old ++ more)) }
{
    match form {
        Form::Declare(side, atom) => declare_command(alloc, side, atom),
        Form::New(example) => new_command(alloc, example),
        Form::Put(example, atom) => put_command(alloc, example, atom, names),
        Form::Cut(example, atom) => cut_command(alloc, example, atom, names),
        Form::Drop(example) => drop_command(alloc, example),
        Form::Undo => Ok(Command::Undo),
        Form::Take(designer, example) => take_command(alloc, designer, example),
        Form::Kind(kind) => Ok(Command::Kind(kind)),
        Form::Budget(tries) => Ok(Command::Budget(tries)),
        Form::Fit => Ok(Command::Fit),
        Form::Tries => Ok(Command::Tries),
        Form::Reduce => Ok(Command::Reduce),
        Form::Chase(example) => chase_command(alloc, example),
        Form::Cert(file) => cert_command(alloc, file),
        Form::Table(relation, file) => table_command(alloc, relation, file),
        Form::Exchange => Ok(Command::Exchange),
    }
}

/// The command of a line that is not blank, whose names are numbered.
#[inline(never)]
fn read_command(alloc: Global, line: &[u8], names: &mut Names) -> Result<Command, LineRefused>
    ensures read { IfOk result (λ c. (s : Said) × (read_by said_by line.now ≡ Some s)
        × (names.new ≡ named names.old (names_in s)) × (c ≡ numbered names.new s)) }
    ensures bad { (result ≡ Err LineRefused.Bad) ↔ (read_by said_by line.now ≡ None) }
    ensures unnamed { result ≡ Err LineRefused.Bad → names.new ≡ names.old }
    ensures grown { OnErr result ((more : List (List ℕ)) × (names.new ≡ names.old ++ more)) }
{
    match form_of(line) {
        Some(form) => command_of(alloc, form, names),
        None => Err(LineRefused::Bad),
    }
}

/// What the line asks. The names of its constants and nulls are put into the table, in order. A line that is not of
/// the grammar is found bad before any of them is, and takes no memory; nor does a blank one.
///
/// # Errors
///
/// `Bad` exactly where the line is not of the grammar or has more than 4,096 bytes; the table is as it was.
/// `Memory` where there was none; the table may have grown at its end.
pub fn read_line(alloc: Global, line: &[u8], names: &mut Names) -> Result<Command, LineRefused>
    ensures read { IfOk result (λ c. (names.new ≡ named names.old (names_read (reading line.now)))
        × (command_read names.new (reading line.now) ≡ Some c)) }

    // What is read is what the line says.
    ensures said { IfOk result (λ c. ((c ≡ Command.Blank) × IsBlank line.now)
        ⊎ ((s : Said) × Says line.now s × (c ≡ numbered names.new s))) }

    ensures bad { (result ≡ Err LineRefused.Bad) ↔ (reading line.now ≡ bad) }
    ensures blank { reading line.now ≡ blank → result ≡ Ok Command.Blank }

    // A bad line says nothing, is not blank, and numbers no name.
    ensures unsaid { result ≡ Err LineRefused.Bad →
        ((s : Said) → Says line.now s → ⊥) × (IsBlank line.now → ⊥) × (names.new ≡ names.old) }

    ensures grown { OnErr result ((more : List (List ℕ)) × (names.new ≡ names.old ++ more)) }
{
    if line.len() > LINE_LIMIT {
        return Err(LineRefused::Bad);
    }
    if is_blank(line) {
        return Ok(Command::Blank);
    }
    read_command(alloc, line, names)
}
