//! The texts of numbers, names and values.
ghost use Rattle.std.specs.Prelude.{◌≡◌, ◌++◌, OnOk, OnErr, decimal};
ghost use Rattle.eir_print.specs.Prefixes.{AppendsPrefix};
ghost use Rattle.eir_print.specs.Words.{counted_line, kind_text, name_text, relation_text};

use eir_schema::{Names, Schema};
use eir_term::{Kind, Memory, Text};
use itoa::Buffer;

/// Appends a number in decimal digits.
pub(crate) fn print_number(number: u64, out: &mut Text) -> Result<(), Memory>
    ensures ok { OnOk result (out.new ≡ out.old ++ decimal number) }
    ensures err { OnErr result (AppendsPrefix out.old out.new (decimal number)) }
{
    let mut buffer = Buffer::new();
    out.push_all(buffer.format(number).as_bytes())
}

/// Appends a word and a number, on a line.
pub(crate) fn print_counted(word: &[u8], count: u64, out: &mut Text) -> Result<(), Memory>
    ensures ok { OnOk result (out.new ≡ out.old ++ counted_line word.now count) }
    ensures err { OnErr result (AppendsPrefix out.old out.new (counted_line word.now count)) }
{
    out.push_all(word)?;
    out.push_all(b" ")?;
    print_number(count, out)?;
    out.push_all(b"\n")
}

/// The word of a kind.
pub(crate) fn kind_word(kind: Kind) -> &'static [u8]
    ensures { result.now ≡ kind_text kind }
{
    match kind {
        Kind::Glav => b"glav",
        Kind::Gav => b"gav",
    }
}

/// Appends the name with this number.
pub(crate) fn print_name(number: u64, names: &Names, out: &mut Text) -> Result<(), Memory>
    ensures ok { OnOk result (out.new ≡ out.old ++ name_text names.now number) }
    ensures err { OnErr result (AppendsPrefix out.old out.new (name_text names.now number)) }
{
    out.push_all(names.text(number).unwrap_or(b""))
}

/// Appends the name of a relation.
pub(crate) fn print_relation(rel: u32, schema: &Schema, out: &mut Text) -> Result<(), Memory>
    ensures ok { OnOk result (out.new ≡ out.old ++ relation_text schema.now rel) }
    ensures err { OnErr result (AppendsPrefix out.old out.new (relation_text schema.now rel)) }
{
    match schema.name_of(rel) {
        Some(name) => out.push_all(name.bytes()),
        None => Ok(()),
    }
}
