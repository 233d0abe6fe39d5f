//! The form of a line.
//!
//! A form that has parts is made by a function of its own, so that a line clears no room for the parts of other forms.
ghost use Rattle.std.specs.Prelude.{◌≡◌, ℕ, List, Some, IfSome, IsSome, option_and_then};
ghost use Rattle.std.specs.List.{list_any};
ghost use Rattle.eir_script.specs.Forms.{IsAtom, fact_in, said_in, written_in};
ghost use Rattle.eir_script.specs.Grammar.{Said, WrittenFact};
ghost use Rattle.eir_script.specs.Reading.{alone, declaration_of, example_and_fact, fact_of, read_by};
ghost use Rattle.eir_script.specs.Reading.{said_after, said_by};

use crate::arguments::list_shape;
use crate::keyword::{Keyword, keyword_of};
use crate::number::{budget_of, kind_of};
use crate::parts::{first_word, is_end, one_word, two_words};
use crate::token::{Scanned, Sign, Token, next_token};
use eir_term::{Kind, Side};

/// A relation by its name, with what stands behind its opening bracket: a list of arguments up to the end of the line.
#[derive(Clone, Copy)]
pub struct Atom<'a> {
    pub relation: &'a [u8],
    pub arguments: &'a [u8],
    /// The number of the arguments, and whether one of them is a null.
    pub count: usize,
    pub has_null: bool,
}

/// A line of the grammar, whose parts are lent from it.
#[derive(Clone, Copy)]
pub enum Form<'a> {
    /// The arguments of the atom, none of them a null, are the columns.
    Declare(Side, Atom<'a>),
    New(&'a [u8]),
    Put(&'a [u8], Atom<'a>),
    Cut(&'a [u8], Atom<'a>),
    Drop(&'a [u8]),
    Undo,
    Take(&'a [u8], &'a [u8]),
    Kind(Kind),
    Budget(u64),
    Fit,
    Tries,
    Reduce,
    Chase(&'a [u8]),
    Cert(&'a [u8]),
    Table(&'a [u8], &'a [u8]),
    Exchange,
}

/// The relation and arguments that the bytes are.
fn atom_of(bytes: &[u8]) -> Option<Atom<'_>>
    ensures read { option_and_then written_in result ≡ read_by fact_of bytes.now }
    ensures whole { IfSome result IsAtom }
{
    let (relation, rest) = first_word(bytes)?;
    let Scanned::Next(Token::Mark(Sign::OpenBracket), arguments) = next_token(rest) else {
        return None;
    };
    let shape = list_shape(arguments)?;
    Some(Atom {
        relation,
        arguments,
        count: shape.count,
        has_null: shape.has_null,
    })
}

/// A declaration for this side.
#[inline(never)]
fn declaration(side: Side, bytes: &[u8]) -> Option<Form<'_>>
    ensures read { option_and_then said_in result ≡ read_by (declaration_of side) bytes.now }
    ensures whole { IfSome result (λ f. IsSome (said_in f)) }
{
    let atom = atom_of(bytes)?;
    if atom.has_null {
        return None;
    }
    Some(Form::Declare(side, atom))
}

/// An example and a fact.
fn example_and_fact(bytes: &[u8]) -> Option<(&[u8], Atom<'_>)>
    ensures read { (f : List ℕ → WrittenFact → Said) →
        option_and_then (fact_in f) result ≡ read_by (example_and_fact f) bytes.now }
    ensures whole { IfSome result (λ p. IsAtom p.1) }
{
    let (example, rest) = first_word(bytes)?;
    let atom = atom_of(rest)?;
    Some((example, atom))
}

/// This form, where nothing follows.
#[inline(never)]
fn alone<'a>(form: Form<'a>, bytes: &[u8]) -> Option<Form<'a>>
    requires { IsSome (said_in form) }
    ensures read { (s : Said) → said_in form.entry ≡ Some s →
        option_and_then said_in result ≡ read_by (alone s) bytes.now }
    ensures whole { IfSome result (λ f. IsSome (said_in f)) }
{
    if is_end(bytes) { Some(form) } else { None }
}

/// The form that begins with `new`, by the bytes behind this word.
#[inline(never)]
fn new_form(bytes: &[u8]) -> Option<Form<'_>>
    ensures read { option_and_then said_in result ≡ read_by (said_after Keyword.New) bytes.now }
    ensures whole { IfSome result (λ f. IsSome (said_in f)) }
{
    Some(Form::New(one_word(bytes)?))
}

/// The form that begins with `put`.
#[inline(never)]
fn put_form(bytes: &[u8]) -> Option<Form<'_>>
    ensures read { option_and_then said_in result ≡ read_by (said_after Keyword.Put) bytes.now }
    ensures whole { IfSome result (λ f. IsSome (said_in f)) }
{
    let (example, atom) = example_and_fact(bytes)?;
    Some(Form::Put(example, atom))
}

/// The form that begins with `cut`.
#[inline(never)]
fn cut_form(bytes: &[u8]) -> Option<Form<'_>>
    ensures read { option_and_then said_in result ≡ read_by (said_after Keyword.Cut) bytes.now }
    ensures whole { IfSome result (λ f. IsSome (said_in f)) }
{
    let (example, atom) = example_and_fact(bytes)?;
    Some(Form::Cut(example, atom))
}

/// The form that begins with `drop`.
#[inline(never)]
fn drop_form(bytes: &[u8]) -> Option<Form<'_>>
    ensures read { option_and_then said_in result ≡ read_by (said_after Keyword.Drop) bytes.now }
    ensures whole { IfSome result (λ f. IsSome (said_in f)) }
{
    Some(Form::Drop(one_word(bytes)?))
}

/// The form that begins with `take`.
#[inline(never)]
fn take_form(bytes: &[u8]) -> Option<Form<'_>>
    ensures read { option_and_then said_in result ≡ read_by (said_after Keyword.Take) bytes.now }
    ensures whole { IfSome result (λ f. IsSome (said_in f)) }
{
    let (designer, example) = two_words(bytes)?;
    Some(Form::Take(designer, example))
}

/// The form that begins with `kind`.
#[inline(never)]
fn kind_form(bytes: &[u8]) -> Option<Form<'_>>
    ensures read { option_and_then said_in result ≡ read_by (said_after Keyword.Kind) bytes.now }
    ensures whole { IfSome result (λ f. IsSome (said_in f)) }
{
    Some(Form::Kind(kind_of(one_word(bytes)?)?))
}

/// The form that begins with `budget`.
#[inline(never)]
fn budget_form(bytes: &[u8]) -> Option<Form<'_>>
    ensures read { option_and_then said_in result ≡ read_by (said_after Keyword.Budget) bytes.now }
    ensures whole { IfSome result (λ f. IsSome (said_in f)) }
{
    Some(Form::Budget(budget_of(one_word(bytes)?)?))
}

/// The form that begins with `chase`.
#[inline(never)]
fn chase_form(bytes: &[u8]) -> Option<Form<'_>>
    ensures read { option_and_then said_in result ≡ read_by (said_after Keyword.Chase) bytes.now }
    ensures whole { IfSome result (λ f. IsSome (said_in f)) }
{
    Some(Form::Chase(one_word(bytes)?))
}

/// The form that begins with `cert`.
#[inline(never)]
fn cert_form(bytes: &[u8]) -> Option<Form<'_>>
    ensures read { option_and_then said_in result ≡ read_by (said_after Keyword.Cert) bytes.now }
    ensures whole { IfSome result (λ f. IsSome (said_in f)) }
{
    Some(Form::Cert(one_word(bytes)?))
}

/// The form that begins with `table`.
#[inline(never)]
fn table_form(bytes: &[u8]) -> Option<Form<'_>>
    ensures read { option_and_then said_in result ≡ read_by (said_after Keyword.Table) bytes.now }
    ensures whole { IfSome result (λ f. IsSome (said_in f)) }
{
    let (relation, file) = two_words(bytes)?;
    Some(Form::Table(relation, file))
}

/// The form of a line with this keyword, by the bytes behind it.
fn form_after(keyword: Keyword, bytes: &[u8]) -> Option<Form<'_>>
    ensures read { option_and_then said_in result ≡ read_by (said_after keyword) bytes.now }
    ensures whole { IfSome result (λ f. IsSome (said_in f)) }
{
    match keyword {
        Keyword::Source => declaration(Side::Source, bytes),
        Keyword::Target => declaration(Side::Target, bytes),
        Keyword::New => new_form(bytes),
        Keyword::Put => put_form(bytes),
        Keyword::Cut => cut_form(bytes),
        Keyword::Drop => drop_form(bytes),
        Keyword::Undo => alone(Form::Undo, bytes),
        Keyword::Take => take_form(bytes),
        Keyword::Kind => kind_form(bytes),
        Keyword::Budget => budget_form(bytes),
        Keyword::Fit => alone(Form::Fit, bytes),
        Keyword::Tries => alone(Form::Tries, bytes),
        Keyword::Reduce => alone(Form::Reduce, bytes),
        Keyword::Chase => chase_form(bytes),
        Keyword::Cert => cert_form(bytes),
        Keyword::Table => table_form(bytes),
        Keyword::Exchange => alone(Form::Exchange, bytes),
    }
}

/// The form of a line, where it is of the grammar.
pub fn form_of(line: &[u8]) -> Option<Form<'_>>
    ensures read { option_and_then said_in result ≡ read_by said_by line.now }
    ensures whole { IfSome result (λ f. IsSome (said_in f)) }
{
    let (word, rest) = first_word(line)?;
    let keyword = keyword_of(word)?;
    form_after(keyword, rest)
}
