//! The arguments between the brackets of a fact.
ghost use Rattle.std.specs.Prelude.{◌≡◌, ◌<◌, IfSome, IfNone, List, None, Some, length, option_map, option_and_then};
ghost use Rattle.std.specs.List.{list_any};
ghost use Rattle.eir_script.specs.Forms.{IsLeft, argument_in, arguments_first, bytes_left, lexeme_in};
ghost use Rattle.eir_script.specs.Grammar.{Argument as WrittenArgument};
ghost use Rattle.eir_script.specs.Reading.{argument_of, arguments_of, argument_name, is_labelled, read_by};

use crate::parts::is_end;
use crate::token::{Scanned, Sign, Token, next_token};

/// An argument of a fact, by its name.
#[derive(Clone, Copy)]
pub enum Argument<'a> {
    Constant(&'a [u8]),
    /// A labelled null; the name is what follows its question mark.
    Labelled(&'a [u8]),
}

/// What is told of a list of arguments.
#[derive(Clone, Copy)]
pub struct ListShape {
    pub count: usize,
    /// Whether one of them is a null.
    pub has_null: bool,
}

impl<'a> Argument<'a> {
    /// The name.
    pub fn name(self) -> &'a [u8]
        ensures { result.now ≡ argument_name (argument_in self.entry) }
    {
        match self {
            Argument::Constant(name) => name,
            Argument::Labelled(name) => name,
        }
    }

    /// Whether it is a null.
    pub fn is_null(self) -> bool
        ensures { result ≡ is_labelled (argument_in self.entry) }
    {
        matches!(self, Argument::Labelled(_))
    }
}

/// The argument that is this token.
fn argument_of(token: Token<'_>) -> Option<Argument<'_>>
    ensures { option_map argument_in result ≡ argument_of (lexeme_in token.entry) }
{
    match token {
        Token::Run(name) => Some(Argument::Constant(name)),
        Token::Label(name) => Some(Argument::Labelled(name)),
        Token::Mark(_) => None,
    }
}

/// What stands behind an argument: the bytes behind a comma, or nothing behind the closing bracket that ends the list.
#[inline(always)]
fn after_argument(bytes: &[u8]) -> Option<Option<&[u8]>>
    ensures left { IsLeft bytes.now result }
    ensures shorter { IfSome result (λ left. bytes_left left < length bytes.now) }
{
    let Scanned::Next(token, rest) = next_token(bytes) else {
        return None;
    };
    let Token::Mark(sign) = token else {
        return None;
    };
    match sign {
        Sign::Comma => Some(Some(rest)),
        Sign::CloseBracket => { if is_end(rest) { Some(None) } else { None } }
        _ => None,
    }
}

/// The first argument of the bytes behind an opening bracket or a comma. The bytes behind the next comma go with it,
/// or nothing where the list ends there.
#[inline(always)]
pub fn next_argument(bytes: &[u8]) -> Option<(Argument<'_>, Option<&[u8]>)>
    ensures read { read_by arguments_of bytes.now ≡ option_and_then arguments_first result }
    ensures shorter { IfSome result (λ p. bytes_left p.1 < length bytes.now) }
{
    let Scanned::Next(token, rest) = next_token(bytes) else {
        return None;
    };
    let argument = argument_of(token)?;
    let left = after_argument(rest)?;
    Some((argument, left))
}

/// Whether these bytes behind an opening bracket are a list of arguments, and what is told of it.
pub fn list_shape(bytes: &[u8]) -> Option<ListShape>
    ensures shape { IfSome result (λ shape. (all : List WrittenArgument) × (read_by arguments_of bytes.now ≡ Some all)
        × (shape.has_null ≡ list_any is_labelled all)) }
    ensures none { IfNone result (read_by arguments_of bytes.now ≡ None) }
{
    let mut shape = ListShape {
        count: 0,
        has_null: false,
    };
    let mut left = Some(bytes);
    'left: while let Some(rest) = left {
        let (argument, behind) = next_argument(rest)?;
        shape.count += 1;
        shape.has_null |= argument.is_null();
        left = behind;
    }
    Some(shape)
}
