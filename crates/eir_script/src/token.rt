//! Tokens of a line, taken one after another from its front.
//!
//! What finds a token stands inline where the token is asked for: to hand it back through memory costs as much as to
//! find it.
ghost use Rattle.std.specs.Prelude.{◌≡◌, ◌∷◌};
ghost use Rattle.eir_script.specs.Forms.{IsNext, IsSignByte, IsShorter, StartsUngapped, StartsWord};
ghost use Rattle.eir_script.specs.Reading.{sign_at};

use crate::blank::after_gaps;
use crate::word::{is_word_start, split_word};

/// A sign of the grammar.
#[derive(Clone, Copy, Debug, PartialEq, Eq)]
pub enum Sign {
    OpenBracket,
    CloseBracket,
    Comma,
    Ampersand,
    Dot,
    Arrow,
}

/// A token, lent from its line.
#[derive(Clone, Copy)]
pub enum Token<'a> {
    /// A word or a name, which are spelled alike.
    Run(&'a [u8]),
    /// A labelled null; the name is what follows its question mark.
    Label(&'a [u8]),
    Mark(Sign),
}

/// What comes first in the bytes of a line.
#[derive(Clone, Copy)]
pub enum Scanned<'a> {
    /// A token, and the bytes behind it.
    Next(Token<'a>, &'a [u8]),
    /// Nothing but gaps.
    End,
    /// No token.
    Unknown,
}

/// The sign that is this byte. An arrow has two.
fn sign_of(byte: u8) -> Option<Sign>
    ensures { result ≡ sign_at byte }
{
    match byte {
        b'(' => Some(Sign::OpenBracket),
        b')' => Some(Sign::CloseBracket),
        b',' => Some(Sign::Comma),
        b'&' => Some(Sign::Ampersand),
        b'.' => Some(Sign::Dot),
        _ => None,
    }
}

/// The run that comes first in bytes of which the first may begin one.
#[inline(always)]
fn scan_run(bytes: &[u8]) -> Scanned<'_>
    requires { StartsWord bytes.now }
    ensures next { IsNext bytes.now result }
    ensures shorter { IsShorter bytes.now result }
{
    match split_word(bytes) {
        Some((word, rest)) => Scanned::Next(Token::Run(word), rest),
        None => Scanned::Unknown,
    }
}

/// The null whose question mark comes before bytes of which the first may begin a word.
#[inline(always)]
fn scan_name(bytes: &[u8]) -> Scanned<'_>
    requires { StartsWord bytes.now }
    ensures next { IsNext (63 ∷ bytes.now) result }
    ensures shorter { IsShorter (63 ∷ bytes.now) result }
{
    match split_word(bytes) {
        Some((name, rest)) => Scanned::Next(Token::Label(name), rest),
        None => Scanned::Unknown,
    }
}

/// The null whose question mark comes before these bytes.
#[inline(always)]
fn scan_label(bytes: &[u8]) -> Scanned<'_>
    ensures next { IsNext (63 ∷ bytes.now) result }
    ensures shorter { IsShorter (63 ∷ bytes.now) result }
{
    match bytes {
        [] => Scanned::Unknown,
        [first, ..] => {
            if is_word_start(*first) {
                scan_name(bytes)
            } else {
                Scanned::Unknown
            }
        }
    }
}

/// The arrow whose dash comes before these bytes.
fn scan_arrow(bytes: &[u8]) -> Scanned<'_>
    ensures next { IsNext (45 ∷ bytes.now) result }
    ensures shorter { IsShorter (45 ∷ bytes.now) result }
{
    match bytes {
        [] => Scanned::Unknown,
        [first, rest @ ..] => {
            if *first == b'>' {
                Scanned::Next(Token::Mark(Sign::Arrow), rest)
            } else {
                Scanned::Unknown
            }
        }
    }
}

/// The sign that is this byte, before the others.
fn scan_sign(byte: u8, rest: &[u8]) -> Scanned<'_>
    requires { IsSignByte byte }
    ensures next { IsNext (byte ∷ rest.now) result }
    ensures shorter { IsShorter (byte ∷ rest.now) result }
{
    match sign_of(byte) {
        Some(sign) => Scanned::Next(Token::Mark(sign), rest),
        None => Scanned::Unknown,
    }
}

/// The token with which the bytes begin.
#[inline(always)]
fn first_token(bytes: &[u8]) -> Scanned<'_>
    requires { StartsUngapped bytes.now }
    ensures next { IsNext bytes.now result }
    ensures shorter { IsShorter bytes.now result }
{
    match bytes {
        [] => Scanned::End,
        [first, rest @ ..] => {
            if is_word_start(*first) {
                scan_run(bytes)
            } else if *first == b'?' {
                scan_label(rest)
            } else if *first == b'-' {
                scan_arrow(rest)
            } else {
                scan_sign(*first, rest)
            }
        }
    }
}

/// The first token of a line's bytes.
#[inline(always)]
pub fn next_token(bytes: &[u8]) -> Scanned<'_>
    ensures next { IsNext bytes.now result }
    ensures shorter { IsShorter bytes.now result }
{
    first_token(after_gaps(bytes))
}
