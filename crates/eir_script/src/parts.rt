//! The parts of a line behind its keyword that are words or names.
ghost use Rattle.std.specs.Prelude.{◌≡◌, option_map};
ghost use Rattle.eir_script.specs.Forms.{IsFirstRun, has_no_lexeme, pair_in};
ghost use Rattle.eir_script.specs.Reading.{lexemes, one_word, read_by, two_words};

use crate::token::{Scanned, Token, next_token};

/// Whether nothing is left of the bytes but gaps.
pub fn is_end(bytes: &[u8]) -> bool
    ensures { result ≡ has_no_lexeme (lexemes bytes.now) }
{
    match next_token(bytes) {
        Scanned::End => true,
        Scanned::Next(_, _) => false,
        Scanned::Unknown => false,
    }
}

/// The word or name that comes first, and what stands behind it.
#[inline(always)]
pub fn first_word(bytes: &[u8]) -> Option<(&[u8], &[u8])>
    ensures { IsFirstRun bytes.now result }
{
    let Scanned::Next(token, rest) = next_token(bytes) else {
        return None;
    };
    match token {
        Token::Run(word) => Some((word, rest)),
        Token::Label(_) => None,
        Token::Mark(_) => None,
    }
}

/// The one word or name of the bytes.
pub fn one_word(bytes: &[u8]) -> Option<&[u8]>
    ensures { option_map (λ w. w.now) result ≡ read_by one_word bytes.now }
{
    let (word, rest) = first_word(bytes)?;
    if is_end(rest) { Some(word) } else { None }
}

/// The two words or names of the bytes.
pub fn two_words(bytes: &[u8]) -> Option<(&[u8], &[u8])>
    ensures { option_map pair_in result ≡ read_by two_words bytes.now }
{
    let (first, rest) = first_word(bytes)?;
    let second = one_word(rest)?;
    Some((first, second))
}
