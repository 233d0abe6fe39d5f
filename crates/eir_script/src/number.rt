//! Numbers and kinds of a script.
ghost use Rattle.std.specs.Prelude.{◌≡◌};
ghost use Rattle.eir_script.specs.Reading.{budget_of, kind_of, number_of};

use eir_term::Kind;
use itoa::Buffer;
use std::str;

/// The most tries that may be granted.
const BUDGET_LIMIT: u64 = 1_000_000_000_000;

/// The number whose decimal spelling the word is.
fn number_of(word: &[u8]) -> Option<u64>
    ensures { result ≡ number_of word.now }
{
    let text = str::from_utf8(word).ok()?;
    let number: u64 = text.parse().ok()?;
    let mut digits = Buffer::new();
    if digits.format(number).as_bytes() == word {
        Some(number)
    } else {
        None
    }
}

/// The number of tries that the word grants.
pub fn budget_of(word: &[u8]) -> Option<u64>
    ensures { result ≡ budget_of word.now }
{
    let number = number_of(word)?;
    if 1 <= number && number <= BUDGET_LIMIT {
        Some(number)
    } else {
        None
    }
}

/// The kind that the word is.
pub fn kind_of(word: &[u8]) -> Option<Kind>
    ensures { result ≡ kind_of word.now }
{
    if word == b"glav".as_slice() {
        Some(Kind::Glav)
    } else if word == b"gav".as_slice() {
        Some(Kind::Gav)
    } else {
        None
    }
}
