//! A stamp, lent in two parts.
ghost use Rattle.std.specs.Prelude.{◌≡◌, ◌++◌, ◌∷◌, ◌↔◌, IsTrue, IfOk, length, slice_get};
ghost use Rattle.eir_schema.specs.Stamps.{semicolon};

use eir_term::{Memory, Text};
use std::alloc::Global;
use std::marker::Model;

/// The byte between the stamps of the two sides.
const SEMICOLON: u8 = b';';

/// The stamp of a schema, lent in two parts, so that nothing is copied to compare it.
#[derive(Drop)]
pub struct Stamp<'a> {
    source: &'a [u8],
    target: &'a [u8],
}

impl<'a> Model for Stamp<'a> {
    ghost use Rattle.std.specs.Prelude.{List, ℕ, ◌++◌, ◌∷◌};
    ghost use Rattle.eir_schema.specs.Stamps.{semicolon};

    ghost Value = { List ℕ };

    ghost view = { λ s. s.source.now ++ semicolon ∷ s.target.now };
}

impl<'a> Stamp<'a> {
    /// The stamp of which these are the parts before and after the semicolon.
    pub fn new(source: &'a [u8], target: &'a [u8]) -> Stamp<'a>
        ensures { result ≡ source.now ++ semicolon ∷ target.now }
    {
        Stamp { source, target }
    }

    /// The number of its bytes.
    fn len(&self) -> usize
        ensures { result ≡ length self.now }
    {
        self.source.len() + 1 + self.target.len()
    }

    /// The byte at a place, from 0.
    fn byte(&self, place: usize) -> Option<u8>
        ensures { result ≡ slice_get self.now place }
    {
        if place < self.source.len() {
            return Some(self.source[place]);
        }
        match place - self.source.len() {
            0 => Some(SEMICOLON),
            after => self.target.get(after - 1).copied(),
        }
    }

    /// Whether the two are the same text.
    pub fn is_same(&self, other: &Stamp) -> bool
        ensures { IsTrue result ↔ (self.now ≡ other.now) }
    {
        if self.len() != other.len() {
            return false;
        }
        'places: for place in 0..self.len() {
            if self.byte(place) != other.byte(place) {
                return false;
            }
        }
        true
    }

    /// A text of its own.
    pub fn to_text(&self, alloc: Global) -> Result<Text, Memory>
        ensures { IfOk result (λ t. t ≡ self.now) }
    {
        let mut text = Text::make(alloc, self.source)?;
        text.push_all(&[SEMICOLON])?;
        text.push_all(self.target)?;
        Ok(text)
    }
}
