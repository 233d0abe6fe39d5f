//! An input, cut into its lines as it comes in.
ghost use Rattle.std.specs.Prelude.{◌≡◌, ◌≤◌, ◌↔◌, ◌++◌, ◌==◌, ℕ, List, false, IfOk, IsTrue, length, position, take};
ghost use Rattle.eir_script.specs.Lines.{Cut, cut_after, trimmed};
ghost use Rattle.eir_script.specs.Pieces.{Holds, IsLine, IsTaken, Taking, nothing_taken};

use eir_term::Memory;
use std::alloc::Global;
use std::marker::Model;

/// The most bytes of a line without its end.
const LINE_LIMIT: usize = 4_096;

/// The bytes that are held of a line. A line of which so many were taken is too long, even if a carriage return at
/// its end does not count.
const HELD_LIMIT: usize = 4_098;

/// Takes an input piece by piece, and hands out its lines, without their ends. Its memory is taken when it is made.
#[derive(Drop)]
pub struct Cutter {
    held: Vec<u8>,
    ended: bool,
}

/// What was taken of a piece.
#[derive(Clone, Copy, Debug, PartialEq, Eq)]
pub struct Fed {
    /// The number of bytes.
    pub taken: usize,
    /// Whether the last of them is a line feed, so that a line waits.
    pub line: bool,
}

/// A line without its end.
#[derive(Clone, Copy, Debug, PartialEq, Eq)]
pub enum LineBytes<'a> {
    Bytes(&'a [u8]),
    /// It has more than 4,096 bytes.
    Long,
}

impl Model for Cutter {
    ghost use Rattle.std.specs.Prelude.{◌≤◌, length, vec_capacity};
    ghost use Rattle.eir_script.specs.Pieces.{Taking};

    ghost Value = { Taking };

    ghost view = { λ c. record { bytes = c.held.items; ended = c.ended } };

    ghost invariant = { λ c. (length c.held.items ≤ 4098) × (4098 ≤ vec_capacity c.held) };
}

impl Cutter {
    /// A cutter that has taken nothing.
    pub fn new(alloc: Global) -> Result<Cutter, Memory>
        ensures { IfOk result (λ c. c ≡ nothing_taken) }
    {
        Ok(Cutter {
            held: Vec::with_capacity(alloc, HELD_LIMIT)?,
            ended: false,
        })
    }

    /// Takes the bytes up to and with the first line feed, or all where there is none.
    pub fn feed(&mut self, bytes: &[u8]) -> Fed
        requires { self.old.ended ≡ false }
        ensures within { result.taken ≤ length bytes.now }
        ensures all { result.line ≡ false → result.taken ≡ length bytes.now }
        ensures ended { self.new.ended ≡ result.line }
        ensures cut { (c : Cut) → Holds self.old c.tail →
            IsTaken self.new c.whole (cut_after c (take result.taken bytes.now)) result.line }
    {
        match place_of_line_feed(bytes) {
            Some(place) => {
                self.hold(&bytes[..place]);
                self.ended = true;
                Fed {
                    taken: place + 1,
                    line: true,
                }
            }
            None => {
                self.hold(bytes);
                Fed {
                    taken: bytes.len(),
                    line: false,
                }
            }
        }
    }

    /// Holds as many of the bytes as there is room for.
    fn hold(&mut self, bytes: &[u8])
        ensures held { (line : List ℕ) → Holds self.old line → Holds self.new (line ++ bytes.now) }
        ensures ended { self.new.ended ≡ self.old.ended }
    {
        let room = HELD_LIMIT - self.held.len();
        let count = room.min(bytes.len());
        self.held.extend_from_slice(&bytes[..count]).unwrap();
    }

    /// The bytes that were taken since the last `next`, without their end.
    pub fn line(&self) -> LineBytes<'_>
        ensures { (line : List ℕ) → Holds self.now line → IsLine result (trimmed line) }
    {
        let line = without_return(&self.held);
        if line.len() > LINE_LIMIT {
            LineBytes::Long
        } else {
            LineBytes::Bytes(line)
        }
    }

    /// Whether nothing was taken since the last `next`.
    pub fn empty(&self) -> bool
        ensures { IsTrue result ↔ (self.now ≡ nothing_taken) }
    {
        self.held.is_empty() && !self.ended
    }

    /// Begins a new line.
    pub fn next(&mut self)
        ensures { self.new ≡ nothing_taken }
    {
        self.held.clear();
        self.ended = false;
    }
}

/// The place of the first line feed.
fn place_of_line_feed(bytes: &[u8]) -> Option<usize>
    ensures { result ≡ position (λ b. b == 10) bytes.now }
{
    bytes.iter().position(|byte| *byte == b'\n')
}

/// The bytes without one carriage return at their end.
fn without_return(bytes: &[u8]) -> &[u8]
    ensures { result.now ≡ trimmed bytes.now }
{
    match bytes {
        [] => bytes,
        [line @ .., last] => { if *last == b'\r' { line } else { bytes } }
    }
}
