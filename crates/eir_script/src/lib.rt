//! Lines of a script: where they end, what they say, and the commands that they are.
//!
//! An input is cut into lines by a [`Cutter`], piece by piece, however it comes in. [`read_line`] reads one line as a
//! [`Command`], in which constants and nulls stand by their numbers in the table of names. A line costs its length: a
//! scanner goes over its bytes, the word that begins it is looked up once, and memory is taken only for what a command
//! owns. A line that is blank or bad takes none.
//!
//! # What a contract sees
//!
//! `specs/Grammar` says by its spelling what a line says (`Says`, `IsBlank`); no reader enters there. `specs/Reading`
//! is the same as a function that computes (`reading`), and the laws of `proofs/GrammarLaws` show that the two are
//! one: so a line says at most one thing, and `Bad` is exact. `specs/Naming` gives each name its number and each
//! saying its command. `specs/Lines` says what the lines of an input are, `specs/Pieces` what a cutter tells of them.
//! `Columns` and `Values` are seen as lists, a `Cutter` as a `Taking`.
#![tactic(auto)]

mod arguments;
mod blank;
mod command;
mod cutter;
mod form;
mod keyword;
mod number;
mod parts;
mod reader;
#[cfg(test)]
mod tests;
mod token;
mod word;

pub use command::{Columns, Command, RawFact, Values};
pub use cutter::{Cutter, Fed, LineBytes};
pub use reader::{LineRefused, read_line};
