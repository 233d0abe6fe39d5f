//! Declared relations, and the table of names.
//!
//! A [`Schema`] keeps the relations of the source and of the target in the order in which they were declared; a
//! [`Names`] numbers byte strings by first occurrence. A name becomes a number here, once, when a line is read, and a
//! number becomes a name here, once, when a text is printed. Both are found by the hash of the name, so no look-up
//! costs a scan.
//!
//! # What a contract sees
//!
//! A `Schema` is seen as the list of its `Relation`s of `specs/Schemas`: side, name and columns, in order of
//! declaration. The number of a relation is twice its place among those of its side, and one more on the target side,
//! so that schemas of equal stamps have equal numbers however their sides were interleaved. That names are distinct and
//! limits are kept is told by `len` and by `find` (`IsSchema`). `specs/Declarations` says which declarations are refused, and for what;
//! `specs/Stamps` says what the stamp of a schema is. A `Names` is seen as the list of its byte strings; `text` tells
//! that they are distinct. How the two are kept in memory (`specs/Tables`) is in no clause of a public call.
#![tactic(auto)]

mod columns;
mod names;
mod refused;
mod relation;
mod schema;
mod stamp;
mod summary;
#[cfg(test)]
mod tests;

pub use names::Names;
pub use refused::DeclareRefused;
pub use relation::RelInfo;
pub use schema::Schema;
