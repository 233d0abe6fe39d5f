//! Values, facts, terms, atoms, maps and texts, and the definitions of the field that every contract of the
//! workspace is worded by.
//!
//! The types are plain data. What is believed stands in `specs/`, in this order of reading: `Lists`, `Values`,
//! `Facts`, `Instances`, `Maps`, `Homs`, `Dependencies`, `Satisfaction`, `Universal`, `Fitting`, `Implication`,
//! `Extension`, `Faults`, `Canonical`, `Bind`, `Profiles`, `Plans`, `Search`, `Order`, `Verdicts`; `Headline` says of
//! them what the program is for, and `Rows` computes them on worked examples. `docs/definitions.md` has them in prose.
//!
//! # What a contract sees
//!
//! `Args` and `Terms` are seen as lists, `Map` as a list of pairs of values with distinct first members, `Text`
//! as its bytes. An instance is a list of facts. Callers get their lemmas from the files of `proofs/` that are
//! named after those of `specs/`.
#![tactic(auto)]

mod args;
mod fact;
mod map;
mod memory;
mod term;
#[cfg(test)]
mod tests;
mod text;
mod val;

pub use args::Args;
pub use fact::Fact;
pub use map::Map;
pub use memory::Memory;
pub use term::{Atom, Term, Terms};
pub use text::Text;
pub use val::{Kind, Side, Val};
