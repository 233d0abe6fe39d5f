//! Canonical mappings: the most general ones that can fit, read off the examples.
//!
//! The canonical GLAV mapping has, for each example with a target fact, one dependency: all source facts imply all
//! target facts. The canonical GAV mapping has one for each example and each target fact without nulls: all source
//! facts imply this fact. Constants become premise variables, numbered from 1 by first occurrence in the source; nulls
//! become existential variables, which count on, by first occurrence in the target. So the source `E(a,b)` with the
//! target `P(a,?n)` becomes `E(x1,x2) -> exists x3 . P(x1,x3)` (Alexe, ten Cate, Kolaitis, Tan 2011; that of GAV, and
//! the treatment of empty targets, are this project's own).
//!
//! [`canonical`] is the one call. It tests nothing: whether the mapping fits is what the crates above find out.
//!
//! # What a contract sees
//!
//! An example is seen as that of `eir_edit`; `pairs_of` of its `specs/Pairs` are the instances of examples that are
//! lent. The mapping is `canon` of `eir_term`'s `specs/Canonical`.
#![tactic(auto)]

mod gav;
mod glav;
mod mapping;
#[cfg(test)]
mod tests;
mod variables;

pub use mapping::canonical;
