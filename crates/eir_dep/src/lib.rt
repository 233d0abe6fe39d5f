//! Dependencies, checked when they are made, and mappings.
//!
//! A dependency is a GLAV constraint, or source-to-target tuple-generating dependency (Fagin, Kolaitis, Miller, Popa
//! 2005): a premise, a list of existential variables and a conclusion. The chase and implication are right only of
//! dependencies whose conclusion variables are each existential or in the premise, never both. So `Dep::new` is the
//! one way to make a `Dep`, and every `Dep` is one of these. The crate stands apart so that the crates above it need
//! not test it again.
//!
//! # What a contract sees
//!
//! A `Dep` is seen as a `Dependency` of `eir_term`'s `specs/Dependencies`, a `Mapping` as a list of them, in order.
//! Which lists `Dep::new` refuses, and for which variable, is `IsRefused` of `specs/Refusals`. That each `Dep` is
//! well formed is told by `Dep::conclusion`, that each dependency of a mapping is by `Mapping::len`.
#![tactic(auto)]

mod check;
mod dep;
mod mapping;
mod marks;
#[cfg(test)]
mod tests;

pub use dep::{Dep, DepRefused};
pub use mapping::Mapping;
