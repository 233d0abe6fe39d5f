//! What a fit finds, and the faults that one example alone can have.
//!
//! For a mapping to fit an example, each constant of the target must occur in the source: one that does not is
//! foreign, and [`first_foreign`] tells the first. For a GAV mapping to fit, the target must also fold: some
//! homomorphism from it into its ground part, the facts without nulls, must fix all constants. `P(a,?1), P(a,b)` folds
//! by `?1->b`; `P(a,?1), Q(b)` does not. [`folds`] tells it, and [`FoldTest`] tells it turn by turn. A [`Verdict`] is
//! what all tests of a fit together come to. The words "foreign" and "fold", and the two tests, are this project's own.
//!
//! # What a contract sees
//!
//! An example is seen as that of `eir_edit`; `pair_of` of its `specs/Pairs` is its two instances alone. `first_foreign` and
//! `has_fold` of `eir_term`'s `specs/Verdicts` are what the tests answer, `foldneed` of `specs/Search` is what they may
//! cost. A `FoldTest` is seen as a `Folding` of `specs/Foldings`: the facts that it tests, and the tries that it may
//! still make, which are none once it is decided. A `Verdict` is seen as a `Finding` of `eir_term` by `finding_of` of
//! `specs/Findings`.
#![tactic(auto)]

mod fold;
mod fold_test;
mod foreign;
#[cfg(test)]
mod tests;
mod verdict;

pub use fold::folds;
pub use fold_test::{FoldTest, FoldTurn};
pub use foreign::first_foreign;
pub use verdict::Verdict;
