//! Whether the homomorphisms between the sources of two examples extend to their targets.
//!
//! For a mapping to fit two examples, each homomorphism from the source of the first into that of the second must extend:
//! some homomorphism between their targets must agree with it on the constants of the first target (Alexe, ten Cate,
//! Kolaitis, Tan 2011; here neither need fix a constant). From `S(ann,hr)` with the target `T(ann,hr)` two lead into
//! `S(bob,it), S(cy,it)` with the target `T(bob,it)`: `ann->bob, hr->it` extends, and `ann->cy, hr->it` does not. The other
//! way each extends. [`test_pair`] tells whether all do, or the first that does not, and [`PairTest`] tells it turn by turn,
//! so that it can stop at any try and go on.
//!
//! # What a contract sees
//!
//! An example is seen as that of `eir_edit`; `pair_of` of its `specs/Pairs` is its two instances alone. `first_refuting` of
//! `eir_term`'s `specs/Verdicts` is what a test answers, `pairneed` of `specs/Search` is what it may cost. A `PairTest` is
//! seen as a `Trial` of `specs/Trials`: the pair, the homomorphism that does not extend once it is found, the tries that the
//! test may still make, and how many of them listing the homomorphisms between the sources takes. A `PairVerdict` is seen as
//! that homomorphism, or none, by `refuting_of`. A test begins only where no constant of the first target is foreign
//! (`first_foreign`), so that a homomorphism between the sources says where each of them goes.
//!
//! # How it is kept
//!
//! `searches` has two searches and the stage at which they are, as `specs/Searching` says: that between the sources finds one
//! homomorphism after the other, and for each that between the targets begins anew, in the same memory, from where the
//! homomorphism sends the constants of the first target. `start` has these constants and their numbers among the values of
//! the source.
#![tactic(auto)]

mod pair_test;
mod searches;
mod start;
#[cfg(test)]
mod tests;
mod turn;
mod verdict;

pub use pair_test::PairTest;
pub use turn::Turn;
pub use verdict::{PairVerdict, test_pair};
