//! All homomorphisms from one instance into another, in order, within a limit of tries.
//!
//! A homomorphism sends each fact of an instance `a` to a fact of an instance `b`, value by value; it may move
//! constants and nulls, and fixes each fixed constant. From `E(1,2)` to the facts `E(1,2)` and `E(2,1)` there are two:
//! `1->1, 2->2` and `1->2, 2->1`.
//!
//! [`Homs`] lists those that agree with a start map, turn by turn; [`find_hom`] answers the first. The facts of `a` are
//! placed one after the other in the order of a plan ([`plan_of`]), each at the facts of `b` of its relation whose
//! values have the right profiles, and that have at the first known column the right value. Each such fact is one try.
//! A [`Planner`] and a [`Guard`] are a caller's own answers for the weight of a fact and for profiles.
//!
//! A search goes through numbers alone: a value of `a` is a slot, a value of `b` is the number that a slot is bound to,
//! and the facts that a fact may go to are rows of numbers. Which fact is placed next and what its level binds is
//! worked out when the search first comes there, and the rows for the number at its key column are laid when it first
//! asks for them, in memory that the listing took when it began: most listings end after a few tries, so beginning is
//! cheap. A try costs a load and a comparison; no turn takes memory, and none hashes or looks through anything but for
//! a level, or a number at its key column, to which it comes for the first time.
//!
//! # What a contract sees
//!
//! A `Homs` is seen as a `Progress` of `specs/Progress`: from what to what it goes, its start, what the last turn
//! found, the homomorphisms that are still to come, in order, and the tries that are still to be made. At the beginning
//! these are `homs` and `need` of `eir_term`'s `specs/Search`; what `homs` has and lacks, and in which order, is told
//! by the laws of `eir_term`'s `proofs/SearchLaws`. A turn takes a homomorphism off where it answers `Found`.
//!
//! Below that a `LazyMatcher` and a `Matcher` are seen as a `Match` of `specs/Matching`, the problem in numbers: the
//! one with all levels, the other with those that are compiled. A `Course` is seen as the facts in plan order with
//! their key columns, and a `Stock` as the tables of their rows.
//! `specs/Levels` says which numbers stand for which facts; the laws of `proofs/NumberLaws` lead from these to the
//! facts.
//!
//! # How a caller loops
//!
//! Each turn but the last makes a try or finds a homomorphism, so a loop over turns with `at_most` above 0 ends by the
//! tries and the homomorphisms that are still to come.
#![tactic(auto)]

mod atom_view;
mod columns;
mod compile;
mod counts;
mod course;
mod find;
mod fits;
mod front;
mod given;
mod guard;
mod homs;
mod lazy;
mod matching;
mod occurrences;
mod plan;
#[cfg(test)]
mod plan_tests;
mod planner;
mod restart;
mod rows;
mod starts;
mod stock;
mod tables;
#[cfg(test)]
mod tests;
mod tournament;

pub use atom_view::AtomView;
pub use find::{FindStop, find_hom};
pub use guard::Guard;
pub use homs::{HomTurn, Homs};
pub use plan::plan_of;
pub use planner::Planner;
