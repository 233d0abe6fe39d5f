//! Instances: sets of distinct facts, in order of insertion, with a limit on their number, whose copies share an index.
//!
//! An `Instance` has a base of facts with their index, marks of those facts of it that are gone, and the few facts that
//! were added beside it. A copy shares the base, so a changed copy costs a mark for each fact and no hash of the
//! others.
//! `Instance::indexed` gives the facts with an index of all of them, an `Indexed`, for searches: it answers for the
//! facts of a relation, the facts with a value at a column, the values by first occurrence with a number for each, and
//! the profile of each value, without a scan of the facts and without memory. The crate stands apart so that the crates
//! above it see a list of facts and nothing of what it is kept in.
//!
//! # What a contract sees
//!
//! An `Instance` is seen as a `BoundedFacts` of `specs/`: the list `facts` in order of insertion and the number
//! `limit`. An `Indexed` is seen as a `FactList`: the list `facts`. Clauses speak of the list by the words of
//! `eir_term`:
//! `∈`, `IsDistinct`, `places`, `values`, `has_at`, `profile`, `count_of` and `ground_part`, beside `length`, `filter`
//! and `slice_get` of the standard library. That the facts are distinct is told by `Indexed::as_slice`. A `Profile` is
//! seen as the list of its marks, which ascend, as `marks` tells.
//!
//! # How it is kept
//!
//! `instance` has the layers (`Layers` of `specs/`): what `staying` says of the base and its marks, and what `added`
//! says of the facts beside it. A new instance has a base of its own, into which its facts are put; a copy of it gets a
//! base that is shared from then on. A copy that differs by more than 64 facts from what it shares gets a base of its
//! own facts.
//!
//! `indexed` joins the facts with their `index`, which only grows: `postings` lists the places of the facts under each
//! `key`, and `numbering` has the values, a `row` of numbers for each fact and the `profiles`. The invariant of an
//! `Indexed` is that they are the index of its facts (`IsIndex` of `specs/Indexes`).
#![tactic(auto)]

mod added;
mod index;
mod indexed;
mod instance;
mod key;
mod numbering;
mod places;
mod postings;
mod profile;
mod profiles;
mod row;
mod staying;
#[cfg(test)]
mod tests;

pub use indexed::Indexed;
pub use instance::{InsertRefused, Instance, Missing};
pub use profile::Profile;
