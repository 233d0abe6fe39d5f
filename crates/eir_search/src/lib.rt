//! Generic backtracking: the good lists of choices of a problem, in order, one try at a time.
//!
//! A problem has levels. After each list of choices there are so many choices for the next level, numbered from 0,
//! and some of the lists that they make are good; the others are not gone into. Say that there are three levels with
//! two choices each, and that a list is good unless it has 1 twice in a row. Then the good full lists are 000, 001,
//! 010, 100 and 101, in this order, and there are 2 + 4 + 6 tries, two after each good list that is not full.
//!
//! A [`Search`] goes through them. [`Search::step`] makes one try; [`Search::turn`] makes up to a given number of
//! them in one go. Both stop at each good full list, at the end, and where [`Fuel`], a limit of tries, is used up,
//! and can be asked to go on from there. No memory is taken after [`Search::begin`]. The crate stands apart so that
//! order and number of tries are proved once, for every problem.
//!
//! # What a contract sees
//!
//! A [`Problem`] is seen by three ghost members: its `space`, a `Space` of `specs/Spaces`, which never changes; what
//! is `placed`; and its `base`, what else callers want back. A `Search` is seen as a `Standing` of `specs/Standings`:
//! the problem, the choices that are placed, and the choice to try next. `Fuel` is seen as an `Allowance`, a limit
//! and the number used, `Steps` as the number of tries that it counted, and a `Room` as the number of levels that it
//! can hold.
//!
//! What is still to come where a search stands is one list, `coming` of `specs/Tries`: an event for each try, which
//! tells nothing or the good full list that the try completes. `told` has the lists in it and `tries_left` is the
//! number of tries. At the beginning these are `full_lists` and `need` of `specs/Spaces`. A step takes the first
//! event off (`TakesFirst` of `specs/Outcomes`), a turn several (`TakesRun`). Laws for callers stand in
//! `proofs/CountLaws` and `proofs/TakenLaws`.
//!
//! # How a caller loops
//!
//! Each step but the last takes an event off, and so does each turn with `at_most` above 0. So a loop ends by the
//! number of events that are still to come:
//!
//! ```text
//! loop {
//!     match search.turn(1000, fuel, steps) {
//!         Turn::Going => {}
//!         Turn::Found => found = found.wrapping_add(1),
//!         Turn::Done | Turn::Spent => return found,
//!     }
//! }
//! ```
//!
//! and in the caller's `Invariants.antt`, where the loop is that over `found`
//!
//! ```text
//! decreases-loop-found g l = length (coming (g.P.Problem.space l.search.problem) l.search.choices l.search.next)
//! ```
//!
//! It needs no invariant: each call says by its clause `space` that the space stays as it is.
#![tactic(auto)]

mod fuel;
mod problem;
mod room;
mod run;
mod search;
mod steps;
#[cfg(test)]
mod tests;
#[cfg(test)]
mod toy;

pub use fuel::Fuel;
pub use problem::Problem;
pub use room::Room;
pub use search::{BeginRefused, Search, Step, Turn};
pub use steps::Steps;
