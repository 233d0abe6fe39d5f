//! Named examples with versions, and what the edits of a workspace do to them.
//!
//! An [`Examples`] is the present list of examples with up to 32 older lists, which [`Examples::undo`] goes back to.
//! Each accepted edit makes a new list that shares all examples but the one that it is about; the list before it is
//! kept. An example that was changed gets a version of its own from [`Versions`], so that answers about an example can
//! be kept under its version, and hold again once an undo brings it back.
//!
//! # What a contract sees
//!
//! An `Example` is seen as the record of `specs/Histories`: name, version, and the facts of both sides. An `Examples` is
//! seen as a `History`, the present list and the older ones; `list` tells that it is good (`IsGoodHistory` of
//! `specs/Goods`: distinct names, distinct facts, no null in a source, all limits). `Versions` is seen as the number of
//! versions drawn. `specs/Edits` says for each edit which tests refuse it, in order, and what it does; each call says
//! that it is done where no test holds, and that it else tells the first cause and leaves all as it was.
//!
//! `specs/State` is the state of a whole workspace, schema and settings with it, as a fold of acts over these tests. The
//! crates above speak of lines by it; `proofs/StateLaws` joins the clauses of a schema and of the examples to it, and
//! `proofs/GoodLaws` and `proofs/VersionLaws` say what every act keeps.
#![tactic(auto)]

mod example;
mod examples;
mod lists;
mod refused;
#[cfg(test)]
mod tests;
mod versions;

pub use example::Example;
pub use examples::Examples;
pub use refused::EditRefused;
pub use versions::Versions;
