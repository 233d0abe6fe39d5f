//! The texts of facts, dependencies, replies and refusals. Here numbers become names.
//!
//! [`print_reply`] and [`print_refusal`] write what a line is answered, [`print_dep`] a dependency as
//! `E(x1,x2) -> exists y1 . P(x1,y1)`, and [`print_fact`] a fact as `P(ann,?n)`. Each appends to a text that its caller
//! has. Where there is no memory for all of it, what was there is followed by a prefix of it.
//!
//! # What a contract sees
//!
//! The texts are definitions of `specs/`, apart from the code: `Words` has those of names, `Facts` that of a fact,
//! `Dependencies` that of a dependency, `Verdicts` that of a verdict, `Replies` and `Refusals` those of a reply and of
//! a refusal. A relation, a constant or an example that is not there has the empty text. `AppendsPrefix` of
//! `specs/Prefixes` is what stands after want of memory. A [`Reply`] and a [`Refusal`] are seen as they are declared,
//! with the lists in them as lists.
#![tactic(auto)]

mod chased;
mod dependency;
mod equal;
mod exchange;
mod fact;
mod mapping;
mod numbered;
mod opening;
mod reduced;
mod refusal;
mod replies;
mod reply;
#[cfg(test)]
mod tests;
mod verdict;
mod words;

pub use dependency::print_dep;
pub use exchange::{Stored, StoredFiles};
pub use fact::print_fact;
pub use reduced::{Reasons, Reduction};
pub use refusal::{Refusal, print_refusal};
pub use replies::print_reply;
pub use reply::{At, Reply};
