//! Replies.
use crate::{Reduction, StoredFiles};
use eir_inst::Instance;
use eir_term::{Kind, Text};
use eir_verdict::Verdict;

/// What an accepted line is answered.
#[derive(Drop)]
pub enum Reply {
    /// What it asks for was done, and there is no more to tell.
    Done,
    /// What a fit for the kind found.
    Verdict(Kind, Box<Verdict>),
    /// The budget was used up while so many pairs were decided.
    Spent { limit: u64, pairs: u64 },
    /// The budget was used up later.
    SpentAt { limit: u64, at: At },
    /// The tries that the last fit made.
    Tries(u64),
    /// A reduced mapping.
    Reduced(Kind, Box<Reduction>),
    /// The facts that the source of the example of the name makes.
    Chased(Text, Box<Instance>),
    /// The file that a certificate was stored in, with the number of its bytes.
    Cert(Text, u64),
    /// The tables that were stored.
    Exchange(StoredFiles),
}

/// Where a budget was used up.
#[derive(Clone, Copy, Debug, PartialEq, Eq)]
pub enum At {
    /// At the test of a part of a mapping, counted from 1.
    Part(u64),
    Chase,
    Exchange,
    Cert,
}
