//! How a turn ends.

/// How a turn of the test of a pair ended.
#[derive(Clone, Copy, Debug, PartialEq, Eq)]
pub enum Turn {
    /// As many tries were made as the turn may make, a try is next, and the fuel is not used up.
    Going,
    /// Each homomorphism between the sources extends to the targets.
    Extends,
    /// A homomorphism between the sources does not: `PairTest::map` has the first such one.
    Fails,
    /// A try is next, and the fuel is used up.
    Spent,
}
