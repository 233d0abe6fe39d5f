//! What is seen of a fact when its weight is asked for.

/// What is seen of a fact of the source that is not listed yet.
#[derive(Clone, Copy, Debug, PartialEq, Eq)]
pub struct AtomView {
    /// The relation.
    pub rel: u32,
    /// The number of columns, 1 to 16.
    pub arity: u32,
    /// The number of columns whose value is known: given by the start, fixed, or in a fact that is listed.
    pub bound: u32,
    /// The number of the relation's facts in the target.
    pub count: u64,
}
