//! Verdicts.
use eir_dep::Mapping;
use eir_term::Map;

/// What a fit finds, in the order in which it is looked for; places of examples count from 0.
#[derive(Drop)]
pub enum Verdict {
    /// The target of the example has a constant that its source lacks.
    Domain {
        example: usize,
        constant: u64,
    },
    /// The target of the example does not fold.
    Fold {
        example: usize,
    },
    /// A homomorphism between the sources extends to none between the targets.
    Refuted {
        first: usize,
        second: usize,
        map: Map,
    },
    /// The canonical mapping fits.
    Fits(Mapping),
}
