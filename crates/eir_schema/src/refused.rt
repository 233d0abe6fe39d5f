//! Why a declaration is refused.
use eir_term::Memory;
use thiserror::Error;

/// Why a relation was not declared, in the order in which it is tested.
#[derive(Debug, Drop, PartialEq, Eq, Error)]
pub enum DeclareRefused {
    /// A relation of the name is declared on either side, or two of the columns are equal.
    #[error("the name, or a column, is there already")]
    Taken,
    /// A limit, which is given: of 16 columns of the relation, and after it of 64 relations of the side.
    #[error("there is room for {0} alone")]
    Full(u64),
    /// There was no memory.
    #[error("no memory")]
    Memory,
}

impl From<Memory> for DeclareRefused {
    ghost use Rattle.std.specs.Prelude.{◌≡◌};
    ghost use Rattle.eir_schema.specs.declared.refused.DeclareRefused.TheVariants.{Memory as WantsMemory};

    ghost from_gives = { λ _ e. e ≡ WantsMemory };

    fn from(_: Memory) -> Self {
        DeclareRefused::Memory
    }
}
