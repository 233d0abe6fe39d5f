//! Why an edit is refused.
use eir_term::{Memory, Text};

/// Why an edit was refused. Each call tells the first cause that holds, in the order in which it lists its own.
#[derive(Drop)]
pub enum EditRefused {
    /// An example has the name.
    Taken,
    /// No present example has the name.
    NoExample,
    /// The fact stands in the instance.
    There,
    /// The fact does not stand in the instance.
    Missing,
    /// A limit, which is given: of 64 examples, of 512 facts of an instance, or of 2^64 - 1 versions.
    Full(u64),
    /// There is nothing to undo.
    Nothing,
    /// The stamps of the taker's and of the lender's schema, which differ.
    Foreign(Text, Text),
    /// There was no memory.
    Memory,
}

impl From<Memory> for EditRefused {
    ghost use Rattle.std.specs.Prelude.{◌≡◌};
    ghost use Rattle.eir_edit.specs.declared.refused.EditRefused.TheVariants.{Memory as WantsMemory};

    ghost from_gives = { λ _ e. e ≡ WantsMemory };

    fn from(_: Memory) -> Self {
        EditRefused::Memory
    }
}
