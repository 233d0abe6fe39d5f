//! Why a call of a source, a sink or a shelf stops.
ghost use Rattle.std.specs.Prelude.{◌≡◌};
ghost use Rattle.eir_io.specs.declared.stop.LoadStop.{LoadStop};
ghost use Rattle.eir_io.specs.declared.stop.Stop.{Stop};

use eir_term::Memory;
use std::alloc::{AllocError, AllocFailed};

/// The call failed, and the count of faults of what was called rose.
#[derive(Clone, Copy, Debug, PartialEq, Eq)]
pub struct Failed;

/// Why a write or a store stopped.
#[derive(Clone, Copy, Debug, PartialEq, Eq)]
pub enum Stop {
    /// The call failed, and the count of faults of what was called rose.
    Failed,
    /// There was no memory.
    Memory,
}

/// Why no file was loaded. The causes are tested in this order.
#[derive(Clone, Copy, Debug, PartialEq, Eq)]
pub enum LoadStop {
    /// There is no file of that name.
    Missing,
    /// The file has more bytes than the limit.
    TooLong,
    /// The call failed, and the count of faults of the shelf rose.
    Failed,
    /// There was no memory.
    Memory,
}

impl From<Memory> for Stop {
    ghost from_gives = { λ _ stop. stop ≡ Stop.Memory };

    fn from(_: Memory) -> Self {
        Stop::Memory
    }
}

impl From<AllocError> for Stop {
    ghost from_gives = { λ _ stop. stop ≡ Stop.Memory };

    fn from(_: AllocError) -> Self {
        Stop::Memory
    }
}

impl<T: Drop> From<AllocFailed<T>> for Stop {
    ghost from_gives = { λ _ stop. stop ≡ Stop.Memory };

    fn from(_: AllocFailed<T>) -> Self {
        Stop::Memory
    }
}

impl From<AllocError> for LoadStop {
    ghost from_gives = { λ _ stop. stop ≡ LoadStop.Memory };

    fn from(_: AllocError) -> Self {
        LoadStop::Memory
    }
}
