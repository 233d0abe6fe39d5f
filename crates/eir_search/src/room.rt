//! Memory for the choices of a search.
ghost use Rattle.std.specs.Prelude.{◌≡◌, ℕ, ◌+◌, ◌<◌, ◌^◌, IfOk, slice_index, vec_len};

use std::alloc::{AllocError, Global};
use std::marker::Model;

/// Memory for the choices of a search, seen as the number of levels that it can hold.
#[derive(Drop)]
pub struct Room {
    slots: Vec<usize>,
}

impl Model for Room {
    ghost use Rattle.std.specs.Prelude.{ℕ, ◌+◌, ◌<◌, ◌^◌, vec_len, slice_index};

    ghost Value = { ℕ };

    ghost view = { λ room. vec_len room.slots };

    // After each choice there is a number for the next one.
    ghost invariant = { λ room. (k : ℕ) → slice_index room.slots.items k + 1 < 2 ^ 64 };
}

impl Room {
    /// Memory for so many levels.
    pub(crate) fn new(alloc: Global, levels: usize) -> Result<Room, AllocError>
        ensures { IfOk result (λ room. room ≡ levels) }
    {
        Ok(Room {
            slots: vec![in alloc; 0; levels]?,
        })
    }

    /// Memory that has choices in it.
    pub(crate) fn of(slots: Vec<usize>) -> Room
        requires { (k : ℕ) → slice_index slots.items k + 1 < 2 ^ 64 }
        ensures { result ≡ vec_len slots }
    {
        Room { slots }
    }

    /// The memory.
    pub(crate) fn into_slots(self) -> Vec<usize>
        ensures len { vec_len result ≡ self }
        ensures fits { (k : ℕ) → slice_index result.items k + 1 < 2 ^ 64 }
    {
        self.slots
    }
}
