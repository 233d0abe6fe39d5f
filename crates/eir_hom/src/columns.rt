//! The columns of a level.
ghost use Rattle.std.specs.Prelude.{◌≡◌, ℕ, ◌<◌, false, List, length, get_or};
ghost use Rattle.eir_hom.specs.Columns.{is_among, seen_after, slots_of, AreBelow, AreColumns};

/// A column of a level: its slot, and whether the slot gets its number here or has one before.
#[derive(Clone, Copy, Debug, PartialEq, Eq)]
pub(crate) struct Column {
    pub(crate) slot: usize,
    pub(crate) is_new: bool,
}

/// Finds out which columns are new, where `is_bound` says of each slot whether it is bound before them; afterwards it
/// says whether a slot is bound after them.
pub(crate) fn mark_new(columns: &mut [Column], is_bound: &mut [bool])
    requires { AreBelow (slots_of columns.old) (length is_bound.old) }
    ensures slots { slots_of columns.new ≡ slots_of columns.old }
    ensures length { length is_bound.new ≡ length is_bound.old }
    ensures columns { (seen : List ℕ)
        → ((s : ℕ) → get_or is_bound.old s false ≡ is_among s seen)
        → AreColumns seen columns.new }
    ensures bound { (seen : List ℕ)
        → ((s : ℕ) → get_or is_bound.old s false ≡ is_among s seen)
        → (s : ℕ) → get_or is_bound.new s false ≡ is_among s (seen_after seen (slots_of columns.old)) }
{
    for i in 0..columns.len() {
        let slot = columns[i].slot;
        columns[i].is_new = !is_bound[slot];
        is_bound[slot] = true;
    }
}
