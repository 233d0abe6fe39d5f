//! The profiles of all values of an instance, by number.
ghost use Rattle.std.specs.Prelude.{◌≡◌, ◌++◌, ◌∷◌, ◌+◌, ◌-◌, ◌<◌, ◌≤◌, ◌^◌, [], ℕ, IfOk, IfSome, OnOk, OnErr, length};
ghost use Rattle.std.specs.Prelude.{slice_get, slice_set, slice_index_or, option_map};
ghost use Rattle.eir_term.specs.Profiles.{with_mark};
ghost use Rattle.eir_inst.specs.Marks.{undone};
ghost use Rattle.eir_term.specs.Lists.{◌∈◌};
ghost use Rattle.eir_inst.specs.Grown.{grown, blank};

use crate::profile::Profile;
use eir_term::Memory;
use std::alloc::Global;

/// Adds to the profiles of these numbers, which are of the values of a fact, its relation with their columns. There are
/// `count` values with those of the fact; the profiles of new ones go last.
pub(crate) fn push_marks(
    alloc: Global,
    profiles: &mut Vec<Profile>,
    count: usize,
    rel: u32,
    numbers: &[usize],
) -> Result<(), Memory>
    requires narrow { length numbers.now < 2 ^ 32 }
    requires numbered { (n : ℕ) → n ∈ numbers.now → n < count }
    ensures ok { OnOk result ((n : ℕ) → slice_get profiles.new.items n
        ≡ option_map (grown rel 0 numbers.now n) (slice_get (profiles.old.items
        ++ blank (count - length profiles.old.items)) n)) }
    ensures err { OnErr result (profiles.new.items ≡ profiles.old.items) }
{
    let known = profiles.len();
    let pushed = widen(alloc, profiles, count);
    let added = if pushed.is_ok() {
        add_marks(profiles, rel, 0, numbers)
    } else {
        pushed
    };
    if added.is_err() {
        profiles.truncate(known);
    }
    added
}

/// Puts empty profiles behind the others until there are `count`.
fn widen(alloc: Global, profiles: &mut Vec<Profile>, count: usize) -> Result<(), Memory>
    ensures ok { OnOk result (profiles.new.items ≡ profiles.old.items ++ blank (count - length profiles.old.items)) }
    ensures err { OnErr result ((k : ℕ) × (profiles.new.items ≡ profiles.old.items ++ blank k)) }
{
    for _ in profiles.len()..count {
        profiles.push(Profile::new(alloc))?;
    }
    Ok(())
}

/// Adds to the profiles of these numbers the relation with the columns from `column` on.
fn add_marks(
    profiles: &mut [Profile],
    rel: u32,
    column: u32,
    numbers: &[usize],
) -> Result<(), Memory>
    requires narrow { column + length numbers.now < 2 ^ 32 }
    requires numbered { (n : ℕ) → n ∈ numbers.now → n < length profiles.old }
    ensures ok { OnOk result ((n : ℕ) → slice_get profiles.new n
        ≡ option_map (grown rel column numbers.now n) (slice_get profiles.old n)) }
    ensures err { OnErr result (profiles.new ≡ profiles.old) }
{
    let Some((number, others)) = numbers.split_first() else {
        return Ok(());
    };
    let number = *number;
    let put = add_at(profiles, number, (rel, column))?;
    let added = add_marks(profiles, rel, column + 1, others);
    if added.is_err() {
        undo_at(profiles, number, put);
    }
    added
}

/// Adds a pair to the profile of a number. The answer is where it was put.
fn add_at(
    profiles: &mut [Profile],
    number: usize,
    mark: (u32, u32),
) -> Result<Option<usize>, Memory>
    requires { number < length profiles.old }
    ensures ok { OnOk result (profiles.new
        ≡ slice_set profiles.old number (with_mark mark (slice_index_or profiles.old number []))) }
    ensures undone { IfOk result (λ put. undone put (slice_index_or profiles.new number [])
        ≡ slice_index_or profiles.old number []) }
    ensures within { IfOk result (λ put. IfSome put (λ at. at < length (slice_index_or profiles.new number []))) }
    ensures err { OnErr result (profiles.new ≡ profiles.old) }
{
    let profile = &mut profiles[number];
    profile.add(mark)
}

/// Takes out of the profile of a number what was put at a place.
fn undo_at(profiles: &mut [Profile], number: usize, put: Option<usize>)
    requires number { number < length profiles.old }
    requires put { IfSome put (λ at. at < length (slice_index_or profiles.old number [])) }
    ensures { profiles.new ≡ slice_set profiles.old number (undone put (slice_index_or profiles.old number [])) }
{
    let profile = &mut profiles[number];
    profile.undo(put);
}
