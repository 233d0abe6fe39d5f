//! Which values may go to which.
ghost use Rattle.std.specs.Prelude.{◌≡◌, ℕ, ◌<◌, [], IfOk, length, map, slice_index_or};
ghost use Rattle.eir_term.specs.Instances.{values};
ghost use Rattle.eir_term.specs.Profiles.{is_within};
ghost use Rattle.eir_hom.specs.Fits.{AreFits, are_fits, fits_row};
ghost use Rattle.eir_hom.specs.FactRows.{AllUnder};

use crate::Guard;
use eir_inst::{Indexed, Profile};
use eir_term::Memory;
use std::alloc::Global;
use std::marker::Model;

/// Who tells which values of one instance may go to which of another.
#[derive(Drop)]
pub(crate) enum Fits {
    /// The profiles of the two values, when it is asked.
    Profiles,
    /// What a guard answered before.
    Answered(Answers),
}

/// The answers of a guard: for each value of the one instance those for the values of the other, by number.
#[derive(Drop)]
pub(crate) struct Answers {
    rows: Vec<Vec<bool>>,
}

impl Model for Answers {
    ghost use Rattle.std.specs.Prelude.{List, Bool, map};

    ghost Value = { List (List Bool) };

    ghost view = { λ a. map (λ r. r.items) a.rows.items };
}

impl Fits {
    /// What this guard says of the values of the two instances. A guard of a caller's is asked here, for each pair of
    /// profiles, and never later.
    pub(crate) fn new(
        alloc: Global,
        guard: &Guard,
        a: &Indexed,
        b: &Indexed,
    ) -> Result<Fits, Memory>
        ensures { IfOk result (AreFits a.now.facts b.now.facts) }
    {
        if guard.is_standard() {
            return Ok(Fits::Profiles);
        }
        let answers = Answers::ask(alloc, guard, a.profiles(), b.profiles())?;
        Ok(Fits::Answered(answers))
    }

    /// Whether each value of the one row may go to the one at its column of the other.
    pub(crate) fn pass(&self, a: &Indexed, b: &Indexed, from: &[usize], to: &[usize]) -> bool
        requires fits { AreFits a.now.facts b.now.facts self.now }
        requires from { AllUnder (length (values a.now.facts)) from.now }
        requires to { AllUnder (length (values b.now.facts)) to.now }
        ensures { result ≡ fits_row (are_fits a.now.facts b.now.facts) from.now to.now }
    {
        if from.len() != to.len() {
            return false;
        }
        match self {
            Fits::Profiles => are_within(a.profiles(), b.profiles(), from, to),
            Fits::Answered(answers) => answers.are_yes(from, to),
        }
    }
}

impl Answers {
    /// The answers of the guard for values with these profiles.
    fn ask(
        alloc: Global,
        guard: &Guard,
        from: &[Profile],
        to: &[Profile],
    ) -> Result<Answers, Memory>
        ensures { IfOk result (λ a. a ≡ map (λ p. map (is_within p) to.now) from.now) }
    {
        let mut rows = Vec::new(alloc);
        for profile in from {
            let row = ask_one(alloc, guard, profile, to)?;
            rows.push(row)?;
        }
        Ok(Answers { rows })
    }

    /// Whether each answer for the one row and the other is yes.
    fn are_yes(&self, from: &[usize], to: &[usize]) -> bool
        requires same { length from.now ≡ length to.now }
        requires from { AllUnder (length self.now) from.now }
        requires to { (k : ℕ) → k < length self.now → AllUnder (length (slice_index_or self.now k [])) to.now }
        ensures { result ≡ fits_row self.now from.now to.now }
    {
        for i in 0..from.len() {
            if !self.rows[from[i]][to[i]] {
                return false;
            }
        }
        true
    }
}

/// The answers of the guard for one profile and each of these.
fn ask_one(
    alloc: Global,
    guard: &Guard,
    profile: &Profile,
    to: &[Profile],
) -> Result<Vec<bool>, Memory>
    ensures { IfOk result (λ r. r.items ≡ map (is_within profile.now) to.now) }
{
    let mut row = Vec::with_capacity(alloc, to.len())?;
    for other in to {
        row.push(guard.passes(profile, other))?;
    }
    Ok(row)
}

/// Whether the profile of each value of the one row is within that of the other's value at its column. It stops at the
/// first that is not.
fn are_within(profiles: &[Profile], others: &[Profile], from: &[usize], to: &[usize]) -> bool
    requires same { length from.now ≡ length to.now }
    requires from { AllUnder (length profiles.now) from.now }
    requires to { AllUnder (length others.now) to.now }
    ensures { result ≡ fits_row (map (λ p. map (is_within p) others.now) profiles.now) from.now to.now }
{
    for i in 0..from.len() {
        if !profiles[from[i]].within(&others[to[i]]) {
            return false;
        }
    }
    true
}
