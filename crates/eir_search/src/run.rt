//! A run of several tries.
ghost use Rattle.std.specs.Prelude.{◌≡◌, ◌≢◌, ℕ, ◌+◌, ◌-◌, ◌<◌, ◌≤◌, ◌^◌, length, take, slice_index};
ghost use Rattle.eir_search.specs.Tries.{coming, tries_left};
ghost use Rattle.eir_search.specs.Outcomes.{TakesRun};

use crate::{Problem, Turn};

/// How a run ended, where the search stands then, and how many of its tries were not made.
pub(crate) struct Run {
    pub(crate) turn: Turn,
    pub(crate) level: usize,
    pub(crate) choice: usize,
    pub(crate) left: u64,
}

/// The number of choices at a level, 0 where a full list is placed.
fn width_at<P: Problem>(problem: &P, level: usize) -> usize
    requires { level ≤ length (P.placed problem.now) }
    ensures below { level < (P.space problem.now).levels
        → result ≡ (P.space problem.now).width (take level (P.placed problem.now)) }
    ensures full { (P.space problem.now).levels ≤ level → result ≡ 0 }
{
    if level < problem.levels() {
        problem.width(level)
    } else {
        0
    }
}

/// Makes up to `tries` tries, that of `choice` at `level` first, until one completes a good full list or none is left.
/// The choices that are placed stand in front in `choices`.
pub(crate) fn make_tries<P: Problem>(
    problem: &mut P,
    choices: &mut [usize],
    mut level: usize,
    mut choice: usize,
    tries: u64,
) -> Run
    requires within { level ≤ (P.space problem.old).levels }
    requires room { (P.space problem.old).levels ≤ length choices.old }
    requires placed { P.placed problem.old ≡ take level choices.old }
    requires told { level ≡ (P.space problem.old).levels → 0 < choice }
    requires fits { (k : ℕ) → slice_index choices.old k + 1 < 2 ^ 64 }
    ensures space { P.space problem.new ≡ P.space problem.old }
    ensures base { P.base problem.new ≡ P.base problem.old }
    ensures within { result.level ≤ (P.space problem.old).levels }
    ensures room { length choices.new ≡ length choices.old }
    ensures placed { P.placed problem.new ≡ take result.level choices.new }
    ensures told { result.level ≡ (P.space problem.old).levels → 0 < result.choice }
    ensures fits { (k : ℕ) → slice_index choices.new k + 1 < 2 ^ 64 }
    ensures left { result.left ≤ tries }
    ensures takes { TakesRun result.turn (P.space problem.old) (tries - result.left)
        (coming (P.space problem.old) (take level choices.old) choice)
        (coming (P.space problem.old) (take result.level choices.new) result.choice)
        (take result.level choices.new) }
    ensures fewer { tries_left (P.space problem.old) (take level choices.old) choice
        ≡ tries - result.left + tries_left (P.space problem.old) (take result.level choices.new) result.choice }
    ensures going { result.turn ≡ Turn.Going
        → (result.left ≡ 0)
        × (0 < tries_left (P.space problem.old) (take result.level choices.new) result.choice) }
    ensures not_spent { result.turn ≢ Turn.Spent }
{
    let levels = problem.levels();
    let mut width = width_at(problem, level);
    let mut left = tries;
    let turn = 'tries: loop {
        if choice >= width {
            if level == 0 {
                break Turn::Done;
            }
            level -= 1;
            problem.lift(level);
            choice = choices[level] + 1;
            width = problem.width(level);
            continue;
        }
        if left == 0 {
            break Turn::Going;
        }
        let end = choice + left.min((width - choice) as u64) as usize;
        let found = problem.scan(level, choice, end);
        if found == end {
            left -= (end - choice) as u64;
            choice = end;
            continue;
        }
        left -= (found - choice + 1) as u64;
        choices[level] = found;
        level += 1;
        if level == levels {
            choice = 1;
            break Turn::Found;
        }
        choice = 0;
        width = problem.width(level);
    };
    Run {
        turn,
        level,
        choice,
        left,
    }
}
