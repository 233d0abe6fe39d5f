//! What is searched.
ghost use Rattle.std.specs.Prelude.{◌≡◌, ℕ, ◌+◌, ◌<◌, ◌≤◌, List, [], ◌∷◌, ◌++◌, true, false, length, take, if◌then◌else◌};
ghost use Rattle.eir_search.specs.Spaces.{Space};

/// Lists of choices, one choice for each level, of which some are good; and the list that is placed now.
///
/// An implementor keeps the placed list, as far as its test of the next choice needs it. The space (how many levels
/// there are, how many choices after each list, and which lists are good) never changes.
pub trait Problem {
    /// What else a problem was made with, as far as callers want it back unchanged. A counter need not be part of it.
    type Base;

    ghost space: { Self → Space };

    ghost placed: { Self → List ℕ };

    ghost base: { Self → Self.Base };

    /// The number of levels.
    fn levels(&self) -> usize
        ensures { result ≡ (space self.now).levels };

    /// The number of choices at a level, after what is placed at the levels before it.
    fn width(&self, level: usize) -> usize
        requires below { level < (space self.now).levels }
        requires placed { level ≤ length (placed self.now) }
        ensures { result ≡ (space self.now).width (take level (placed self.now)) };

    /// Tries a choice at the next level: places it and answers true exactly where that makes a good list.
    fn place(&mut self, level: usize, choice: usize) -> bool
        requires below { level < (space self.old).levels }
        requires level { level ≡ length (placed self.old) }
        requires choice { choice < (space self.old).width (placed self.old) }
        ensures space { space self.new ≡ space self.old }
        ensures base { base self.new ≡ base self.old }
        ensures test { result ≡ (space self.old).good (placed self.old ++ choice ∷ []) }
        ensures placed { placed self.new ≡ (if result then placed self.old ++ choice ∷ [] else placed self.old) };

    /// Tries the choices from `from` on and before `to` at the next level, in order, up to the first that makes a good
    /// list; places that one and answers it, or answers `to` where there is none.
    fn scan(&mut self, level: usize, from: usize, to: usize) -> usize
        requires below { level < (space self.old).levels }
        requires level { level ≡ length (placed self.old) }
        requires from { from ≤ to }
        requires to { to ≤ (space self.old).width (placed self.old) }
        ensures space { space self.new ≡ space self.old }
        ensures base { base self.new ≡ base self.old }
        ensures from { from ≤ result }
        ensures to { result ≤ to }
        ensures bad { (k : ℕ) → from ≤ k → k < result → (space self.old).good (placed self.old ++ k ∷ []) ≡ false }
        ensures good { result < to → (space self.old).good (placed self.old ++ result ∷ []) ≡ true }
        ensures placed { result < to → placed self.new ≡ placed self.old ++ result ∷ [] }
        ensures none { result ≡ to → placed self.new ≡ placed self.old };

    /// Takes the last placed choice away, which is that of `level`.
    fn lift(&mut self, level: usize)
        requires { level + 1 ≡ length (placed self.old) }
        ensures space { space self.new ≡ space self.old }
        ensures base { base self.new ≡ base self.old }
        ensures placed { placed self.new ≡ take level (placed self.old) };
}
