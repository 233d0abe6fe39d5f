//! A problem for the tests, of up to three levels. After a choice 0, 1 or 2 there are 2, 0 or 3 choices, and 3 at the
//! beginning; a choice 1 right after a choice 2 is not good. It counts its tries.
ghost use Rattle.std.specs.Prelude.{◌≡◌, ℕ, ◌+◌, ◌-◌, ◌<◌, ◌≤◌, ◌==◌, ◌&&◌, List, [], ◌∷◌, ◌++◌, true, false, not, length, take, slice_index, if◌then◌else◌};
ghost use Rattle.eir_search.specs.Spaces.{Space};

use crate::Problem;

#[derive(Drop)]
pub struct Toy {
    levels: usize,
    choices: [usize; 3],
    depth: usize,
    pub tries: u64,
    ghost room: { levels ≤ 3 },
    ghost within: { depth ≤ levels },
}

impl Toy {
    /// The toy of so many levels, three at most, with nothing placed and no try counted.
    pub fn new(levels: usize) -> Toy
        ensures { result.depth ≡ 0 }
    {
        Toy {
            levels: levels.min(3),
            choices: [0; 3],
            depth: 0,
            tries: 0,
        }
    }
}

impl Problem for Toy {
    type Base = ();

    ghost space = { λ s. record {
      levels = s.levels;
      width = λ p.
          if length p == 0 then 3
          else if slice_index p (length p - 1) == 0 then 2
          else if slice_index p (length p - 1) == 1 then 0
          else 3;
      good = λ p. not (slice_index p (length p - 1) == 1 && slice_index p (length p - 2) == 2);
    } };

    ghost placed = { λ s. take s.depth s.choices };

    ghost base = { λ _. tt };

    fn levels(&self) -> usize {
        self.levels
    }

    fn width(&self, level: usize) -> usize {
        if level == 0 {
            return 3;
        }
        match self.choices[level - 1] {
            0 => 2,
            1 => 0,
            _ => 3,
        }
    }

    fn place(&mut self, level: usize, choice: usize) -> bool {
        self.tries = self.tries.wrapping_add(1);
        if choice == 1 && level > 0 && self.choices[level - 1] == 2 {
            return false;
        }
        self.choices[level] = choice;
        self.depth = level + 1;
        true
    }

    fn scan(&mut self, level: usize, from: usize, to: usize) -> usize {
        for choice in from..to {
            if self.place(level, choice) {
                return choice;
            }
        }
        to
    }

    fn lift(&mut self, level: usize) {
        self.depth = level;
    }
}
