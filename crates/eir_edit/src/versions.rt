//! The numbers by which changed examples are told apart.
ghost use Rattle.std.specs.Prelude.{◌≡◌, ◌+◌, ◌<◌, IfOk, IfErr};
ghost use Rattle.eir_edit.specs.declared.refused.EditRefused.TheVariants.{Full};
ghost use Rattle.eir_edit.specs.Edits.{last_version};

use crate::refused::EditRefused;
use std::marker::Model;

/// The version that is never drawn.
const LAST_VERSION: u64 = u64::MAX;

/// A count of the versions drawn. The next one is their number, so that no version is drawn twice.
#[derive(Drop)]
pub struct Versions {
    drawn: u64,
}

impl Model for Versions {
    ghost use Rattle.std.specs.Prelude.{ℕ};

    ghost Value = { ℕ };

    ghost view = { λ v. v.drawn };
}

impl Versions {
    /// None is drawn. It takes no memory.
    pub fn new() -> Versions
        ensures { result ≡ 0 }
    {
        Versions { drawn: 0 }
    }

    /// The version that is drawn next, where there is one left.
    pub(crate) fn next(&self) -> Result<u64, EditRefused>
        ensures ok { IfOk result (λ n. (n ≡ self.now) × (n < last_version)) }
        ensures err { IfErr result (λ e. (e ≡ Full last_version) × (self.now ≡ last_version)) }
    {
        if self.drawn == LAST_VERSION {
            return Err(EditRefused::Full(LAST_VERSION));
        }
        Ok(self.drawn)
    }

    /// Draws the next version.
    pub(crate) fn draw(&mut self)
        requires { self.old < last_version }
        ensures { self.new ≡ self.old + 1 }
    {
        self.drawn += 1;
    }
}
