//! A limit of tries.
ghost use Rattle.std.specs.Prelude.{◌≡◌, ◌+◌, ◌-◌, ◌≤◌};

use std::marker::Model;

/// A limit of tries, and how many of them were made.
#[derive(Drop)]
pub struct Fuel {
    limit: u64,
    used: u64,
}

impl Model for Fuel {
    ghost use Rattle.std.specs.Prelude.{◌≤◌};
    ghost use Rattle.eir_search.specs.Standings.{Allowance};

    ghost Value = { Allowance };

    ghost view = { λ f. record { limit = f.limit; used = f.used } };

    ghost invariant = { λ f. f.used ≤ f.limit };
}

impl Fuel {
    /// A limit of which nothing was used.
    pub fn new(limit: u64) -> Fuel
        ensures { result ≡ record { limit = limit; used = 0 } }
    {
        Fuel { limit, used: 0 }
    }

    /// The most tries that may be made.
    pub fn limit(&self) -> u64
        ensures { result ≡ self.now.limit }
    {
        self.limit
    }

    /// How many tries were made.
    pub fn used(&self) -> u64
        ensures used { result ≡ self.now.used }
        ensures within { self.now.used ≤ self.now.limit }
    {
        self.used
    }

    /// How many tries may still be made.
    pub(crate) fn left(&self) -> u64
        ensures left { self.now.used + result ≡ self.now.limit }
    {
        self.limit - self.used
    }

    /// So many tries were made.
    pub(crate) fn burn(&mut self, tries: u64)
        requires { self.old.used + tries ≤ self.old.limit }
        ensures { self.new ≡ record { limit = self.old.limit; used = self.old.used + tries } }
    {
        self.used += tries;
    }
}
