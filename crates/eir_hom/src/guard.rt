//! The choice of the facts that a fact may go to.
ghost use Rattle.std.specs.Prelude.{◌≡◌, Bool};
ghost use Rattle.eir_term.specs.Profiles.{is_within};

use eir_inst::Profile;

/// What tells whether a profile is within another.
type Test = Box<dyn Fn(&Profile, &Profile) -> bool>;

/// What tells whether the profile of a value is within that of another, to which it can then go: by a closure of its
/// maker's, or by [`Profile::within`].
#[derive(Drop)]
pub struct Guard {
    kind: Kind,
}

/// Who tells it.
#[derive(Drop)]
enum Kind {
    Standard,
    Stored(Stored),
}

/// A closure that answers as [`Profile::within`] does.
#[derive(Drop)]
struct Stored {
    test: Test,
    ghost callable: { (p q : _) → Test.pre test p q },
    ghost exact: { (p q : _) (answer : Bool) → Test.post test p q answer → answer ≡ is_within p.now q.now },
}

impl Guard {
    /// The guard that asks this closure, which may be called on every two profiles and says no exactly where the first
    /// is not within the second.
    pub fn new(test: Test) -> Guard
        requires callable { (p q : _) → Test.pre test p q }
        requires exact { (p q : _) (answer : Bool) → Test.post test p q answer → answer ≡ is_within p.now q.now }
    {
        Guard {
            kind: Kind::Stored(Stored { test }),
        }
    }

    /// The guard that asks [`Profile::within`].
    pub(crate) fn standard() -> Guard {
        Guard {
            kind: Kind::Standard,
        }
    }

    /// Whether it is the guard that asks [`Profile::within`].
    pub(crate) fn is_standard(&self) -> bool {
        matches!(self.kind, Kind::Standard)
    }

    /// Whether the one profile is within the other, as the guard answers it.
    pub(crate) fn passes(&self, from: &Profile, to: &Profile) -> bool
        ensures { result ≡ is_within from.now to.now }
    {
        match &self.kind {
            Kind::Standard => from.within(to),
            Kind::Stored(stored) => (stored.test)(from, to),
        }
    }
}
