//! The choice of the fact that a search places next.
ghost use Rattle.std.specs.Prelude.{◌≡◌, ℕ, ◌<◌, ◌^◌};
ghost use Rattle.eir_hom.specs.declared.atom_view.AtomView.{AtomView};
ghost use Rattle.eir_hom.specs.Views.{IsView, view_weight};

use crate::AtomView;

/// What answers with the weight of a fact.
type Choose = Box<dyn Fn(AtomView) -> u64>;

/// What tells the weight of a fact, by a closure of its maker's: the fact of least weight is placed next.
#[derive(Drop)]
pub struct Planner {
    choose: Choose,
    ghost callable: { (view : AtomView) → IsView view → Choose.pre choose view },
    ghost weighs: { (view : AtomView) (w : ℕ)
        → IsView view → w < 2 ^ 64 → Choose.post choose view w → w ≡ view_weight view },
}

impl Planner {
    /// The planner that asks this closure, which may be called on every view and answers with the weight.
    pub fn new(choose: Choose) -> Planner
        requires callable { (view : AtomView) → IsView view → Choose.pre choose view }
        requires weighs { (view : AtomView) (w : ℕ)
            → IsView view → w < 2 ^ 64 → Choose.post choose view w → w ≡ view_weight view }
    {
        Planner { choose }
    }

    /// The weight of a fact, as the closure answers it.
    pub(crate) fn weight(&self, view: AtomView) -> u64
        requires { IsView view }
        ensures { result ≡ view_weight view }
    {
        (self.choose)(view)
    }
}

/// Who tells the weight of a fact.
#[derive(Clone, Copy)]
pub(crate) enum Chooser<'p> {
    /// The weight is worked out here.
    Standard,
    /// A planner is asked.
    Planned(&'p Planner),
}

impl Chooser<'_> {
    /// The weight of a fact.
    pub(crate) fn weight(&self, view: AtomView) -> u64
        requires { IsView view }
        ensures { result ≡ view_weight view }
    {
        match self {
            Chooser::Standard => standard_weight(view),
            Chooser::Planned(planner) => planner.weight(view),
        }
    }
}

/// The weight of a fact: its columns that are not known, most of all where none is, and then the facts it may go to.
fn standard_weight(view: AtomView) -> u64
    requires { IsView view }
    ensures { result ≡ view_weight view }
{
    let unknown = (view.arity - view.bound) as u64 * 1_048_576;
    let few = view.count.min(1_048_575);
    let none_known = if view.bound == 0 { 33_554_432 } else { 0 };
    unknown + few + none_known
}
