//! One example.
ghost use Rattle.std.specs.Prelude.{◌≡◌, ◌∷◌, ◌++◌, ◌<◌, [], None, IfErr, IfOk};
ghost use Rattle.eir_term.specs.Facts.{fact_eq};
ghost use Rattle.eir_term.specs.Lists.{without};
ghost use Rattle.eir_edit.specs.Causes.{first_cause, told};
ghost use Rattle.eir_edit.specs.Histories.{facts_on, has_name};
ghost use Rattle.eir_edit.specs.Edits.{last_version, versioned, new_example, renewed};
ghost use Rattle.eir_edit.specs.Edits.{put_on, insert_tests, cut_from, remove_tests};

use crate::refused::EditRefused;
use crate::versions::Versions;
use eir_inst::Instance;
use eir_term::{Fact, Memory, Side, Text};
use std::alloc::Global;
use std::marker::Model;
use std::rc::Rc;

/// The most facts of an instance.
const FACT_LIMIT: u64 = 512;

/// A named data example: a source instance with a target instance (Alexe, ten Cate, Kolaitis, Tan 2011), each of up to
/// 512 facts. The instances are shared with the older versions of the example, and with searches.
#[derive(Drop)]
pub struct Example {
    pub name: Text,
    /// Tells the example: equal versions are one example, name and all.
    pub version: u64,
    pub source: Rc<Instance>,
    pub target: Rc<Instance>,
}

impl Model for Example {
    ghost use Rattle.std.specs.Prelude.{◌≡◌};
    ghost use Rattle.eir_edit.specs.Histories.{Example as NamedExample};

    ghost Value = { NamedExample };

    ghost view = { λ e. record {
      name = e.name;
      version = e.version;
      source = e.source.value.facts;
      target = e.target.value.facts;
    } };

    ghost invariant = { λ e. (e.source.value.limit ≡ 512) × (e.target.value.limit ≡ 512) };
}

impl Example {
    /// An example with no fact.
    pub(crate) fn empty(alloc: Global, version: u64, name: &Text) -> Result<Example, Memory>
        ensures { IfOk result (λ x. x ≡ new_example version name.now) }
    {
        Ok(Example {
            name: Text::make(alloc, name.bytes())?,
            version,
            source: Rc::new(alloc, Instance::new(alloc, FACT_LIMIT))?,
            target: Rc::new(alloc, Instance::new(alloc, FACT_LIMIT))?,
        })
    }

    /// Whether it has the name.
    pub(crate) fn has_name(&self, name: &Text) -> bool
        ensures { result ≡ has_name name.now self.now }
    {
        name.bytes() == self.name.bytes()
    }

    /// The version.
    pub(crate) fn version(&self) -> u64
        ensures { result ≡ self.now.version }
    {
        self.version
    }

    /// The instance of a side.
    fn instance(&self, side: Side) -> &Rc<Instance>
        ensures facts { result.now.value.facts ≡ facts_on side self.now }
        ensures limit { result.now.value.limit ≡ 512 }
    {
        match side {
            Side::Source => &self.source,
            Side::Target => &self.target,
        }
    }

    /// The example with a fact more on a side, under the next version. Refused, in this order: `There`, `Full(512)`,
    /// `Full` of the versions, `Memory`.
    pub(crate) fn after_put(
        &self,
        alloc: Global,
        versions: &Versions,
        side: Side,
        fact: Fact,
    ) -> Result<Example, EditRefused>
        ensures ok { IfOk result (λ x. (x ≡ put_on versions.now side fact self.now) × (versions.now < last_version)
            × (first_cause (insert_tests 512 fact (facts_on side self.now)) ≡ None)) }
        ensures refused { IfErr result
            (λ e. told e ≡ first_cause (versioned versions.now (insert_tests 512 fact (facts_on side self.now)))) }
    {
        let instance = self.instance(side);
        if instance.contains(&fact) {
            return Err(EditRefused::There);
        }
        if instance.len() as u64 >= FACT_LIMIT {
            return Err(EditRefused::Full(FACT_LIMIT));
        }
        let version = versions.next()?;
        let grown = with_fact(instance, fact)?;
        let example = self.renewed(alloc, version, side, grown)?;
        Ok(example)
    }

    /// The example without a fact of a side, under the next version. Refused, in this order: `Missing`, `Full` of the
    /// versions, `Memory`.
    pub(crate) fn after_cut(
        &self,
        alloc: Global,
        versions: &Versions,
        side: Side,
        fact: &Fact,
    ) -> Result<Example, EditRefused>
        ensures ok { IfOk result (λ x. (x ≡ cut_from versions.now side fact.now self.now) × (versions.now < last_version)
            × (first_cause (remove_tests fact.now (facts_on side self.now)) ≡ None)) }
        ensures refused { IfErr result
            (λ e. told e ≡ first_cause (versioned versions.now (remove_tests fact.now (facts_on side self.now)))) }
    {
        let instance = self.instance(side);
        if !instance.contains(fact) {
            return Err(EditRefused::Missing);
        }
        let version = versions.next()?;
        let shrunk = without_fact(instance, fact)?;
        let example = self.renewed(alloc, version, side, shrunk)?;
        Ok(example)
    }

    /// An equal example, whose instances are settled. It costs its line, and a reference for each instance that is settled;
    /// for another, what [`Instance::settled`] does.
    pub(crate) fn settled(&self, alloc: Global) -> Result<Example, Memory>
        ensures { IfOk result (λ x. x ≡ self.now) }
    {
        Ok(Example {
            name: Text::make(alloc, self.name.bytes())?,
            version: self.version,
            source: Instance::share_settled(&self.source)?,
            target: Instance::share_settled(&self.target)?,
        })
    }

    /// The example with another instance on a side, under another version. The instance of the other side is shared.
    fn renewed(
        &self,
        alloc: Global,
        version: u64,
        side: Side,
        instance: Instance,
    ) -> Result<Example, Memory>
        requires { instance.limit ≡ 512 }
        ensures { IfOk result (λ x. x ≡ renewed version side instance.facts self.now) }
    {
        let name = Text::make(alloc, self.name.bytes())?;
        let instance = Rc::new(alloc, instance)?;
        let (source, target) = match side {
            Side::Source => (instance, self.target.clone()?),
            Side::Target => (self.source.clone()?, instance),
        };
        Ok(Example {
            name,
            version,
            source,
            target,
        })
    }
}

/// A copy of the instance with a fact more, which is not there and has room.
fn with_fact(instance: &Instance, fact: Fact) -> Result<Instance, Memory>
    ensures facts { IfOk result (λ grown. grown.facts ≡ instance.now.facts ++ fact ∷ []) }
    ensures limit { IfOk result (λ grown. grown.limit ≡ instance.now.limit) }
{
    let mut copy = instance.copy()?;
    match copy.insert(fact) {
        Ok(()) => Ok(copy),
        Err(_) => Err(Memory),
    }
}

/// A copy of the instance without a fact, which is there.
fn without_fact(instance: &Instance, fact: &Fact) -> Result<Instance, Memory>
    ensures facts { IfOk result (λ shrunk. shrunk.facts ≡ without fact_eq fact.now instance.now.facts) }
    ensures limit { IfOk result (λ shrunk. shrunk.limit ≡ instance.now.limit) }
{
    let mut copy = instance.copy()?;
    match copy.remove(fact) {
        Ok(()) => Ok(copy),
        Err(_) => Err(Memory),
    }
}
