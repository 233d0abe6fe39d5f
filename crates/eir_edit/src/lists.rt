//! Lists of examples, which share their examples with other lists.
ghost use Rattle.std.specs.Prelude.{◌≡◌, ◌∷◌, ◌++◌, ◌<◌, [], IfOk, length, map, position, remove, set};
ghost use Rattle.std.specs.List.{list_any};
ghost use Rattle.eir_edit.specs.Histories.{has_name, has_version};

use crate::example::Example;
use eir_term::{Memory, Text};
use std::alloc::Global;
use std::rc::Rc;

/// The place of the example of this name, from 0. It compares at most 64 names.
pub fn place_of(examples: &[Rc<Example>], name: &Text) -> Option<usize>
    ensures { result ≡ position (has_name name.now) (map (λ x. x.value) examples.now) }
{
    'examples: for place in 0..examples.len() {
        if examples[place].has_name(name) {
            return Some(place);
        }
    }
    None
}

/// Whether an example has this version.
pub fn has_version(examples: &[Rc<Example>], version: u64) -> bool
    ensures { result ≡ has_version version (map (λ x. x.value) examples.now) }
{
    'examples: for place in 0..examples.len() {
        if examples[place].version() == version {
            return true;
        }
    }
    false
}

/// Whether an example of one of these lists has this version.
pub fn has_version_in(lists: &[Vec<Rc<Example>>], version: u64) -> bool
    ensures { result ≡ list_any (has_version version) (map (λ l. map (λ x. x.value) l.items) lists.now) }
{
    'lists: for place in 0..lists.len() {
        if has_version(&lists[place], version) {
            return true;
        }
    }
    false
}

/// The same list, with room for one example more.
fn copy(alloc: Global, examples: &[Rc<Example>]) -> Result<Vec<Rc<Example>>, Memory>
    ensures { IfOk result (λ copied. map (λ x. x.value) copied.items ≡ map (λ x. x.value) examples.now) }
{
    let mut copied = Vec::with_capacity(alloc, examples.len() + 1)?;
    'examples: for place in 0..examples.len() {
        copied.push(examples[place].clone()?)?;
    }
    Ok(copied)
}

/// The list with a new example, behind the others.
pub fn with_new(
    alloc: Global,
    examples: &[Rc<Example>],
    example: Example,
) -> Result<Vec<Rc<Example>>, Memory>
    ensures { IfOk result (λ made. map (λ x. x.value) made.items ≡ map (λ x. x.value) examples.now ++ example ∷ []) }
{
    with_last(alloc, examples, Rc::new(alloc, example)?)
}

/// The list with an example that another list has too, behind the others.
pub fn with_shared(
    alloc: Global,
    examples: &[Rc<Example>],
    example: &Rc<Example>,
) -> Result<Vec<Rc<Example>>, Memory>
    ensures { IfOk result (λ made. map (λ x. x.value) made.items ≡ map (λ x. x.value) examples.now ++ example.now.value ∷ []) }
{
    with_last(alloc, examples, example.clone()?)
}

/// The list with one example more, behind the others.
fn with_last(
    alloc: Global,
    examples: &[Rc<Example>],
    example: Rc<Example>,
) -> Result<Vec<Rc<Example>>, Memory>
    ensures { IfOk result (λ made. map (λ x. x.value) made.items ≡ map (λ x. x.value) examples.now ++ example.value ∷ []) }
{
    let mut made = copy(alloc, examples)?;
    made.push(example)?;
    Ok(made)
}

/// The list with another example at a place.
pub fn with_set(
    alloc: Global,
    examples: &[Rc<Example>],
    place: usize,
    example: Example,
) -> Result<Vec<Rc<Example>>, Memory>
    requires { place < length examples.now }
    ensures { IfOk result (λ made. map (λ x. x.value) made.items ≡ set (map (λ x. x.value) examples.now) place example) }
{
    let mut made = copy(alloc, examples)?;
    made[place] = Rc::new(alloc, example)?;
    Ok(made)
}

/// The list without the example at a place.
pub fn without(
    alloc: Global,
    examples: &[Rc<Example>],
    place: usize,
) -> Result<Vec<Rc<Example>>, Memory>
    requires { place < length examples.now }
    ensures { IfOk result (λ made. map (λ x. x.value) made.items ≡ remove (map (λ x. x.value) examples.now) place) }
{
    let mut made = copy(alloc, examples)?;
    let _ = made.remove(place);
    Ok(made)
}

/// Puts, in the place of each example, an equal one whose instances are settled.
pub fn settle(alloc: Global, examples: &mut [Rc<Example>]) -> Result<(), Memory>
    ensures { map (λ x. x.value) examples.new ≡ map (λ x. x.value) examples.old }
{
    'examples: for place in 0..examples.len() {
        let settled = examples[place].settled(alloc)?;
        examples[place] = Rc::new(alloc, settled)?;
    }
    Ok(())
}
