//! Making of the problem in numbers.
ghost use Rattle.std.specs.Prelude.{◌≡◌, ◌<◌, [], ◌∷◌, IfOk, OnOk, length};
ghost use Rattle.eir_term.specs.Order.{KeepsFixed};
ghost use Rattle.eir_hom.specs.Levels.{bindings_of, levels_of};
ghost use Rattle.eir_hom.specs.Compiling.{bindings_from};
ghost use Rattle.eir_hom.specs.Courses.{shapes_of};

use crate::Guard;
use crate::course::Course;
use crate::fits::Fits;
use crate::lazy::LazyMatcher;
use crate::matching::Matcher;
use crate::starts::images_of;
use crate::stock::Stock;
use eir_inst::Indexed;
use eir_term::{Map, Memory};
use std::alloc::Global;
use std::rc::Rc;

/// The matcher for the homomorphisms from `a` to `b` that agree with the start, where the facts of `a` are placed in
/// the order of this course. It takes time linear in the values and the start; a level is compiled when the search
/// first comes to it, and its rows under a number are laid when they are first asked for.
pub(crate) fn compile(
    alloc: Global,
    guard: &Guard,
    a: &Rc<Indexed>,
    b: &Rc<Indexed>,
    start: &Map,
    course: Course,
) -> Result<LazyMatcher, Memory>
    requires source { course.source ≡ a.now.value.facts }
    requires shapes { course.shapes ≡ shapes_of a.now.value.facts b.now.value.facts start.now }
    requires fixed { KeepsFixed start.now }
    ensures levels { IfOk result (λ m. m.levels ≡ levels_of a.now.value.facts b.now.value.facts start.now) }
    ensures start { IfOk result (λ m. m.start ≡ bindings_of a.now.value.facts b.now.value.facts start.now) }
    ensures placed { IfOk result (λ m. m.placed ≡ []) }
{
    let images = images_of(alloc, a, b, start)?;
    let fits = Fits::new(alloc, guard, a, b)?;
    let columns = course.column_count();
    let stock = Stock::new(alloc, a, b, fits, course)?;
    let mut matcher = Matcher::new(alloc, stock, a.values().len() + 1, a.len(), columns)?;
    bind_start(&mut matcher, &images)?;
    let lazy = LazyMatcher::new(a, matcher)?;
    Ok(lazy)
}

/// Binds the slot of no value to 0, and the slots of values with an image to its number.
fn bind_start(matcher: &mut Matcher, images: &[Option<usize>]) -> Result<(), Memory>
    requires start { matcher.old.start ≡ [] }
    requires levels { matcher.old.levels ≡ [] }
    requires slots { length images.now < matcher.old.slots }
    ensures { OnOk result
        (matcher.new ≡ record matcher.old { start = (length images.now, 0) ∷ bindings_from 0 images.now }) }
{
    matcher.bind(images.len(), 0)?;
    for value in 0..images.len() {
        if let Some(image) = images[value] {
            matcher.bind(value, image)?;
        }
    }
    Ok(())
}
