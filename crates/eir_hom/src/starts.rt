//! What a start gives.
ghost use Rattle.std.specs.Prelude.{◌≡◌, ℕ, ◌<◌, Some, None, IfOk, IfSome, if◌then◌else◌, length, map, option_map};
ghost use Rattle.std.specs.Prelude.{slice_get, slice_index_or};
ghost use Rattle.eir_term.specs.Instances.{values};
ghost use Rattle.eir_term.specs.Maps.{get};
ghost use Rattle.eir_hom.specs.Compiling.{given_image, is_here, or_else, with_fixed};
ghost use Rattle.eir_hom.specs.Levels.{number};

use eir_inst::Indexed;
use eir_term::{Map, Memory, Val};
use std::alloc::Global;

/// For each value of `a`, by its number, the number in `b` of its image, where the start gives the value or it is
/// fixed. The number of an image that is no value of `b` is the number of `b`'s values.
pub(crate) fn images_of(
    alloc: Global,
    a: &Indexed,
    b: &Indexed,
    start: &Map,
) -> Result<Vec<Option<usize>>, Memory>
    ensures { IfOk result (λ v. v.items ≡ map (given_image b.now.facts start.now) (values a.now.facts)) }
{
    let mut images = Vec::new(alloc);
    images.resize(a.values().len(), None)?;
    set_all(&mut images, a, b, start);
    Ok(images)
}

/// Sets the image of each value of `a` that has one.
fn set_all(images: &mut [Option<usize>], a: &Indexed, b: &Indexed, start: &Map)
    requires { images.old ≡ map (λ _. None) (values a.now.facts) }
    ensures { images.new ≡ map (given_image b.now.facts start.now) (values a.now.facts) }
{
    set_given(images, a, b, start);
    set_fixed(images, a.values(), b);
}

/// Sets the image of each value of `a` that the start names.
fn set_given(images: &mut [Option<usize>], a: &Indexed, b: &Indexed, start: &Map)
    requires { images.old ≡ map (λ _. None) (values a.now.facts) }
    ensures { images.new ≡ map (λ v. option_map (number b.now.facts) (get start.now v)) (values a.now.facts) }
{
    for i in 0..start.len() {
        if let Some((v, w)) = start.pair(i) {
            set_first(images, a.number_of(v), number_in(b, w));
        }
    }
}

/// Sets an image that is not set.
fn set_first(images: &mut [Option<usize>], value: Option<usize>, image: usize)
    requires { IfSome value (λ n. n < length images.old) }
    ensures { (n : ℕ) → n < length images.new → slice_index_or images.new n None
        ≡ or_else (slice_index_or images.old n None) (if is_here value n then Some image else None) }
{
    if let Some(value) = value
        && images[value].is_none()
    {
        images[value] = Some(image);
    }
}

/// Sets the image of each fixed constant that has none: itself.
fn set_fixed(images: &mut [Option<usize>], values: &[Val], b: &Indexed)
    requires { length images.old ≡ length values.now }
    ensures { (n : ℕ) → n < length images.new → slice_index_or images.new n None
        ≡ with_fixed b.now.facts (slice_index_or images.old n None) (slice_get values.now n) }
{
    for i in 0..values.len() {
        images[i] = image_or_itself(images[i], values[i], b);
    }
}

/// The image, or the value itself where it has none and is fixed.
fn image_or_itself(image: Option<usize>, value: Val, b: &Indexed) -> Option<usize>
    ensures { result ≡ with_fixed b.now.facts image (Some value) }
{
    match image {
        None if value.is_fixed() => Some(number_in(b, value)),
        _ => image,
    }
}

/// The number of a value, or the number of values where it is none of them.
pub(crate) fn number_in(b: &Indexed, value: Val) -> usize
    ensures { result ≡ number b.now.facts value }
{
    match b.number_of(value) {
        Some(number) => number,
        None => b.values().len(),
    }
}
