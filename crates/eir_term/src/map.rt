//! Maps of values.
ghost use Rattle.std.specs.Prelude.{◌≡◌, ◌++◌, ◌∷◌, [], ◌<◌, IfOk, OnOk, OnErr, length, slice_get, Some};
ghost use Rattle.eir_term.specs.Lists.{◌∈◌, IsDistinct};
ghost use Rattle.eir_term.specs.Maps.{domain_of, get, with_image, image_at, with_image_at};

use crate::{Memory, Val};
use std::alloc::Global;
use std::marker::Model;

/// A finite map from values to values: pairs with distinct first members, in the order in which they were put.
#[derive(Drop)]
pub struct Map {
    pairs: Vec<(Val, Val)>,
}

impl Model for Map {
    ghost use Rattle.std.specs.Prelude.{List};
    ghost use Rattle.eir_term.specs.declared.val.Val.{Val};
    ghost use Rattle.eir_term.specs.Lists.{IsDistinct};
    ghost use Rattle.eir_term.specs.Maps.{domain_of};

    ghost Value = { List (Val × Val) };

    ghost view = { λ m. m.pairs.items };

    ghost invariant = { λ m. IsDistinct (domain_of m.pairs.items) };
}

impl Map {
    /// The empty map.
    pub fn new(alloc: Global) -> Map
        ensures { result ≡ [] }
    {
        Map {
            pairs: Vec::new(alloc),
        }
    }

    /// The number of pairs.
    pub fn len(&self) -> usize
        ensures { result ≡ length self.now }
    {
        self.pairs.len()
    }

    /// The pair at a place, counted from 0.
    pub fn pair(&self, place: usize) -> Option<(Val, Val)>
        ensures { result ≡ slice_get self.now place }
    {
        self.pairs.get(place).copied()
    }

    /// The pairs, lent, for callers that go over all of them.
    pub fn as_slice(&self) -> &[(Val, Val)]
        ensures pairs { result.now ≡ self.now }
        ensures distinct { IsDistinct (domain_of self.now) }
    {
        self.pairs.as_slice()
    }

    /// What `v` is paired with. It looks through the pairs in order.
    pub fn get(&self, v: Val) -> Option<Val>
        ensures { result ≡ get self.now v }
    {
        image_in(&self.pairs, v)
    }

    /// Appends a pair whose first member is new.
    pub fn put(&mut self, v: Val, w: Val) -> Result<(), Memory>
        requires { v ∈ domain_of self.old → ⊥ }
        ensures ok { OnOk result (self.new ≡ self.old ++ (v, w) ∷ []) }
        ensures err { OnErr result (self.new ≡ self.old) }
    {
        self.pairs.push((v, w))?;
        Ok(())
    }

    /// Gives `v`, which is a first member, another image.
    pub fn set(&mut self, v: Val, w: Val)
        requires { v ∈ domain_of self.old }
        ensures { self.new ≡ with_image self.old v w }
    {
        set_image_in(&mut self.pairs, v, w);
    }

    /// The second member at a place, counted from 0. Nothing is looked for.
    pub fn image_at(&self, place: usize) -> Val
        requires { place < length self.now }
        ensures { image_at self.now place ≡ Some result }
    {
        let (_, image) = self.pairs[place];
        image
    }

    /// Makes `w` the second member at a place, counted from 0. Nothing is looked for, and no memory is taken.
    pub fn set_at(&mut self, place: usize, w: Val)
        requires { place < length self.old }
        ensures { self.new ≡ with_image_at self.old place w }
    {
        self.pairs[place].1 = w;
    }

    /// An equal map.
    pub fn copy(&self, alloc: Global) -> Result<Map, Memory>
        ensures { IfOk result (λ m. m ≡ self.now) }
    {
        let pairs = self.pairs.as_slice().to_vec(alloc)?;
        Ok(Map { pairs })
    }
}

/// The second member of the first pair that begins with `v`.
fn image_in(pairs: &[(Val, Val)], v: Val) -> Option<Val>
    ensures { result ≡ get pairs.now v }
{
    for pair in pairs {
        if pair.0 == v {
            return Some(pair.1);
        }
    }
    None
}

/// Makes `w` the second member of each pair that begins with `v`.
fn set_image_in(pairs: &mut [(Val, Val)], v: Val, w: Val)
    ensures { pairs.new ≡ with_image pairs.old v w }
{
    for pair in pairs {
        if pair.0 == v {
            pair.1 = w;
        }
    }
}
