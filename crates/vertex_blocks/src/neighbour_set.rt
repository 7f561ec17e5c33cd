//! The neighbours of a vertex with their weights, packed or as a set in chunks.

ghost use Rattle.std.specs.Prelude.{◌≡◌, ◌↔◌, [], length, IsTrue, IfSome};
ghost use Rattle.std.specs.Map.{keys_of};
ghost use Rattle.ascending_lists.specs.Ascending.{AscendsFrom};
ghost use Rattle.ascending_lists.specs.Sets.{has};
ghost use Rattle.ascending_lists.specs.Maps.{lookup};
ghost use Rattle.vertex_blocks.specs.Forms.{listed};

use crate::neighbour_iter::NeighbourIter;
use c_tree::CTree;
use pages::Neighbours;
use std::marker::Model;

/// The neighbours of a vertex, ascending, each with a weight. A contract sees the list of the pairs.
#[derive(Drop)]
pub struct NeighbourSet<'a> {
    form: NeighbourForm<'a>,
}

/// The two forms in which neighbours stand.
#[derive(Drop)]
pub enum NeighbourForm<'a> {
    Packed(Neighbours<'a>),
    Chunked(&'a CTree),
}

impl<'a> Model for NeighbourSet<'a> {
    ghost use Rattle.std.specs.Prelude.{ℕ, ℤ, List};
    ghost use Rattle.vertex_blocks.specs.Forms.{listed};

    ghost Value = { List (ℕ × ℤ) };

    ghost view = { λ s. listed s.form };
}

impl<'a> NeighbourSet<'a> {
    /// The neighbours in one of the forms.
    #[inline]
    pub(crate) fn new(form: NeighbourForm<'a>) -> NeighbourSet<'a>
        ensures { result ≡ listed form.entry }
    {
        NeighbourSet { form }
    }

    /// No neighbour. It takes no memory.
    #[inline]
    pub fn none() -> NeighbourSet<'a>
        ensures { result ≡ [] }
    {
        NeighbourSet::new(NeighbourForm::Packed(Neighbours::none()))
    }

    /// The neighbours in the form in which they stand. Who goes over them in a loop for each form has a
    /// smaller walk than [`NeighbourSet::iter`] is.
    #[inline]
    pub fn into_form(self) -> NeighbourForm<'a>
        ensures { listed result ≡ self.entry }
    {
        self.form
    }

    /// How many neighbours there are. It takes constant time and no memory.
    #[inline]
    pub fn len(&self) -> usize
        ensures count { result ≡ length self.now }
        ensures ascending { AscendsFrom 0 (keys_of self.now) }
    {
        match &self.form {
            NeighbourForm::Packed(list) => list.len(),
            NeighbourForm::Chunked(set) => set.len(),
        }
    }

    /// Whether there is no neighbour. It takes constant time and no memory.
    #[inline]
    pub fn is_empty(&self) -> bool
        ensures { IsTrue result ↔ (self.now ≡ []) }
    {
        self.len() == 0
    }

    /// Whether a vertex is among the neighbours. It takes logarithmic time and no memory.
    pub fn contains(&self, neighbour: u32) -> bool
        ensures { result ≡ has neighbour (keys_of self.now) }
    {
        match &self.form {
            NeighbourForm::Packed(list) => list.contains(neighbour),
            NeighbourForm::Chunked(set) => set.contains(neighbour),
        }
    }

    /// The weight of a neighbour, or `None` where it is not among them. It takes logarithmic time and no
    /// memory.
    pub fn get(&self, neighbour: u32) -> Option<i64>
        ensures { result ≡ lookup neighbour self.now }
    {
        match &self.form {
            NeighbourForm::Packed(list) => list.get(neighbour),
            NeighbourForm::Chunked(set) => set.get(neighbour),
        }
    }

    /// The set in chunks, where the neighbours are in one and are not packed. It takes constant time
    /// and no memory.
    pub fn chunked(&self) -> Option<&'a CTree>
        ensures { IfSome result (λ t. t.now.entries ≡ self.now) }
    {
        match &self.form {
            NeighbourForm::Packed(_) => None,
            NeighbourForm::Chunked(set) => Some(*set),
        }
    }

    /// A walk over the neighbours, ascending, with their weights. It takes no memory.
    #[inline]
    pub fn iter(self) -> NeighbourIter<'a>
        ensures { result ≡ self.entry }
    {
        match self.form {
            NeighbourForm::Packed(list) => NeighbourIter::packed(list),
            NeighbourForm::Chunked(set) => NeighbourIter::chunked(set),
        }
    }
}
