//! Look-ups of keys.

ghost use Rattle.std.specs.Prelude.{◌≡◌, ◌↔◌, IsTrue};
ghost use Rattle.std.specs.List.{Contains};
ghost use Rattle.std.specs.Map.{keys_of};
ghost use Rattle.ascending_lists.specs.Maps.{lookup};

use crate::ctree::CTree;
use crate::view::View;
use tail_codec::Tail;

impl CTree {
    /// Whether a key is in the set. It takes time in proportion to the depth and to the length of one
    /// tail, and no memory.
    pub fn contains(&self, key: u32) -> bool
        ensures { IsTrue result ↔ Contains (keys_of self.now.entries) key }
    {
        self.view().contains(key)
    }

    /// The weight of a key, if it is in the set. It takes time in proportion to the depth and to the
    /// length of one tail, and no memory.
    pub fn get(&self, key: u32) -> Option<i64>
        ensures { result ≡ lookup key self.now.entries }
    {
        self.view().get(key)
    }
}

impl<'a> View<'a> {
    /// Whether a key is in the view. It takes time in proportion to the depth and to the length of
    /// one tail, and no memory.
    pub fn contains(&self, key: u32) -> bool
        ensures { IsTrue result ↔ Contains (keys_of self.now.entries) key }
    {
        self.get(key).is_some()
    }

    /// The weight of a key, if it is in the view. It takes time in proportion to the depth and to
    /// the length of one tail, and no memory.
    pub fn get(&self, key: u32) -> Option<i64>
        ensures { result ≡ lookup key self.now.entries }
    {
        let (mut tail, mut chunks) = (self.prefix, self.chunks);
        while let Some((below, head, at_head, above)) = chunks.parts() {
            if key == head {
                return Some(at_head.weight());
            }
            if key < head {
                chunks = below;
            } else {
                tail = at_head.tail();
                chunks = above;
            }
        }
        weight_in(tail, key)
    }
}

/// The weight of a key, if it is in a tail.
fn weight_in(tail: &Tail, key: u32) -> Option<i64>
    ensures { result ≡ lookup key tail.now.entries }
{
    for (other, weight) in tail.iter() {
        if other >= key {
            return (other == key).then_some(weight);
        }
    }
    None
}
