//! Going over the entries of a tree.

ghost use Rattle.std.specs.Prelude.{◌≡◌, ◌+◌, ◌^◌, ◌≤◌, ◌++◌, length, take};
ghost use Rattle.std.specs.Iterator.{YieldsFirstBy, item_count};
ghost use Rattle.shared_tree.specs.inside.Shape.{seen, IsBalanced};
ghost use Rattle.shared_tree.specs.inside.Pending.{pending, HasRoom};
ghost use Rattle.shared_tree.specs.declared.tree.Link.TheVariants.{Empty};

use crate::tree::{Link, Tree};
use std::marker::Model;

// A tree is at most 64 deep, and the links to its nodes lie above an empty one.
const ROOM: usize = 65;

/// The entries of a tree that are still to come, in ascending order of keys.
#[derive(Drop)]
pub struct Iter<'a, V> {
    /// An empty link, and above it a stack of links to nodes. So the walk ends at an empty link.
    links: [&'a Link<V>; ROOM],
    height: usize,
}

impl<'a, V> Model for Iter<'a, V> {
    ghost use Rattle.std.specs.Prelude.{◌≡◌, ℕ, ◌≤◌, List, drop, length, take};
    ghost use Rattle.shared_tree.specs.inside.Pending.{pending, HasRoom, IsOverEmpty};

    ghost Value = { List (ℕ × V) };

    ghost view = { λ i. pending (take i.height (drop 1 i.links)) };

    ghost invariant = { λ i. (length i.links ≡ 65) × (i.height ≤ 64)
        × HasRoom 0 (take i.height (drop 1 i.links)) × IsOverEmpty i.links };
}

impl<V> Tree<V> {
    /// The entries as pairs of a key and a value, in ascending order of keys. It takes no memory,
    /// and a step takes constant time on average.
    #[inline]
    pub fn iter(&self) -> Iter<'_, V>
        ensures entries { result ≡ self.now.entries }
        ensures bounded { length self.now.entries ≤ 2 ^ 32 }
    {
        prove!(self.depth() <= 64);
        let link = self.link();
        let mut links = [link; ROOM];
        let (height, lowest) = descend(&mut links[1..], 0, link);
        let all = &mut links[..];
        all[0] = lowest;
        Iter { links, height }
    }
}

/// Puts the way down the left side below a link on top of a stack. It gives the new height, and the
/// empty link at the end of the way.
#[inline]
fn descend<'a, V>(
    links: &mut [&'a Link<V>],
    height: usize,
    link: &'a Link<V>,
) -> (usize, &'a Link<V>)
    requires indices { length links.old ≡ 64 }
    requires balanced { IsBalanced link.now }
    requires room { height + (seen link.now).depth ≤ 64 }
    requires stack { HasRoom 0 (take height links.old) }
    ensures height { result.0 ≤ 64 }
    ensures stack { HasRoom 0 (take result.0 links.new) }
    ensures entries { pending (take result.0 links.new)
        ≡ (seen link.entry.now).entries ++ pending (take height links.old) }
    ensures end { result.1.now ≡ Empty }
{
    let mut top = height;
    let mut next = link;
    while let Link::Fork { node, .. } = next {
        links[top] = next;
        top += 1;
        next = node.left.link();
    }
    (top, next)
}

impl<'a, V> Iterator for Iter<'a, V> {
    type Item = (u32, &'a V);

    ghost next_gives = { YieldsFirstBy (λ x. (x.0, x.1.now)) (λ i. i) };

    ghost remaining = { item_count (λ i. i) };

    #[inline]
    fn next(&mut self) -> Option<(u32, &'a V)> {
        let height = self.height;
        let links = &mut self.links[..];
        let link = links[height];
        match link {
            Link::Empty => None,
            Link::Fork { key, node, .. } => {
                let (top, _) = descend(&mut links[1..], height - 1, node.right.link());
                self.height = top;
                Some((*key, &node.value))
            }
        }
    }
}
