//! Trees split at a key.

ghost use Rattle.std.specs.Prelude.{◌≡◌, IfOk, IfErr};
ghost use Rattle.shared_tree.specs.Changes.{IsSplit};
ghost use Rattle.shared_tree.specs.declared.error.TreeError.TheVariants.{NoMemory};

use crate::error::TreeError;
use crate::joins::join;
use crate::share::Share;
use crate::tree::Tree;
use std::alloc::Global;

impl<V: Share> Tree<V> {
    /// The tree of the entries below `key`, the value at `key` if there is one, and the tree of the
    /// entries above. The tree itself stays as it is, and shares nodes with the two. It takes time
    /// in proportion to the depth.
    ///
    /// The only error is out of memory.
    pub fn split(&self, alloc: Global, key: u32) -> Result<(Tree<V>, Option<V>, Tree<V>), TreeError>
        ensures split { IfOk result (λ p. IsSplit key self.now.entries p.0.entries p.1 p.2.entries) }
        ensures memory { IfErr result (λ e. e ≡ NoMemory) }
    {
        let Some((left, root_key, value, right)) = self.parts() else {
            return Ok((Tree::new(), None, Tree::new()));
        };
        let value = value.share()?;
        if key < root_key {
            let right = right.share()?;
            let (below, found, inner) = left.split(alloc, key)?;
            let above = join(alloc, inner, root_key, value, right)?;
            Ok((below, found, above))
        } else if root_key < key {
            let left = left.share()?;
            let (inner, found, above) = right.split(alloc, key)?;
            let below = join(alloc, left, root_key, value, inner)?;
            Ok((below, found, above))
        } else {
            let left = left.share()?;
            let right = right.share()?;
            Ok((left, Some(value), right))
        }
    }
}
