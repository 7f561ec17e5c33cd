//! Views that are cut at a key.

ghost use Rattle.std.specs.Prelude.{IfOk};
ghost use Rattle.c_tree.specs.Chunks.{HasNoHead};
ghost use Rattle.c_tree.specs.Parts.{IsCut};

use crate::part::Part;
use crate::view::View;
use std::alloc::{AllocError, Global};

/// What a view has below a key, the weight of the key if the view has it, and what it has above.
#[derive(Drop)]
pub struct Cut {
    pub below: Part,
    pub found: Option<i64>,
    pub above: Part,
}

impl<'a> View<'a> {
    /// The view cut at a key. Chunks that lie on one side are shared. It takes time in proportion
    /// to the depth and to the length of one tail.
    ///
    /// The only error is out of memory.
    pub fn cut(&self, alloc: Global, key: u32) -> Result<Cut, AllocError>
        ensures { IfOk result (λ c. IsCut key self.now c.below c.found c.above) }
    {
        let Some((left, head, weight, right)) = self.root() else {
            return self.cut_prefix(alloc, key);
        };
        if key < head {
            let inner = left.cut(alloc, key)?;
            let above = inner.above.join(alloc, head, weight, right.share()?)?;
            Ok(Cut {
                below: inner.below,
                found: inner.found,
                above,
            })
        } else if head < key {
            let inner = right.cut(alloc, key)?;
            let below = left.share()?.join(alloc, head, weight, inner.below)?;
            Ok(Cut {
                below,
                found: inner.found,
                above: inner.above,
            })
        } else {
            Ok(Cut {
                below: left.share()?,
                found: Some(weight),
                above: right.share()?,
            })
        }
    }

    /// As `cut`, of a view that has no head.
    fn cut_prefix(&self, alloc: Global, key: u32) -> Result<Cut, AllocError>
        requires { HasNoHead self.now.chunk_size self.now.entries }
        ensures { IfOk result (λ c. IsCut key self.now c.below c.found c.above) }
    {
        let cut = self.prefix().cut(alloc, key)?;
        let chunk_size = self.chunk_size();
        Ok(Cut {
            below: Part::of_prefix(cut.below, chunk_size),
            found: cut.found,
            above: Part::of_prefix(cut.above, chunk_size),
        })
    }
}
