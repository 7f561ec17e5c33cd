//! Whether two sets are better merged than cut.

use c_tree::{Heads, View};

/// The deepest trees of heads that are merged entry by entry.
const DEEPEST: u32 = 8;

/// Whether two views have few heads, and about as many, and lie in one another's ranges, so that hardly
/// a chunk may be shared.
pub(crate) fn are_mixed(first: &View<'_>, second: &View<'_>) -> bool {
    let (least, most) = (
        first.depth().min(second.depth()),
        first.depth().max(second.depth()),
    );
    if least == 0 || most > DEEPEST || most - least > 1 {
        return false;
    }
    let longest = 4 + (1 << most) / 8;
    longest_run(first.heads(), second.heads()) <= longest
        && longest_run(second.heads(), first.heads()) <= longest
}

/// The most heads that come one after another with none of the others between them.
fn longest_run(heads: Heads<'_>, others: Heads<'_>) -> u32 {
    let (mut heads, mut others) = (heads, others);
    let (mut next, mut bound) = (heads.next(), others.next());
    let (mut run, mut longest) = (0u32, 0u32);
    while let Some((head, _, _)) = next {
        match bound {
            Some((other, _, _)) if other <= head => {
                bound = others.next();
                run = 0;
            }
            _ => {
                next = heads.next();
                run = run.saturating_add(1);
                longest = longest.max(run);
            }
        }
    }
    longest
}
