//! Masks: lists of what all vertices give by a function of a shape, made once for an apply and read by each of its pieces.
ghost use Rattle.std.specs.Prelude.{IfOk};
ghost use Rattle.edge_apply.specs.Words.{passes_words};
ghost use Rattle.pull_engine.specs.inside.Masked.{IsMaskOf};

use crate::all_sources::masked_numbers;
use apply_options::Reduction;
use edge_apply::Apply;
use edge_fold::{OneNumber, OwnEntry, OwnEntryPlus, OwnNumber};
use kernels::Shape;
use std::alloc::{AllocError, Global};

/// What vertices give by a function of a shape, with the unit of its reduction for those whose bits are not set, or nothing if
/// that is not worth its making or the function has another shape. The only error is out of memory.
pub(crate) fn mask_of(
    alloc: Global,
    shape: Shape,
    apply: &Apply<'_>,
    from: Option<&[u64]>,
) -> Result<Vec<i64>, AllocError>
    ensures { IfOk result (λ xs. IsMaskOf shape apply.now.vectors.now.vectors (passes_words from.entry) xs.items) }
{
    if !is_worth_masking(apply, from) {
        return Ok(Vec::new(alloc));
    }
    let vertices = apply.flat.vertices();
    match shape {
        Shape::Source(_, Reduction::Plus) => {
            masked_numbers(alloc, Reduction::Plus, &OwnNumber, from, vertices)
        }
        Shape::Entry(_, reduction, vector) => {
            let numbers = OwnEntry {
                lane: apply.vectors.lane(vector),
            };
            masked_numbers(alloc, reduction, &numbers, from, vertices)
        }
        Shape::EntryPlus(_, reduction, vector, number) => {
            let numbers = OwnEntryPlus {
                lane: apply.vectors.lane(vector),
                number,
            };
            masked_numbers(alloc, reduction, &numbers, from, vertices)
        }
        Shape::Constant(_, Reduction::Plus, number) => {
            masked_numbers(
                alloc,
                Reduction::Plus,
                &OneNumber { number },
                from,
                vertices,
            )
        }
        _ => Ok(Vec::new(alloc)),
    }
}

/// Whether a mask is worth its making: sources are tested, and all vertices are destinations, with four edges or more to each. No
/// result depends on it.
fn is_worth_masking(apply: &Apply<'_>, from: Option<&[u64]>) -> bool {
    let vertices = apply.flat.vertices() as usize;
    from.is_some() && apply.to.is_none() && apply.flat.edge_count() / 4 >= vertices
}
