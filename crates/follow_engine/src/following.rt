//! An apply that follows the record of a former one.
ghost use Rattle.std.specs.Prelude.{◌≡◌, ◌<◌, ℕ, false, None, IfOk, IfSome};
ghost use Rattle.edge_fold.specs.Changed.{AreApart, changes_of};
ghost use Rattle.vertex_marks.specs.Marks.{is_marked};
ghost use Rattle.follow_engine.specs.Following.{CanFollow};
ghost use Rattle.follow_engine.specs.Reached.{is_reached};
ghost use Rattle.follow_engine.specs.Reduced.{AreChangesReduced};
ghost use Rattle.follow_engine.specs.Spent.{IsSpent, IsWithinBudget};
ghost use Rattle.follow_engine.specs.Spliced.{changes_at};

use crate::among::{chosen, fits_budget, pull_among, read_sizes};
use crate::differences::Followed;
use crate::reached::mark_reached;
use crate::vector_splices::splice_all;
use edge_apply::Apply;
use edge_fold::Scratch;
use std::alloc::{AllocError, Global};
use vectors::Changes;
use vertex_marks::VertexMarks;

/// What an apply changes, found beside the record of a former apply of the same functions: for each vector the vertices whose
/// entries change, ascending, with the entries after the apply (`AreChangesReduced`). The differences name all in which the
/// two applies differ (`CanFollow`).
///
/// It marks the destinations that the differences reach, and goes over at most as many edges for that as the budget has. Then
/// it pulls into those that the second end lets through, if no more edges than that lead to them. If the budget is not enough
/// for either, the answer is `None`. If changes come back, the marked vertices are the reached destinations, and at all others the
/// changes of each vector are those of the record, by whatever reductions the functions give it numbers. The vectors and the
/// record stay as they are, and a later call reads nothing of what is in the marks and in the scratch.
///
/// The only error is out of memory.
pub fn follow(
    alloc: Global,
    apply: &Apply<'_>,
    followed: &Followed<'_>,
    marks: &mut VertexMarks,
    scratch: &mut Scratch,
) -> Result<Option<Changes>, AllocError>
    requires { CanFollow apply.now followed.now.former followed.now.differences }
    ensures once { IfOk result (λ found. IfSome found (λ c. AreApart c.vectors.items)) }
    ensures changes { IfOk result (λ found. IfSome found (λ c. AreChangesReduced apply.now c.vectors.items)) }
    ensures marked { IfOk result (λ found. IfSome found (λ _. (v : ℕ) → v < apply.now.flat.now.vertices
        → is_marked marks.new v ≡ is_reached apply.now followed.now.former.apply followed.now.differences v)) }
    ensures kept { IfOk result (λ found. IfSome found (λ c. (x v : ℕ) → v < apply.now.flat.now.vertices
        → is_reached apply.now followed.now.former.apply followed.now.differences v ≡ false
        → changes_at v (changes_of x c.vectors.items) ≡ changes_at v (changes_of x followed.now.former.changes.now.vectors.items))) }
    ensures within { IfOk result (λ found. IfSome found (λ _. IsWithinBudget apply.now followed.now.former.apply followed.now.differences followed.now.budget)) }
    ensures spent { IfOk result (λ found. found ≡ None → IsSpent apply.now followed.now.former.apply followed.now.differences followed.now.budget) }
{
    let former = &followed.former;
    let differences = &followed.differences;
    let budget = followed.budget;
    let vertices = apply.flat.vertices();
    read_sizes(former.apply.sizes);
    marks.clear();
    marks.make_room(vertices as usize)?;
    if !mark_reached(apply, &former.apply, differences, budget, marks) {
        return Ok(None);
    }
    let reached = marks.members(alloc)?;
    let among = chosen(alloc, apply, &reached, scratch)?;
    if !fits_budget(apply.flat, &among, budget) {
        return Ok(None);
    }
    let changes = pull_among(alloc, apply, &among, scratch)?;
    Ok(Some(splice_all(alloc, marks, &changes, former.changes)?))
}
