//! Two applies that are done together.
ghost use Rattle.std.specs.Prelude.{◌≡◌, false, IfOk};
ghost use Rattle.std.specs.Option.{option_map};
ghost use Rattle.typed_tree.specs.BlockTree.{statement_kind_tree, block_tree};
ghost use Rattle.typed_tree.specs.ProgramTree.{program_tree};
ghost use Rattle.plans.specs.Fusing.{fusion_role_of, fused_edges as edges_done, is_with as does_fuse, together as done_together, fused_vertices as vertices_done, with_next};
ghost use Rattle.plans.specs.inside.Parts.{edge_apply_tree, fused_pair_tree, vertex_apply_tree};

use crate::fusing::applies::{edge_apply_of, vertex_apply_of};
use crate::fusing::fits::{edges_fit, vertices_fit};
use algorithm_meaning::Depth;
use apply_options::Fused;
use plans::{EdgeApply, FusedPair, VertexApply};
use schedule::Schedule;
use std::alloc::{AllocError, Global};
use typed_tree::{MainStatement, StatementKind, Typed};

/// The two applies that are done together at a statement, where so much is visible and the statements `rest` are after
/// it: it and the next, if the schedule fuses it with that one and they may be done together. Else it is done alone, and
/// the answer is `None`. The only error is out of memory.
pub(crate) fn pair_at(
    alloc: Global,
    program: &Typed,
    schedule: &Schedule,
    depth: Depth,
    statement: &MainStatement,
    rest: &[MainStatement],
) -> Result<Option<FusedPair>, AllocError>
    ensures { IfOk result (λ both. fusion_role_of (program_tree program.now) schedule.now depth false statement.now.label
        (statement_kind_tree statement.now.action) (block_tree rest.now) ≡ with_next (option_map fused_pair_tree both)) }
{
    match rest.first() {
        Some(next) => {
            if !is_with(schedule.fused(statement.label), next.label) {
                return Ok(None);
            }
            together(alloc, program, depth, &statement.action, &next.action)
        }
        None => Ok(None),
    }
}

/// Whether a fusing is one with the statement of this label.
fn is_with(fused: Option<Fused>, label: Option<usize>) -> bool
    ensures { result ≡ does_fuse fused label }
{
    match (fused, label) {
        (Some(Fused::With(second)), Some(label)) => second == label,
        _ => false,
    }
}

/// Two statements that stand one after the other, where so much is visible at the first, as one operation: two edge
/// applies, or two vertex applies, that may be done together. Of all others the answer is `None`. The only error is out
/// of memory.
pub(crate) fn together(
    alloc: Global,
    program: &Typed,
    depth: Depth,
    first: &StatementKind,
    second: &StatementKind,
) -> Result<Option<FusedPair>, AllocError>
    ensures { IfOk result (λ both. option_map fused_pair_tree both
        ≡ done_together (program_tree program.now) depth (statement_kind_tree first.now) (statement_kind_tree second.now)) }
{
    let edges = fused_edges(
        alloc,
        program,
        depth,
        edge_apply_of(first),
        edge_apply_of(second),
    )?;
    match edges {
        Some(both) => Ok(Some(both)),
        None => {
            let (first, second) = (vertex_apply_of(first), vertex_apply_of(second));
            Ok(fused_vertices(program, first, second))
        }
    }
}

fn fused_edges(
    alloc: Global,
    program: &Typed,
    depth: Depth,
    first: Option<EdgeApply>,
    second: Option<EdgeApply>,
) -> Result<Option<FusedPair>, AllocError>
    ensures { IfOk result (λ both. option_map fused_pair_tree both
        ≡ edges_done (program_tree program.now) depth (option_map edge_apply_tree first) (option_map edge_apply_tree second)) }
{
    let (Some(first), Some(second)) = (first, second) else {
        return Ok(None);
    };
    if !edges_fit(alloc, program, depth, &first, &second)? {
        return Ok(None);
    }
    Ok(Some(FusedPair::Edges {
        ends: first.ends,
        first: first.part,
        second: second.part,
    }))
}

fn fused_vertices(
    program: &Typed,
    first: Option<VertexApply>,
    second: Option<VertexApply>,
) -> Option<FusedPair>
    ensures { option_map fused_pair_tree result ≡ vertices_done (program_tree program.now) (option_map vertex_apply_tree first)
        (option_map vertex_apply_tree second) }
{
    let (Some(first), Some(second)) = (first, second) else {
        return None;
    };
    if !vertices_fit(program, &first, &second) {
        return None;
    }
    Some(FusedPair::Vertices {
        set: first.set,
        first: first.function,
        second: second.function,
    })
}
