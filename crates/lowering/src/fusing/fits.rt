//! The test whether two applies fit, so that they may be done together.
ghost use Rattle.std.specs.Prelude.{◌≡◌, map, IfOk};
ghost use Rattle.typed_tree.specs.ProgramTree.{program_tree};
ghost use Rattle.typed_tree.specs.FunctionStatementTree.{function_tree};
ghost use Rattle.typed_tree.specs.Independence.{are_apart, function_writes};
ghost use Rattle.plans.specs.Fusing.{apply_tree, edges_fit as fit_edges, is_same_end as same_end, result_indices, result_vectors, sets_read, vertices_fit as fit_vertices};
ghost use Rattle.lowering.specs.inside.Omitting.{edges_omit, listed};
ghost use Rattle.plans.specs.inside.Parts.{edge_apply_tree, vertex_apply_tree};
ghost use Rattle.plans.specs.Operation.{result_tree};

use crate::fusing::accesses::{end_does_omit, function_does_omit, function_is_local};
use algorithm_meaning::Depth;
use plans::{EdgeApply, PartResult, VertexApply};
use schedule::are_independent;
use std::alloc::{AllocError, Global};
use typed_tree::{Function, StatementApply, Typed, VertexFilter, push_written};

/// Whether the second of two edge applies gives the same after the first as beside it: they have the same ends, they
/// are independent, the second depends on no set that the first changes, and neither is asked for a vector that the
/// other writes. The only error is out of memory.
pub(crate) fn edges_fit(
    alloc: Global,
    program: &Typed,
    depth: Depth,
    first: &EdgeApply,
    second: &EdgeApply,
) -> Result<bool, AllocError>
    ensures { IfOk result (λ yes. yes ≡ fit_edges (program_tree program.now) depth (edge_apply_tree first.now) (edge_apply_tree second.now)) }
{
    if !is_same_end(first.ends.from, second.ends.from)
        || !is_same_end(first.ends.to, second.ends.to)
    {
        return Ok(false);
    }
    if !are_independent(alloc, program, as_apply(first), as_apply(second))? {
        return Ok(false);
    }
    if !is_apart(program, second, index_of(depth, first.part.result)) {
        return Ok(false);
    }
    let functions = program.edge_functions.as_slice();
    if !keeps_asked(alloc, functions, second.part.function, first.part.result)? {
        return Ok(false);
    }
    keeps_asked(alloc, functions, first.part.function, second.part.result)
}

/// Whether two ends are the set, or the filter, at the same index, or none is given.
fn is_same_end(first: Option<VertexFilter>, second: Option<VertexFilter>) -> bool
    ensures { result ≡ same_end first second }
{
    match (first, second) {
        (None, None) => true,
        (Some(VertexFilter::Members(a)), Some(VertexFilter::Members(b))) => a.index == b.index,
        (Some(VertexFilter::Function(a)), Some(VertexFilter::Function(b))) => a == b,
        _ => false,
    }
}

/// An edge apply as the rules of schedules speak of it.
fn as_apply(edges: &EdgeApply) -> StatementApply
    ensures { result ≡ apply_tree (edge_apply_tree edges.now) }
{
    let result = match edges.part.result {
        PartResult::Dropped => None,
        PartResult::Declared { name, .. } => Some(name),
        PartResult::Assigned { set, .. } => Some(set.name),
    };
    StatementApply::Edges {
        ends: edges.ends,
        function: edges.part.function,
        result,
    }
}

/// The index of the set that gets what an edge apply changed, where so many sets are visible.
fn index_of(depth: Depth, asked: PartResult) -> Option<usize>
    ensures { listed result ≡ result_indices depth (result_tree asked) }
{
    match asked {
        PartResult::Dropped => None,
        PartResult::Declared { .. } => Some(depth.sets),
        PartResult::Assigned { set, .. } => Some(set.index),
    }
}

/// Whether an edge apply does not depend on the set at this index. It is true where there is none.
#[tactic(auto, using(crate::proofs::SetsRead::apart_of_none))]
fn is_apart(program: &Typed, edges: &EdgeApply, set: Option<usize>) -> bool
    ensures { result ≡ are_apart (sets_read (program_tree program.now) (edge_apply_tree edges.now)) (listed set) }
{
    match set {
        None => true,
        Some(set) => edges_do_omit(program, edges, set),
    }
}

fn edges_do_omit(program: &Typed, edges: &EdgeApply, set: usize) -> bool
    ensures { result ≡ edges_omit set (program_tree program.now) (edge_apply_tree edges.now) }
{
    end_does_omit(&program.filters, edges.ends.from, set)
        && end_does_omit(&program.filters, edges.ends.to, set)
        && function_does_omit(&program.edge_functions, edges.part.function, set)
}

/// Whether the function at this index writes no entry of the vector whose changes are asked for. The only error is
/// out of memory.
fn keeps_asked(
    alloc: Global,
    functions: &[Function],
    index: usize,
    asked: PartResult,
) -> Result<bool, AllocError>
    ensures { IfOk result (λ yes. yes ≡ are_apart (result_vectors (result_tree asked)) (function_writes (map function_tree functions.now) index)) }
{
    match asked {
        PartResult::Dropped => Ok(true),
        PartResult::Declared { vector, .. } | PartResult::Assigned { vector, .. } => {
            let mut written = Vec::new(alloc);
            push_written(functions, index, &mut written)?;
            Ok(!written.contains(&vector))
        }
    }
}

/// Whether two vertex applies are to the same set, of functions that read the entries of their own vertex alone.
pub(crate) fn vertices_fit(program: &Typed, first: &VertexApply, second: &VertexApply) -> bool
    ensures { result ≡ fit_vertices (program_tree program.now) (vertex_apply_tree first.now) (vertex_apply_tree second.now) }
{
    first.set.index == second.set.index
        && (function_is_local(&program.vertex_functions, first.function)
            && function_is_local(&program.vertex_functions, second.function))
}
