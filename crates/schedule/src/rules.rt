//! Rules of `fuse` calls: whether two applies may be done together.
ghost use Rattle.std.specs.Prelude.{◌≡◌, IfOk};
ghost use Rattle.typed_tree.specs.ProgramTree.{program_tree};
ghost use Rattle.typed_tree.specs.Independence.{are_independent as independent, are_same as same_name, are_same_ends as same_ends, have_same_sets as same_sets, is_end_of_name};

use crate::access::{end_does_avoid, function_does_avoid};
use crate::names::name_at;
use std::alloc::{AllocError, Global};
use typed_tree::{ApplyEnds, Name, StatementApply, Typed, VertexFilter, push_written};

/// Whether both apply to vertices or both to edges, of the same sets and filters.
pub(crate) fn have_same_sets(names: &[Name], first: StatementApply, second: StatementApply) -> bool
    ensures { result ≡ same_sets names.now first second }
{
    match (first, second) {
        (StatementApply::Vertices { set: a, .. }, StatementApply::Vertices { set: b, .. }) => {
            are_same(names, a.name, b.name)
        }
        (StatementApply::Edges { ends: a, .. }, StatementApply::Edges { ends: b, .. }) => {
            are_same_ends(names, a.from, b.from) && are_same_ends(names, a.to, b.to)
        }
        _ => false,
    }
}

fn are_same(names: &[Name], first: usize, second: usize) -> bool
    ensures { result ≡ same_name names.now first second }
{
    name_at(names, first) == name_at(names, second)
}

fn are_same_ends(names: &[Name], first: Option<VertexFilter>, second: Option<VertexFilter>) -> bool
    ensures { result ≡ same_ends names.now first second }
{
    match (first, second) {
        (None, None) => true,
        (Some(VertexFilter::Members(a)), Some(VertexFilter::Members(b))) => {
            are_same(names, a.name, b.name)
        }
        (Some(VertexFilter::Function(a)), Some(VertexFilter::Function(b))) => a == b,
        _ => false,
    }
}

/// Whether two applies that have the same sets are independent: the second edge function neither reads nor writes, and
/// no filter of its ends reads, a vector that the first writes, and its ends do not name the set that the first gives.
/// Two vertex applies always are. The only error is out of memory.
pub fn are_independent(
    alloc: Global,
    program: &Typed,
    first: StatementApply,
    second: StatementApply,
) -> Result<bool, AllocError>
    ensures { IfOk result (λ yes. yes ≡ independent (program_tree program.now) first second) }
{
    match (first, second) {
        (
            StatementApply::Edges {
                function: writer,
                result: given,
                ..
            },
            StatementApply::Edges { ends, function, .. },
        ) => {
            if names_result(&program.names, given, ends.from)
                || names_result(&program.names, given, ends.to)
            {
                return Ok(false);
            }
            let mut written = Vec::new(alloc);
            push_written(&program.edge_functions, writer, &mut written)?;
            Ok(
                function_does_avoid(&program.edge_functions, function, &written)
                    && end_does_avoid(&program.filters, ends.from, &written)
                    && end_does_avoid(&program.filters, ends.to, &written),
            )
        }
        _ => Ok(true),
    }
}

/// Whether an end is the set that an apply's changes go to.
fn names_result(names: &[Name], name: Option<usize>, end: Option<VertexFilter>) -> bool
    ensures { result ≡ is_end_of_name names.now name end }
{
    match (name, end) {
        (Some(name), Some(VertexFilter::Members(set))) => are_same(names, name, set.name),
        _ => false,
    }
}
