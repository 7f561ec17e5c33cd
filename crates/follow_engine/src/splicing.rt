//! The changes of one vector: those that were found, and those of a record.
ghost use Rattle.std.specs.Prelude.{◌≡◌, ◌≤◌, ◌++◌, ℕ, [], length, take, drop, IfOk, OnOk};
ghost use Rattle.std.specs.List.{filter};
ghost use Rattle.vertex_marks.specs.Marks.{is_marked};
ghost use Rattle.follow_engine.specs.Spliced.{changes_below, changes_from, merged, spliced};
ghost use Rattle.follow_engine.specs.inside.Runs.{unmarked};

use std::alloc::{AllocError, Global};
use vectors::EntryChange;
use vertex_marks::VertexMarks;

/// The changes that were found at the marked vertices, and those of a record at the others, by ascending vertices as both
/// lists are. The only error is out of memory.
pub fn splice(
    alloc: Global,
    marks: &VertexMarks,
    found: &[EntryChange],
    recorded: &[EntryChange],
) -> Result<Vec<EntryChange>, AllocError>
    ensures { IfOk result (λ all. all.items ≡ spliced (is_marked marks.now) found.now recorded.now) }
{
    let marked = at_marked(alloc, marks, found)?;
    let room = marked.len().saturating_add(recorded.len());
    let mut all = Vec::with_capacity(alloc, room)?;
    let mut left = marked.as_slice();
    let mut rest = recorded;
    'runs: while !rest.is_empty() {
        let (run, others) = rest.split_at(run_length(marks, left, rest));
        all.extend_from_slice(run)?;
        left = push_first(marks, left, others, &mut all)?;
        rest = after_first(others);
    }
    all.extend_from_slice(left)?;
    Ok(all)
}

/// How many changes in front are at vertices that are not marked, and at none above that of the first of `left`.
fn run_length(marks: &VertexMarks, left: &[EntryChange], recorded: &[EntryChange]) -> usize
    ensures some { result ≤ length recorded.now }
    ensures run { merged left.now (unmarked marks.now recorded.now) ≡ take result recorded.now ++ merged left.now (unmarked marks.now (drop result recorded.now)) }
{
    let last = first_vertex(left);
    'changes: for (position, change) in recorded.iter().enumerate() {
        if last < change.vertex() || marks.contains(change.vertex()) {
            return position;
        }
    }
    recorded.len()
}

/// The vertex of the first change, and the greatest number if there is none.
fn first_vertex(changes: &[EntryChange]) -> u32
    ensures { (v : ℕ) → v ≤ result → (changes_below v changes.now ≡ []) × (changes_from v changes.now ≡ changes.now) }
{
    match changes.first() {
        Some(first) => first.vertex(),
        None => u32::MAX,
    }
}

/// Appends the first of some changes after those of `left` below it, if it is at a vertex that is not marked. It gives the others of
/// `left`.
fn push_first<'a>(
    marks: &VertexMarks,
    left: &'a [EntryChange],
    recorded: &[EntryChange],
    all: &mut Vec<EntryChange>,
) -> Result<&'a [EntryChange], AllocError>
    ensures { IfOk result (λ others. all.new.items ++ merged others.now (unmarked marks.now (drop 1 recorded.now))
        ≡ all.old.items ++ merged left.entry.now (unmarked marks.now recorded.now)) }
{
    match recorded.first() {
        Some(change) if !marks.contains(change.vertex()) => {
            let others = push_below(left, change.vertex(), all)?;
            all.push(*change)?;
            Ok(others)
        }
        _ => Ok(left),
    }
}

/// All changes but the first.
fn after_first(changes: &[EntryChange]) -> &[EntryChange]
    ensures { result.now ≡ drop 1 changes.now }
{
    match changes.split_first() {
        Some((_, others)) => others,
        None => changes,
    }
}

/// The changes at the marked vertices. The only error is out of memory.
fn at_marked(
    alloc: Global,
    marks: &VertexMarks,
    changes: &[EntryChange],
) -> Result<Vec<EntryChange>, AllocError>
    ensures { IfOk result (λ marked. marked.items ≡ filter (λ c. is_marked marks.now c.vertex) changes.now) }
{
    let mut marked = Vec::new(alloc);
    'changes: for change in changes {
        if marks.contains(change.vertex()) {
            marked.push(*change)?;
        }
    }
    Ok(marked)
}

/// Appends the changes in front that are at vertices below this one, and gives the others.
fn push_below<'a>(
    found: &'a [EntryChange],
    vertex: u32,
    all: &mut Vec<EntryChange>,
) -> Result<&'a [EntryChange], AllocError>
    ensures below { OnOk result (all.new.items ≡ all.old.items ++ changes_below vertex found.entry.now) }
    ensures rest { IfOk result (λ left. left.now ≡ changes_from vertex found.entry.now) }
{
    let (below, rest) = found.split_at(count_below(found, vertex));
    all.extend_from_slice(below)?;
    Ok(rest)
}

/// How many changes in front are at vertices below this one.
fn count_below(found: &[EntryChange], vertex: u32) -> usize
    ensures some { result ≤ length found.now }
    ensures below { take result found.now ≡ changes_below vertex found.now }
    ensures rest { drop result found.now ≡ changes_from vertex found.now }
{
    'changes: for (position, change) in found.iter().enumerate() {
        if vertex <= change.vertex() {
            return position;
        }
    }
    found.len()
}
