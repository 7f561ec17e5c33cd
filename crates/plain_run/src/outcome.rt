//! Outcomes: what a run shows in the end.
ghost use Rattle.std.specs.Prelude.{◌≡◌, IfOk, map, unwrap_or};
ghost use Rattle.typed_tree.specs.ProgramTree.{program_tree};
ghost use Rattle.algorithm_meaning.specs.declared.outcome.End.TheVariants.{Finished};
ghost use Rattle.plain_run.specs.inside.Seen.{stand, state_of};
ghost use Rattle.algorithm_meaning.specs.Meaning.{shown_name_at, named_set, named_vectors, outcome_of};

use crate::state::InterpreterState;
use algorithm_meaning::{End, NamedSet, NamedVector, Outcome, SetBinding};
use std::alloc::{AllocError, Global};
use typed_tree::{Name, Sequence, Typed, Vector};

/// What is shown of a state in which the run ended, when the bound of turns was `turns`. No end means
/// that it reached the end of `main`.
pub(crate) fn show(
    alloc: Global,
    program: &Typed,
    turns: u64,
    state: InterpreterState,
    end: Option<End>,
) -> Result<Outcome, AllocError>
    ensures { IfOk result (λ o. o ≡ outcome_of (program_tree program.now) turns (stand end (state_of state))) }
{
    let vectors = name_vectors(alloc, &program.names, &program.vectors, state.vectors)?;
    let sets = name_sets(alloc, &program.names, state.sets)?;
    Ok(Outcome {
        end: end_or_finished(end),
        turns: turns.saturating_sub(state.turns),
        vectors: Sequence::new(vectors),
        sets: Sequence::new(sets),
        text: Sequence::new(state.text),
    })
}

fn end_or_finished(end: Option<End>) -> End
    ensures { result ≡ unwrap_or end Finished }
{
    match end {
        Some(end) => end,
        None => End::Finished,
    }
}

fn name_vectors(
    alloc: Global,
    names: &[Name],
    declared: &[Vector],
    vectors: Vec<Sequence<i64>>,
) -> Result<Vec<NamedVector>, AllocError>
    ensures { IfOk result (λ v. v.items ≡ named_vectors names.now declared.now vectors.items) }
{
    let mut named = Vec::new(alloc);
    let mut left = vectors.into_iter();
    'vectors: for vector in declared {
        let Some(entries) = left.next() else {
            return Ok(named);
        };
        named.push(NamedVector {
            name: name_of(alloc, names, vector.name)?,
            entries,
        })?;
    }
    Ok(named)
}

fn name_sets(
    alloc: Global,
    names: &[Name],
    sets: Vec<SetBinding>,
) -> Result<Vec<NamedSet>, AllocError>
    ensures { IfOk result (λ v. v.items ≡ map (named_set names.now) sets.items) }
{
    let mut named = Vec::new(alloc);
    'sets: for set in sets {
        named.push(NamedSet {
            name: name_of(alloc, names, set.name)?,
            members: set.members,
        })?;
    }
    Ok(named)
}

/// A copy of the name at an index, the empty one where there is none.
fn name_of(alloc: Global, names: &[Name], index: usize) -> Result<Name, AllocError>
    ensures { IfOk result (λ name. name ≡ shown_name_at names.now index) }
{
    match names.get(index) {
        Some(name) => Ok(Sequence::new(Vec::from_slice(alloc, name.as_slice())?)),
        None => Ok(Sequence::new(Vec::new(alloc))),
    }
}
