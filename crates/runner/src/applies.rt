//! Applies: the instructions that run functions of the user.
ghost use Rattle.std.specs.Prelude.{◌≡◌, ℕ, ℤ, List, None, Some, IfOk, OnOk, OnErr, IsSomeAnd, slice_get};
ghost use Rattle.typed_tree.specs.ProgramTree.{ProgramTree};
ghost use Rattle.algorithm_meaning.specs.EdgeApply.{modified as modified_in};
ghost use Rattle.algorithm_meaning.specs.State.{GraphValue};
ghost use Rattle.runner.specs.EdgeMap.{AreChangesTo};
ghost use Rattle.plans.specs.Operation.{result_tree, AreFunctionKernels, ApplyEdgesOf, IsOperation};
ghost use Rattle.plans.specs.Fused.{FitTogether};
ghost use Rattle.plans.specs.Instruction.{OperationTree};
ghost use Rattle.plans.specs.Reducing.{OperationReduces};
ghost use Rattle.plans.specs.declared.operation.PlanOperation.TheVariants as op;
ghost use Rattle.plans.specs.declared.operation.ApplyOperation.TheVariants as apply_op;
ghost use Rattle.run_state.specs.State.{graph_value, with_state};
ghost use Rattle.run_state.specs.SetUpdate.{IsUpdateOf};
ghost use Rattle.run_state.specs.VertexKernels.{IsVertexKernel};
ghost use Rattle.std.specs.Option.{ForSome, option_map};
ghost use Rattle.algorithm_meaning.specs.Function.{steps_of};
ghost use Rattle.kernels.specs.Meaning.{IsVertexCode};
ghost use Rattle.runner.specs.inside.Done.{HasDone, HaveTrees, IsAsBefore};
ghost use Rattle.runner.specs.inside.Position.{IsOn};
ghost use Rattle.runner.specs.inside.Results.{IsUpdateFor, result_of_second, with_both};
ghost use Rattle.vectors.specs.Changes.{with_all_changes};

use crate::changed_vertices::changed_vertices;
use crate::edge_applier::EdgeApplier;
use crate::edge_maps::EdgeMap;
use crate::flow::Flow;
use crate::memory::Memory;
use apply_options::ApplySchedule;
use flat_snapshot::Flat;
use kernels::VertexKernel;
use plans::{EdgePart, FunctionKernels, Instruction, PartResult};
use run_state::{SetUpdate, State};
use std::alloc::{AllocError, Global};
use typed_tree::{ApplyEnds, VarRef};
use vectors::Changes;
use vertex_sets::{Form, VertexSet};

/// What an instruction applies on the edges of a graph between two ends: one edge function, or two.
#[derive(Clone, Copy)]
pub(crate) struct EdgeApplies<'a> {
    pub(crate) graph: &'a Flat,
    pub(crate) ends: ApplyEnds,
    pub(crate) first: EdgePart,
    pub(crate) second: Option<EdgePart>,
}

impl Memory {
    /// One vertex function, or two, at each member of a set.
    pub(crate) fn apply_vertices(
        &mut self,
        functions: &FunctionKernels,
        instruction: &Instruction,
        set: VarRef,
        first: usize,
        second: Option<usize>,
    ) -> Result<(), AllocError>
        requires known { ∥ HaveTrees functions.now ∥₁ }
        ensures done { OnOk result ((p : ProgramTree) (g : GraphValue) (t : OperationTree) → AreFunctionKernels functions.now p
            → IsOperation instruction.now.keep instruction.now.shown (op.Apply (apply_op.ApplyVertices set first second)) t → FitTogether p t
            → HasDone instruction.now Flow.Next self.old self.new p g t) }
        ensures turns { OnOk result (self.new.state.state.turns ≡ self.old.state.state.turns) }
        ensures vertices { self.new.state.vertices ≡ self.old.state.vertices }
        ensures groups { self.new.state.groups ≡ self.old.state.groups }
        ensures err { OnErr result (IsAsBefore self.old self.new) }
    {
        // A proof reads here that members ascend.
        let _vertices = self.state.vertices();
        let first = functions.vertex.get(first);
        let second = second_kernel(functions, second);
        self.state
            .apply_vertices(set.index, first, second, &mut self.block)?;
        Ok(())
    }

    /// One edge function, or two, on the edges of a graph between two ends.
    pub(crate) fn apply_edges<E: EdgeApplier>(
        &mut self,
        alloc: Global,
        functions: &FunctionKernels,
        instruction: &Instruction,
        applies: EdgeApplies<'_>,
        by: &mut E,
    ) -> Result<(), AllocError>
        requires applier { E.is_ready by.old functions.now applies.graph.now }
        requires knows { E.knows by.old self.old.state.state.vectors }
        ensures applier { E.is_ready by.new functions.now applies.entry.graph.now }
        ensures knows { OnOk result (E.knows by.new self.new.state.state.vectors) }
        ensures done { OnOk result ((p : ProgramTree) (g : GraphValue) (t : OperationTree) → g ≡ graph_value applies.entry.graph.now → IsOn g self.old
            → AreFunctionKernels functions.now p → ApplyEdgesOf applies.entry.ends applies.entry.first applies.entry.second t → OperationReduces p t
            → HasDone instruction.now Flow.Next self.old self.new p g t) }
        ensures turns { OnOk result (self.new.state.state.turns ≡ self.old.state.state.turns) }
        ensures vertices { self.new.state.vertices ≡ self.old.state.vertices }
        ensures groups { self.new.state.groups ≡ self.old.state.groups }
        ensures err { OnErr result (IsAsBefore self.old self.new) }
    {
        let schedule = instruction.apply_schedule;
        let EdgeApplies {
            graph,
            ends,
            first,
            second,
        } = applies;
        let both = function_of(second);
        let asked = EdgeMap {
            ends,
            first: first.function,
            second: both,
            schedule,
        };
        let view = self.state.view(functions, graph);
        let changes = by.apply_edges(alloc, view, asked)?;
        let second = result_of(second);
        take_changes(
            alloc,
            &mut self.state,
            &changes,
            schedule,
            first.result,
            second,
        )?;
        Ok(())
    }
}

/// The function of the second part, where there is one.
fn function_of(second: Option<EdgePart>) -> Option<usize>
    ensures { result ≡ option_map (λ part. part.function) second }
{
    let part = second?;
    Some(part.function)
}

/// The result of the second part; without one there is nothing to do.
fn result_of(second: Option<EdgePart>) -> PartResult
    ensures { result ≡ result_of_second second }
{
    match second {
        None => PartResult::Dropped,
        Some(part) => part.result,
    }
}

/// Takes the sets of what an apply changed, and writes its changes. The only error is out of memory.
fn take_changes(
    alloc: Global,
    state: &mut State,
    changes: &Changes,
    apply_schedule: ApplySchedule,
    first: PartResult,
    second: PartResult,
) -> Result<(), AllocError>
    ensures ok { OnOk result ((after : List (List ℤ)) → AreChangesTo state.old.vertices state.old.state.vectors after changes.now.vectors.items
        → state.new ≡ with_state state.old (with_both state.old.vertices first second after state.old.state)) }
    ensures written { OnOk result (state.new.state.vectors ≡ with_all_changes changes.now.vectors.items state.old.state.vectors) }
    ensures turns { state.new.state.turns ≡ state.old.state.turns }
    ensures vertices { state.new.vertices ≡ state.old.vertices }
    ensures groups { state.new.groups ≡ state.old.groups }
    ensures err { OnErr result (state.new ≡ state.old) }
{
    let of_first = set_update(alloc, state, changes, apply_schedule, first)?;
    let of_second = set_update(alloc, state, changes, apply_schedule, second)?;
    state.update_sets(of_first, of_second)?;
    state.write(changes);
    Ok(())
}

/// The update by which a set gets the vertices at which an edge function changed a vector. The only error is out of memory.
fn set_update(
    alloc: Global,
    state: &State,
    changes: &Changes,
    apply_schedule: ApplySchedule,
    asked: PartResult,
) -> Result<SetUpdate, AllocError>
    ensures of { IfOk result (λ t. IsUpdateOf state.now.vertices t) }
    ensures update { IfOk result (λ t. (after : List (List ℤ)) → AreChangesTo state.now.vertices state.now.state.vectors after changes.now.vectors.items
        → IsUpdateFor state.now.vertices state.now.state.vectors after (result_tree asked) t) }
{
    match asked {
        PartResult::Dropped => Ok(SetUpdate::Nothing),
        PartResult::Declared { name, vector } => {
            let set = modified(alloc, state, changes, apply_schedule, vector)?;
            Ok(SetUpdate::New { name, set })
        }
        PartResult::Assigned { set, vector } => {
            let index = set.index;
            let set = modified(alloc, state, changes, apply_schedule, vector)?;
            Ok(SetUpdate::Other { index, set })
        }
    }
}

/// The vertices at which a vector changes, none where there is no such vector. The only error is out of memory.
fn modified(
    alloc: Global,
    state: &State,
    changes: &Changes,
    apply_schedule: ApplySchedule,
    vector: usize,
) -> Result<VertexSet, AllocError>
    ensures vertices { IfOk result (λ s. s.vertices ≡ state.now.vertices) }
    ensures members { IfOk result (λ s. (after : List (List ℤ)) → AreChangesTo state.now.vertices state.now.state.vectors after changes.now.vectors.items
        → s.members ≡ modified_in state.now.vertices vector state.now.state.vectors after) }
{
    if vector < state.vector_count() {
        changed_vertices(alloc, changes, vector, state.vertices(), apply_schedule)
    } else {
        VertexSet::empty(alloc, state.vertices(), Form::List)
    }
}

/// The kernel of the function at the second index, where there is one.
fn second_kernel(functions: &FunctionKernels, second: Option<usize>) -> Option<&VertexKernel>
    ensures none { second ≡ None → result ≡ None }
    ensures some { (p : ProgramTree) (index : ℕ) → AreFunctionKernels functions.now p → second ≡ Some index
        → IsSomeAnd result (λ k. IsVertexCode k.now.code.items (steps_of (slice_get p.vertex_functions index))) }
    ensures known { ∥ HaveTrees functions.now ∥₁ → ForSome result (λ k. ∥ IsVertexKernel k.now ∥₁) }
{
    let index = second?;
    Some(functions.vertex.get(index))
}
