//! The applies that statements are.
ghost use Rattle.std.specs.Prelude.{◌≡◌};
ghost use Rattle.std.specs.Option.{option_map};
ghost use Rattle.typed_tree.specs.BlockTree.{statement_kind_tree};
ghost use Rattle.plans.specs.Fusing.{edge_apply_of as edge_apply_in, modifying as modifying_in, vertex_apply_of as vertex_apply_in};
ghost use Rattle.plans.specs.Instruction.{Assigned, Declared};
ghost use Rattle.plans.specs.inside.Parts.{edge_apply_tree, vertex_apply_tree};

use plans::{EdgeApply, EdgePart, PartResult, VertexApply};
use typed_tree::{ApplyEnds, SetValue, SimpleStatement, StatementKind};

/// The edge apply that a statement is, and `None` of every other. A set that gets what the apply changed is part of it.
#[tactic(auto, using(crate::proofs::SimpleStatements::value_applies_no_edges))]
pub(crate) fn edge_apply_of(action: &StatementKind) -> Option<EdgeApply>
    ensures { option_map edge_apply_tree result ≡ edge_apply_in (statement_kind_tree action.now) }
{
    match action {
        StatementKind::Simple(SimpleStatement::ApplyEdges(ends, function)) => Some(apply(
            *ends,
            *function,
            PartResult::Dropped,
        )),
        StatementKind::Simple(
            SimpleStatement::DeclareSet(name, SetValue::Modified(ends, function, vector)),
        ) => {
            let result = PartResult::Declared {
                name: *name,
                vector: *vector,
            };
            Some(apply(*ends, *function, result))
        }
        StatementKind::Simple(
            SimpleStatement::AssignSet(set, SetValue::Modified(ends, function, vector)),
        ) => {
            let result = PartResult::Assigned {
                set: *set,
                vector: *vector,
            };
            Some(apply(*ends, *function, result))
        }
        _ => None,
    }
}

fn apply(ends: ApplyEnds, function: usize, given: PartResult) -> EdgeApply
    ensures { result ≡ record { ends = ends; part = record { function = function; result = given } } }
{
    EdgeApply {
        ends,
        part: EdgePart {
            function,
            result: given,
        },
    }
}

/// The vertex apply that a statement is, and `None` of every other.
#[tactic(auto, using(crate::proofs::SimpleStatements::value_applies_no_vertices))]
pub(crate) fn vertex_apply_of(action: &StatementKind) -> Option<VertexApply>
    ensures { option_map vertex_apply_tree result ≡ vertex_apply_in (statement_kind_tree action.now) }
{
    match action {
        StatementKind::Simple(SimpleStatement::ApplyVertex(set, function)) => Some(VertexApply {
            set: *set,
            function: *function,
        }),
        _ => None,
    }
}
