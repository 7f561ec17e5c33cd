//! Vertices in parts of at most a block, and vertex functions that run for them.
ghost use Rattle.std.specs.Prelude.{◌≡◌, ℕ, List, ◌≤◌, length, take, drop, min};
ghost use Rattle.std.specs.List.Sorted.{IsStrictlyIncreasing};
ghost use Rattle.typed_tree.specs.FunctionStatementTree.{FunctionStatementsTree};
ghost use Rattle.algorithm_meaning.specs.State.{StateValue};
ghost use Rattle.algorithm_meaning.specs.VertexSets.{after_vertices};
ghost use Rattle.kernels.specs.Registers.{HasSizes};
ghost use Rattle.kernels.specs.Meaning.{IsVertexCode};
ghost use Rattle.kernels.specs.Kernels.{HasRegisters};
ghost use Rattle.kernels.specs.RegisterCounts.{RegisterCounts};

use kernels::{Block, PAIRS, VertexKernel};
use vectors::Vectors;
use vertex_sets::VertexIter;

/// Takes as many of the next vertices as the part has room for, and says how many they are.
pub(crate) fn take_part(vertices: &mut VertexIter<'_>, part: &mut [u32]) -> usize
    ensures count { result ≡ min (length part.old) (length vertices.old) }
    ensures taken { take result part.new ≡ take result vertices.old }
    ensures rest { vertices.new ≡ drop result vertices.old }
{
    let room = part.len();
    'positions: for position in 0..room {
        let Some(vertex) = vertices.next() else {
            return position;
        };
        part[position] = vertex;
    }
    room
}

/// Runs a vertex function for ascending vertices, each alone and in order.
pub(crate) fn run_for_all(
    kernel: &VertexKernel,
    vertices: VertexIter<'_>,
    sizes: &[i64],
    vectors: &mut Vectors,
    block: &mut Block,
)
    requires room { HasRegisters block.old kernel.now.room }
    requires ascending { IsStrictlyIncreasing vertices }
    ensures vectors { (steps : FunctionStatementsTree) (m : StateValue) → IsVertexCode kernel.now.code.items steps → vectors.old.vectors ≡ m.vectors → HasSizes sizes.now m
        → vectors.new.vectors ≡ after_vertices steps m.sets vertices.entry m.vectors }
    ensures groups { vectors.new.groups ≡ vectors.old.groups }
    ensures keeps { (other : RegisterCounts) → HasRegisters block.old other → HasRegisters block.new other }
{
    let mut left = vertices;
    let mut part = [0u32; PAIRS];
    'parts: loop {
        let count = take_part(&mut left, &mut part);
        if count == 0 {
            return;
        }
        kernel.run(&part[..count], sizes, vectors, block);
    }
}
