//! Initial vectors: the entries before the first statement.
ghost use Rattle.std.specs.Prelude.{◌≡◌, pos, map, IfOk};
ghost use Rattle.algorithm_meaning.specs.Arithmetic.{wrapped};
ghost use Rattle.algorithm_meaning.specs.Meaning.{initial_entries, out_degree};
ghost use Rattle.algorithm_meaning.specs.VertexSets.{all_below};
ghost use Rattle.run_state.specs.State.{AreGroups, graph_value, opened_vectors};

use flat_snapshot::Flat;
use std::alloc::{AllocError, Global};
use typed_tree::{InitialValue, Sequence, Vector};
use vectors::{GroupError, Vectors};

/// What the vectors begin with. Groups that fit the vectors stand together. The only error is out of memory.
pub(crate) fn open_vectors(
    alloc: Global,
    vectors: &[Vector],
    groups: &[Sequence<usize>],
    graph: &Flat,
) -> Result<Vectors, AllocError>
    ensures vectors { IfOk result (λ v. v.vectors ≡ opened_vectors graph.now vectors.now) }
    ensures groups { IfOk result (λ v. AreGroups (opened_vectors graph.now vectors.now) groups.now v.groups) }
{
    let arrays = open_arrays(alloc, vectors, graph)?;
    // Nothing is copied if no vectors stand together.
    if groups.is_empty() {
        return Vectors::new(alloc, arrays);
    }
    match Vectors::grouped(alloc, &arrays, groups) {
        Ok(grouped) => Ok(grouped),
        Err(GroupError::Unfit) => Vectors::new(alloc, arrays),
        Err(GroupError::NoMemory) => Err(AllocError),
    }
}

fn open_arrays(
    alloc: Global,
    vectors: &[Vector],
    graph: &Flat,
) -> Result<Vec<Sequence<i64>>, AllocError>
    ensures { IfOk result (λ v. v.items ≡ opened_vectors graph.now vectors.now) }
{
    let mut opened = Vec::new(alloc);
    'vectors: for vector in vectors {
        opened.push(open_array(alloc, vector.beginning, graph)?)?;
    }
    Ok(opened)
}

fn open_array(
    alloc: Global,
    beginning: InitialValue,
    graph: &Flat,
) -> Result<Sequence<i64>, AllocError>
    ensures { IfOk result (λ v. v ≡ initial_entries (graph_value graph.now) beginning) }
{
    match beginning {
        InitialValue::Number(n) => {
            let entries = vec![in alloc; n; graph.vertices() as usize]?;
            Ok(Sequence::new(entries))
        }
        InitialValue::OutDegrees => {
            let degrees = out_degrees(alloc, graph)?;
            Ok(Sequence::new(degrees))
        }
    }
}

/// The out-degree of each vertex.
fn out_degrees(alloc: Global, graph: &Flat) -> Result<Vec<i64>, AllocError>
    ensures { IfOk result (λ v. v.items ≡ map (λ v. wrapped (pos (out_degree v graph.now.edges))) (all_below graph.now.vertices)) }
{
    let mut degrees = Vec::new(alloc);
    'vertices: for vertex in 0..graph.vertices() {
        degrees.push(i64::from(graph.out_degree(vertex)))?;
    }
    Ok(degrees)
}
