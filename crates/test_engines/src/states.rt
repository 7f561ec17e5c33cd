//! States of runs that open with groups of vectors.

use flat_snapshot::Flat;
use run_state::State;
use std::alloc::Global;
use std::test::Fail;
use tree_batch::Graph;
use typed_tree::{InitialValue, Sequence, Vector};

// Groups of two vectors: one that fits, one that names a vector twice, and one with a vector that there is not.
const GROUPS: [[usize; 2]; 3] = [[0, 1], [1, 1], [1, 9]];

const VECTORS: [Vector; 2] = [
    Vector {
        name: 0,
        beginning: InitialValue::Number(7),
    },
    Vector {
        name: 1,
        beginning: InitialValue::OutDegrees,
    },
];

// The vertices, the vectors and the turns of a state of two vectors that opens with this group.
fn opened(alloc: Global, group: &[usize]) -> Result<(u32, usize, u64), Fail> {
    let graph = Flat::of(alloc, &Graph::new(3, 64)?)?;
    let mut groups = Vec::new(alloc);
    groups.push(Sequence::new(Vec::from_slice(alloc, group)?))?;
    let state = State::open(alloc, &VECTORS, &[], &groups, &graph, 5)?;
    Ok((state.vertices(), state.vector_count(), state.turns()))
}

#[test]
fn a_state_opens_with_any_groups(rt: HostRuntime) -> Result<(), Fail> {
    for group in &GROUPS {
        assert_eq!(rt; opened(rt.alloc(), group)?, (3, 2, 5), "{group:?}");
    }
    Ok(())
}
