//! Tests of what a follower compares, by tables. A call of `follow` has to be proved to follow.
use crate::differences::members_of_one;
use crate::room_of_record;
use crate::rows::have_rows;
use std::test::Fail;
use typed_tree::Sequence;
use vectors::Vectors;
use vertex_sets::{Form, VertexSet};

// Some vertices.
type Vertices = &'static [u32];

// Two sets, and the members of one of them alone.
const PARTS: [[Vertices; 3]; 5] = [
    [&[], &[], &[]],
    [&[0, 3], &[0, 3], &[]],
    [&[0, 3], &[], &[0, 3]],
    [&[], &[1], &[1]],
    [&[0, 2, 4], &[2, 3, 4, 5], &[0, 3, 5]],
];

#[test]
fn members_of_one_set_alone_differ(rt: HostRuntime) -> Result<(), Fail> {
    for (index, [first, second, alone]) in PARTS.iter().enumerate() {
        let set = VertexSet::from_ascending(rt.alloc(), 6, first, Form::List)?;
        let other = VertexSet::from_ascending(rt.alloc(), 6, second, Form::Bits)?;
        let found = members_of_one(rt.alloc(), &set, &other)?;
        assert!(rt; found.as_slice() == *alone, "row {index}");
    }
    Ok(())
}

#[test]
fn rows_have_an_entry_for_each_vertex(rt: HostRuntime) -> Result<(), Fail> {
    let mut arrays = Vec::new(rt.alloc());
    arrays.push(Sequence::new(Vec::from_slice(rt.alloc(), &[1, 2])?))?;
    arrays.push(Sequence::new(Vec::from_slice(rt.alloc(), &[3, 4])?))?;
    let vectors = Vectors::new(rt.alloc(), arrays)?;
    assert!(rt; have_rows(&vectors, 2, 2));
    assert!(rt; !have_rows(&vectors, 1, 2));
    assert!(rt; !have_rows(&vectors, 2, 3));
    Ok(())
}

#[test]
fn the_room_of_a_record_grows_with_its_vertices(rt: HostRuntime) {
    assert!(rt; room_of_record(0) == 1_048_576);
    assert!(rt; room_of_record(65_536) == 3_145_728);
}
