//! Sets of vertices in their three forms.
use std::alloc::{AllocError, Global};
use test_helpers::{Checked, check};
use vertex_sets::{Form, VertexSet};

// The set of 0, 63 and 64 below 65.
fn three_of(alloc: Global, form: Form) -> Result<VertexSet, AllocError> {
    let mut set = VertexSet::empty(alloc, 65, form)?;
    for vertex in [63, 0, 64, 0] {
        if vertex < set.vertices() {
            set.insert(vertex)?;
        }
    }
    Ok(set)
}

const WORDS: &[u64] = &[9_223_372_036_854_775_809, 1];

// Checks that the three have these members and these words, and that a full set is full.
fn check_form(alloc: Global, form: Form) -> Result<Checked, AllocError> {
    let set = three_of(alloc, form)?;
    let bits = set.to_form(alloc, Form::Bits)?;
    let full = VertexSet::full(alloc, 64, form)?;
    Ok(
        check(set.iter().eq([0, 63, 64]), "the members")
            .and(check(bits.words() == Some(WORDS), "the words"))
            .and(check(full.len() == 64, "the full set")),
    )
}

#[test]
fn sets_are_the_same_in_each_form(rt: HostRuntime) {
    for form in [Form::List, Form::Flags, Form::Bits] {
        assert_eq!(rt; check_form(rt.alloc(), form), Ok(Ok(())), "{form:?}");
    }
}
