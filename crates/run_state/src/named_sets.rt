//! The vertex sets of a run, with their names and their sizes.
ghost use Rattle.std.specs.Prelude.{◌≡◌, ◌<◌, ◌≤◌, ◌+◌, ℕ, length, map, slice_get, take, vec_capacity, vec_len, IfOk, IfSome, OnErr, OnOk};
ghost use Rattle.std.specs.Option.{option_copied};
ghost use Rattle.algorithm_meaning.specs.Meaning.{named_set, full_set};
ghost use Rattle.algorithm_meaning.specs.State.{GraphValue};
ghost use Rattle.algorithm_meaning.specs.Value.{members_of};
ghost use Rattle.algorithm_meaning.specs.VertexSets.{inserted, with_members, with_new_set};
ghost use Rattle.run_state.specs.View.{members_in};
ghost use Rattle.vertex_sets.specs.VertexSet.{IsVertexSet};
ghost use Rattle.run_state.specs.inside.NamedSets.{AreNamed, named, size_of as size};
ghost use Rattle.run_state.specs.SetUpdate.{IsUpdateOf, with_update};

use crate::outcome::{first, name_sets};
use crate::set_update::SetUpdate;
use algorithm_meaning::NamedSet;
use std::alloc::{AllocError, Global};
use std::marker::Model;
use typed_tree::Name;
use vertex_sets::{Form, VertexSet};

/// The vertex sets of a run by their indices, with the indices of their names and with their sizes. A contract sees how many
/// vertices there are, and the list of the sets.
pub(crate) struct NamedSets {
    vertices: u32,
    names: Vec<usize>,
    members: Vec<VertexSet>,
    sizes: Vec<i64>,
}

impl Drop for NamedSets {
    fn drop(self) {
        let NamedSets {
            vertices: _,
            names: _,
            members: _,
            sizes: _,
        } = self;
    }
}

impl Model for NamedSets {
    ghost use Rattle.run_state.specs.inside.NamedSets.{AreNamed, named, sets_alone};
    ghost use Rattle.run_state.specs.State.{RunState};

    ghost Value = { RunState };

    ghost view = { λ s. sets_alone s.vertices (named s.names.items s.members.items) };

    ghost invariant = { λ s. AreNamed s.vertices s.names.items s.members.items s.sizes.items };
}

impl NamedSets {
    ghost use Rattle.run_state.specs.inside.NamedSets.{AreAscending, named, nothing, sets_alone, sizes_of, with_first_sets};
    ghost use Rattle.run_state.specs.State.{RunState, with_state};

    /// No sets.
    pub(crate) fn new(alloc: Global, vertices: u32) -> NamedSets
        ensures { result ≡ sets_alone vertices nothing }
    {
        NamedSets {
            vertices,
            names: Vec::new(alloc),
            members: Vec::new(alloc),
            sizes: Vec::new(alloc),
        }
    }

    /// Sets of these names, each of all vertices. The only error is out of memory.
    pub(crate) fn open(
        alloc: Global,
        vertices: u32,
        names: &[usize],
    ) -> Result<NamedSets, AllocError>
        ensures { IfOk result (λ s. (g : GraphValue) → g.vertices ≡ vertices
            → s ≡ sets_alone vertices (record nothing { sets = map (full_set g) names.now })) }
    {
        let mut opened = NamedSets::new(alloc, vertices);
        'names: for name in names {
            let all = VertexSet::full(alloc, vertices, Form::Bits)?;
            opened.push(*name, all)?;
        }
        Ok(opened)
    }

    /// How many vertices there are.
    pub(crate) fn vertices(&self) -> u32
        ensures vertices { result ≡ self.now.vertices }
        ensures ascending { AreAscending self.now }
    {
        self.vertices
    }

    /// The sizes of the sets.
    pub(crate) fn sizes(&self) -> &[i64]
        ensures { result.now ≡ sizes_of self.now.state }
    {
        self.sizes.as_slice()
    }

    /// The sets without their names.
    pub(crate) fn members(&self) -> &[VertexSet]
        ensures { (index : ℕ) → members_in (slice_get result.now index) ≡ members_of (slice_get self.now.state.sets index) }
    {
        self.members.as_slice()
    }

    /// The set at an index, or `None` where there is none.
    pub(crate) fn get(&self, index: usize) -> Option<&VertexSet>
        ensures members { members_in (option_copied result) ≡ members_of (slice_get self.now.state.sets index) }
        ensures vertices { IfSome result (λ set. set.now.vertices ≡ self.now.vertices) }
    {
        if index < self.members.len() {
            Some(&self.members[index])
        } else {
            None
        }
    }

    /// The names and the members of the sets up to an index. The only error is out of memory.
    pub(crate) fn shown(
        &self,
        alloc: Global,
        names: &[Name],
        count: usize,
    ) -> Result<Vec<NamedSet>, AllocError>
        ensures { IfOk result (λ v. v.items ≡ map (named_set names.now) (take count self.now.state.sets)) }
    {
        let set_names = first(&self.names, count);
        name_sets(alloc, names, set_names, first(&self.members, count))
    }

    /// How many sets there are.
    pub(crate) fn len(&self) -> usize
        ensures { result ≡ length self.now.state.sets }
    {
        self.members.len()
    }

    /// Does two updates, one after the other. The only error is out of memory, and then nothing is changed.
    pub(crate) fn update_sets(
        &mut self,
        first: SetUpdate,
        second: SetUpdate,
    ) -> Result<(), AllocError>
        requires first { IsUpdateOf self.old.vertices first }
        requires second { IsUpdateOf self.old.vertices second }
        ensures ok { OnOk result (self.new ≡ with_state self.old (with_update (with_update self.old.state first) second)) }
        ensures err { OnErr result (self.new ≡ self.old) }
    {
        make_room(&mut self.names, &mut self.members, &mut self.sizes, 2)?;
        update_set(&mut self.names, &mut self.members, &mut self.sizes, first);
        update_set(&mut self.names, &mut self.members, &mut self.sizes, second);
        Ok(())
    }

    /// Appends a set of as many vertices. The only error is out of memory, and then nothing is changed.
    pub(crate) fn push(&mut self, name: usize, set: VertexSet) -> Result<(), AllocError>
        requires { set.vertices ≡ self.old.vertices }
        ensures ok { OnOk result (self.new ≡ with_state self.old (with_new_set self.old.state name set.members)) }
        ensures err { OnErr result (self.new ≡ self.old) }
    {
        make_room(&mut self.names, &mut self.members, &mut self.sizes, 1)?;
        self.names.push_reserved(name);
        self.sizes.push_reserved(size_of(&set));
        self.members.push_reserved(set);
        Ok(())
    }

    /// Gives the set at an index the members of another of as many vertices; where there is none nothing is changed.
    pub(crate) fn replace(&mut self, index: usize, set: VertexSet)
        requires { set.vertices ≡ self.old.vertices }
        ensures { self.new ≡ with_state self.old (with_members self.old.state index set.members) }
    {
        if index < self.members.len() {
            self.sizes[index] = size_of(&set);
            self.members[index] = set;
        }
    }

    /// Gives the set at an index a vertex; where there is none nothing is changed. The only error is out of memory, and
    /// then nothing is changed.
    pub(crate) fn insert(&mut self, index: usize, vertex: u32) -> Result<(), AllocError>
        requires { vertex < self.old.vertices }
        ensures ok { OnOk result (self.new ≡ with_state self.old
            (with_members self.old.state index (inserted vertex (members_of (slice_get self.old.state.sets index))))) }
        ensures err { OnErr result (self.new ≡ self.old) }
    {
        if index < self.members.len() {
            self.members[index].insert(vertex)?;
            self.sizes[index] = size_of(&self.members[index]);
        }
        Ok(())
    }

    /// Forgets the sets from an index on.
    pub(crate) fn truncate(&mut self, count: usize)
        ensures { self.new ≡ with_state self.old (with_first_sets count self.old.state) }
    {
        self.names.truncate(count);
        self.members.truncate(count);
        self.sizes.truncate(count);
    }
}

/// The size of a set, as an int.
fn size_of(set: &VertexSet) -> i64
    ensures size { result ≡ size set.now.members }
    ensures valid { IsVertexSet set.now }
{
    let _vertices = set.vertices();
    set.len() as i64
}

/// Makes room for so many more names, sets and sizes. The only error is out of memory.
fn make_room(
    names: &mut Vec<usize>,
    members: &mut Vec<VertexSet>,
    sizes: &mut Vec<i64>,
    more: usize,
) -> Result<(), AllocError>
    ensures names { names.new.items ≡ names.old.items }
    ensures members { members.new.items ≡ members.old.items }
    ensures sizes { sizes.new.items ≡ sizes.old.items }
    ensures names_room { OnOk result (vec_len names.new + more ≤ vec_capacity names.new) }
    ensures members_room { OnOk result (vec_len members.new + more ≤ vec_capacity members.new) }
    ensures sizes_room { OnOk result (vec_len sizes.new + more ≤ vec_capacity sizes.new) }
{
    names.reserve(more)?;
    members.reserve(more)?;
    sizes.reserve(more)?;
    Ok(())
}

/// Does an update of names, sets and their sizes, which have room for one more.
fn update_set(
    names: &mut Vec<usize>,
    members: &mut Vec<VertexSet>,
    sizes: &mut Vec<i64>,
    update: SetUpdate,
)
    requires names { vec_len names.old < vec_capacity names.old }
    requires members { vec_len members.old < vec_capacity members.old }
    requires sizes { vec_len sizes.old < vec_capacity sizes.old }
    requires counted { length names.old.items ≡ length members.old.items }
    requires measured { length sizes.old.items ≡ length members.old.items }
    ensures sets { named names.new.items members.new.items ≡ with_update (named names.old.items members.old.items) update }
    ensures are { (n : ℕ) → AreNamed n names.old.items members.old.items sizes.old.items → IsUpdateOf n update
        → AreNamed n names.new.items members.new.items sizes.new.items }
    ensures names_room { vec_capacity names.old + vec_len names.new ≤ vec_capacity names.new + vec_len names.old + 1 }
    ensures members_room { vec_capacity members.old + vec_len members.new ≤ vec_capacity members.new + vec_len members.old + 1 }
    ensures sizes_room { vec_capacity sizes.old + vec_len sizes.new ≤ vec_capacity sizes.new + vec_len sizes.old + 1 }
{
    match update {
        SetUpdate::Nothing => {}
        SetUpdate::New { name, set } => {
            names.push_reserved(name);
            sizes.push_reserved(size_of(&set));
            members.push_reserved(set);
        }
        SetUpdate::Other { index, set } => {
            if index < members.len() {
                sizes[index] = size_of(&set);
                members[index] = set;
            }
        }
    }
}
