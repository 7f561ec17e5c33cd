//! The set and its calls.

ghost use Rattle.std.specs.Prelude.{◌≡◌, ◌↔◌, ℕ, ◌<◌, ◌≤◌, [], length, Contains, IfOk, IfSome, IsOk, IsSome, IsTrue, OnOk, OnErr};
ghost use Rattle.vertex_sets.specs.VertexSet.{IsVertexSet, IsAscendingBelow, IsAnswer, Adds, AreWordsOf, AreFlagsOf, subset, all_vertices};
ghost use Rattle.vertex_sets.specs.inside.Stored.{members_of, form_of, IsStored};

use crate::flags::FlagSet;
use crate::form::Form;
use crate::iter::VertexIter;
use crate::list;
use crate::words::WordSet;
use std::alloc::{AllocError, Global};
use std::marker::Model;

/// A set of vertices, numbers below a count of at most 2^32 - 1. A contract sees that count, the
/// members as an ascending list, and the form in which they are kept.
pub struct VertexSet {
    vertices: u32,
    members: Members,
}

/// The members, in each form.
#[derive(Drop)]
pub(crate) enum Members {
    Listed(Vec<u32>),
    Flagged(FlagSet),
    Worded(WordSet),
}

// By hand: a derived drop would be written out, and proved again, in each function that lets a set go.
impl Drop for VertexSet {
    fn drop(self) {
        let VertexSet {
            vertices: _,
            members: _,
        } = self;
    }
}

impl Model for VertexSet {
    ghost use Rattle.vertex_sets.specs.VertexSet.{VertexSubset, subset};
    ghost use Rattle.vertex_sets.specs.inside.Stored.{members_of, form_of, IsStored};

    ghost Value = { VertexSubset };

    ghost view = { λ s. subset s.vertices (members_of s.members) (form_of s.members) };

    ghost invariant = { λ s. IsStored s.vertices s.members };
}

impl VertexSet {
    /// The set of no members, of n vertices. A list takes no memory, flags take a byte a vertex
    /// and bits a bit a vertex.
    pub fn empty(alloc: Global, vertices: u32, form: Form) -> Result<VertexSet, AllocError>
        ensures members { IfOk result (λ s. s ≡ subset vertices [] form) }
        ensures no_memory { form ≡ Form.List → IsOk result }
    {
        let members = match form {
            Form::List => Members::Listed(Vec::new(alloc)),
            Form::Flags => Members::Flagged(FlagSet::empty(alloc, vertices)?),
            Form::Bits => Members::Worded(WordSet::empty(alloc, vertices)?),
        };
        Ok(VertexSet { vertices, members })
    }

    /// The set of all of n vertices, in `O(n)`, and in `O(n / 64)` as bits.
    pub fn full(alloc: Global, vertices: u32, form: Form) -> Result<VertexSet, AllocError>
        ensures { IfOk result (λ s. s ≡ subset vertices (all_vertices vertices) form) }
    {
        match form {
            Form::List => {
                let list = list::full(alloc, vertices)?;
                Ok(VertexSet::of(vertices, Members::Listed(list)))
            }
            Form::Flags => {
                let set = FlagSet::full(alloc, vertices)?;
                Ok(VertexSet::of(vertices, Members::Flagged(set)))
            }
            Form::Bits => {
                let set = WordSet::full(alloc, vertices)?;
                Ok(VertexSet::of(vertices, Members::Worded(set)))
            }
        }
    }

    /// The set that is kept so.
    fn of(vertices: u32, members: Members) -> VertexSet
        requires { IsStored vertices members }
        ensures set { result ≡ subset vertices (members_of members) (form_of members) }
        ensures valid { IsVertexSet result }
    {
        VertexSet { vertices, members }
    }

    /// The set of members that ascend strictly, each below the number of vertices. Takes `O(k)` for k
    /// members, and what `empty` takes.
    pub fn from_ascending(
        alloc: Global,
        vertices: u32,
        members: &[u32],
        form: Form,
    ) -> Result<VertexSet, AllocError>
        requires { IsAscendingBelow vertices members.now }
        ensures { IfOk result (λ s. s ≡ subset vertices members.now form) }
    {
        match form {
            Form::List => {
                let list = Vec::from_slice(alloc, members)?;
                Ok(VertexSet::of(vertices, Members::Listed(list)))
            }
            Form::Flags | Form::Bits => {
                VertexSet::from_members(alloc, vertices, VertexIter::of_list(members), form)
            }
        }
    }

    /// The set of members that ascend.
    fn from_members(
        alloc: Global,
        vertices: u32,
        members: VertexIter<'_>,
        form: Form,
    ) -> Result<VertexSet, AllocError>
        requires { IsAscendingBelow vertices members }
        ensures { IfOk result (λ s. s ≡ subset vertices members.entry form) }
    {
        let members = match form {
            Form::List => Members::Listed(members.collect(alloc)?),
            Form::Flags => Members::Flagged(FlagSet::from_members(alloc, vertices, members)?),
            Form::Bits => Members::Worded(WordSet::from_members(alloc, vertices, members)?),
        };
        Ok(VertexSet { vertices, members })
    }

    /// The set of the vertices that pass a test, which is called once for each vertex in ascending
    /// order. `tested` says of each vertex that it is a member and the test answered true for it, or is
    /// none and it answered false.
    pub fn from_test<F: Fn(u32) -> bool>(
        alloc: Global,
        vertices: u32,
        form: Form,
        test: F,
    ) -> Result<VertexSet, AllocError>
        requires { (v : ℕ) → v < vertices → F.pre test v }
        ensures form { IfOk result (λ s. s.form ≡ form) }
        ensures vertices { IfOk result (λ s. s.vertices ≡ vertices) }
        ensures tested { IfOk result (λ s. (v : ℕ) → v < vertices
            → IsAnswer (F.post test) s.members v) }
        ensures valid { IfOk result IsVertexSet }
    {
        match form {
            Form::List => {
                let list = list::from_test(alloc, vertices, &test)?;
                Ok(VertexSet::of(vertices, Members::Listed(list)))
            }
            Form::Flags => {
                let set = FlagSet::from_test(alloc, vertices, &test)?;
                Ok(VertexSet::of(vertices, Members::Flagged(set)))
            }
            Form::Bits => {
                let set = WordSet::from_test(alloc, vertices, &test)?;
                Ok(VertexSet::of(vertices, Members::Worded(set)))
            }
        }
    }

    /// A set of the same members in a form. From k members it takes `O(k)`, what going over the
    /// members takes, and what `empty` takes.
    pub fn to_form(&self, alloc: Global, form: Form) -> Result<VertexSet, AllocError>
        ensures { IfOk result (λ s. s ≡ subset self.now.vertices self.now.members form) }
    {
        match (&self.members, form) {
            (Members::Listed(list), _) => {
                VertexSet::from_ascending(alloc, self.vertices, list, form)
            }
            (Members::Flagged(set), Form::Flags) => {
                let copy = set.copy(alloc)?;
                Ok(VertexSet::of(self.vertices, Members::Flagged(copy)))
            }
            (Members::Worded(set), Form::Bits) => {
                let copy = set.copy(alloc)?;
                Ok(VertexSet::of(self.vertices, Members::Worded(copy)))
            }
            _ => VertexSet::from_members(alloc, self.vertices, self.iter(), form),
        }
    }

    /// Makes a vertex a member. As flags and bits it takes constant time and no memory. As a list it
    /// takes constant time above all members, and else `O(k)` for k members. After an error the set is
    /// as it was.
    #[inline]
    pub fn insert(&mut self, vertex: u32) -> Result<(), AllocError>
        requires { vertex < self.old.vertices }
        ensures added { OnOk result (Adds vertex self.old self.new) }
        ensures err { OnErr result (self.new ≡ self.old) }
        ensures no_memory { ¬ (self.old.form ≡ Form.List) → IsOk result }
        ensures valid { IsVertexSet self.new }
    {
        match &mut self.members {
            Members::Listed(members) => list::insert(members, vertex),
            Members::Flagged(set) => {
                set.insert(vertex);
                Ok(())
            }
            Members::Worded(set) => {
                set.insert(vertex);
                Ok(())
            }
        }
    }

    /// Whether a vertex is a member; a number that is no vertex is none. As flags and bits it reads one
    /// index, and as a list it takes `O(log k)` for k members. It takes no memory.
    #[inline]
    pub fn contains(&self, vertex: u32) -> bool
        ensures { IsTrue result ↔ Contains self.now.members vertex }
    {
        match &self.members {
            Members::Listed(members) => list::contains(members, vertex),
            Members::Flagged(set) => set.contains(vertex),
            Members::Worded(set) => set.contains(vertex),
        }
    }

    /// How many members there are, in constant time. It takes no memory.
    #[inline]
    pub fn len(&self) -> usize
        ensures len { result ≡ length self.now.members }
        ensures bounded { result ≤ self.now.vertices }
        ensures valid { IsVertexSet self.now }
    {
        match &self.members {
            Members::Listed(members) => members.len(),
            Members::Flagged(set) => set.count,
            Members::Worded(set) => set.count,
        }
    }

    /// Whether there is no member, in constant time. It takes no memory.
    #[inline]
    pub fn is_empty(&self) -> bool
        ensures { IsTrue result ↔ (self.now.members ≡ []) }
    {
        self.len() == 0
    }

    /// How many vertices there are to choose from.
    #[inline]
    pub fn vertices(&self) -> u32
        ensures { result ≡ self.now.vertices }
    {
        self.vertices
    }

    /// The form in which the members are kept.
    #[inline]
    pub fn form(&self) -> Form
        ensures { result ≡ self.now.form }
    {
        match &self.members {
            Members::Listed(_) => Form::List,
            Members::Flagged(_) => Form::Flags,
            Members::Worded(_) => Form::Bits,
        }
    }

    /// The members, ascending. To go over them takes `O(k)` for k members as a list, `O(n)` for n
    /// vertices as flags, and `O(k + n / 64)` as bits. It takes no memory.
    #[inline]
    pub fn iter(&self) -> VertexIter<'_>
        ensures members { result ≡ self.now.members }
        ensures valid { IsVertexSet self.now }
    {
        // A proof knows the range of a number that is read.
        let _vertices = self.vertices;
        match &self.members {
            Members::Listed(members) => VertexIter::of_list(members),
            Members::Flagged(set) => VertexIter::of_flags(&set.flags),
            Members::Worded(set) => VertexIter::of_words(&set.words),
        }
    }

    /// The members, ascending, where the set is a list.
    #[inline]
    pub fn list(&self) -> Option<&[u32]>
        ensures form { IsSome result ↔ (self.now.form ≡ Form.List) }
        ensures members { IfSome result (λ list. list.now ≡ self.now.members) }
    {
        match &self.members {
            Members::Listed(members) => Some(members),
            Members::Flagged(_) | Members::Worded(_) => None,
        }
    }

    /// A flag for each vertex, true for a member, where the set is kept as flags.
    #[inline]
    pub fn flags(&self) -> Option<&[bool]>
        ensures form { IsSome result ↔ (self.now.form ≡ Form.Flags) }
        ensures members { IfSome result (λ flags. AreFlagsOf self.now flags.now) }
    {
        match &self.members {
            Members::Flagged(set) => Some(&set.flags),
            Members::Listed(_) | Members::Worded(_) => None,
        }
    }

    /// A bit for each vertex, set for a member, where the set is kept as bits: vertex v has bit v % 64
    /// of word v / 64.
    #[inline]
    pub fn words(&self) -> Option<&[u64]>
        ensures form { IsSome result ↔ (self.now.form ≡ Form.Bits) }
        ensures members { IfSome result (λ words. AreWordsOf self.now words.now) }
    {
        match &self.members {
            Members::Worded(set) => Some(&set.words),
            Members::Listed(_) | Members::Flagged(_) => None,
        }
    }
}
