//! A flag for each vertex.

ghost use Rattle.std.specs.Prelude.{◌≡◌, ◌↔◌, ℕ, ◌<◌, ◌⊎◌, ◌^◌, [], length, Contains, IfOk, IsTrue};
ghost use Rattle.vertex_sets.specs.VertexSet.{IsAscendingBelow, IsAnswer, all_vertices};
ghost use Rattle.vertex_sets.specs.inside.Words.{flag_members};

use crate::iter::VertexIter;
use std::alloc::{AllocError, Global};

/// A flag for each vertex, true for a member, and the number of members.
#[derive(Drop)]
pub(crate) struct FlagSet {
    pub(crate) flags: Vec<bool>,
    pub(crate) count: usize,
    ghost counted: { count ≡ length (flag_members 0 flags.items) },
}

impl FlagSet {
    /// The set of no members.
    pub(crate) fn empty(alloc: Global, vertices: u32) -> Result<FlagSet, AllocError>
        ensures vertices { IfOk result (λ s. length s.flags.items ≡ vertices) }
        ensures members { IfOk result (λ s. flag_members 0 s.flags.items ≡ []) }
    {
        let flags = vec![in alloc; false; vertices as usize]?;
        Ok(FlagSet { flags, count: 0 })
    }

    /// The set of all vertices.
    pub(crate) fn full(alloc: Global, vertices: u32) -> Result<FlagSet, AllocError>
        ensures vertices { IfOk result (λ s. length s.flags.items ≡ vertices) }
        ensures members { IfOk result (λ s. flag_members 0 s.flags.items ≡ all_vertices vertices) }
    {
        let flags = vec![in alloc; true; vertices as usize]?;
        Ok(FlagSet {
            flags,
            count: vertices as usize,
        })
    }

    /// The set of members that ascend.
    pub(crate) fn from_members(
        alloc: Global,
        vertices: u32,
        members: VertexIter<'_>,
    ) -> Result<FlagSet, AllocError>
        requires { IsAscendingBelow vertices members }
        ensures vertices { IfOk result (λ s. length s.flags.items ≡ vertices) }
        ensures members { IfOk result (λ s. flag_members 0 s.flags.items ≡ members.entry) }
    {
        let mut set = FlagSet::empty(alloc, vertices)?;
        for vertex in members {
            set.insert(vertex);
        }
        Ok(set)
    }

    /// The set of the vertices that pass a test.
    pub(crate) fn from_test<F: Fn(u32) -> bool>(
        alloc: Global,
        vertices: u32,
        test: &F,
    ) -> Result<FlagSet, AllocError>
        requires { (v : ℕ) → v < vertices → F.pre test.now v }
        ensures vertices { IfOk result (λ s. length s.flags.items ≡ vertices) }
        ensures tested { IfOk result (λ s. (v : ℕ) → v < vertices
            → IsAnswer (F.post test.now) (flag_members 0 s.flags.items) v) }
    {
        let mut flags = Vec::with_capacity(alloc, vertices as usize)?;
        let mut count = 0usize;
        for vertex in 0..vertices {
            let passes = test(vertex);
            flags.push(passes)?;
            if passes {
                count += 1;
            }
        }
        Ok(FlagSet { flags, count })
    }

    /// A set of the same members.
    pub(crate) fn copy(&self, alloc: Global) -> Result<FlagSet, AllocError>
        ensures { IfOk result (λ s. s.flags.items ≡ self.now.flags.items) }
    {
        Ok(FlagSet {
            flags: Vec::from_slice(alloc, &self.flags)?,
            count: self.count,
        })
    }

    /// Whether a vertex is a member.
    #[inline]
    pub(crate) fn contains(&self, vertex: u32) -> bool
        ensures { IsTrue result ↔ Contains (flag_members 0 self.now.flags.items) vertex }
    {
        match self.flags.get(vertex as usize) {
            Some(flag) => *flag,
            None => false,
        }
    }

    /// Makes a vertex a member.
    #[inline]
    pub(crate) fn insert(&mut self, vertex: u32)
        requires within { vertex < length self.old.flags.items }
        requires room { length self.old.flags.items < 2 ^ 32 }
        ensures vertices { length self.new.flags.items ≡ length self.old.flags.items }
        ensures added { (u : ℕ) → Contains (flag_members 0 self.new.flags.items) u
            ↔ ((u ≡ vertex) ⊎ Contains (flag_members 0 self.old.flags.items) u) }
    {
        if !self.flags[vertex as usize] {
            self.flags[vertex as usize] = true;
            self.count += 1;
        }
    }
}
