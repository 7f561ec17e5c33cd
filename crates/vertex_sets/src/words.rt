//! A bit for each vertex.

ghost use Rattle.std.specs.Prelude.{◌≡◌, ◌↔◌, ℕ, ◌+◌, ◌*◌, ◌/◌, ◌^◌, ◌<◌, ◌≤◌, ◌⊎◌, ◌==◌, [], length, All, Contains, IfOk, IsTrue};
ghost use Rattle.std.specs.Int.{bit_at};
ghost use Rattle.vertex_sets.specs.VertexSet.{IsAscendingBelow, IsAnswer, all_vertices, word_count};
ghost use Rattle.vertex_sets.specs.inside.Words.{word_members};

use crate::iter::VertexIter;
use std::alloc::{AllocError, Global};

/// A bit for each vertex, set for a member, and the number of members. Vertex v has bit v % 64 of word
/// v / 64.
#[derive(Drop)]
pub(crate) struct WordSet {
    pub(crate) words: Vec<u64>,
    pub(crate) count: usize,
    ghost counted: { count ≡ length (word_members 0 words.items) },
}

/// How many words have a bit for each of n vertices.
fn word_count(vertices: u32) -> usize
    ensures { result ≡ word_count vertices }
{
    (vertices as usize + 63) / 64
}

impl WordSet {
    /// The set of no members.
    pub(crate) fn empty(alloc: Global, vertices: u32) -> Result<WordSet, AllocError>
        ensures vertices { IfOk result (λ s. length s.words.items ≡ word_count vertices) }
        ensures members { IfOk result (λ s. word_members 0 s.words.items ≡ []) }
    {
        let words = vec![in alloc; 0u64; word_count(vertices)]?;
        Ok(WordSet { words, count: 0 })
    }

    /// The set of all vertices.
    pub(crate) fn full(alloc: Global, vertices: u32) -> Result<WordSet, AllocError>
        ensures vertices { IfOk result (λ s. length s.words.items ≡ word_count vertices) }
        ensures members { IfOk result (λ s. word_members 0 s.words.items ≡ all_vertices vertices) }
    {
        let mut words = vec![in alloc; u64::MAX; word_count(vertices)]?;
        let beyond = vertices % 64;
        if beyond != 0 {
            words[vertices as usize / 64] = (1u64 << beyond) - 1;
        }
        Ok(WordSet {
            words,
            count: vertices as usize,
        })
    }

    /// The set of members that ascend.
    pub(crate) fn from_members(
        alloc: Global,
        vertices: u32,
        members: VertexIter<'_>,
    ) -> Result<WordSet, AllocError>
        requires { IsAscendingBelow vertices members }
        ensures vertices { IfOk result (λ s. length s.words.items ≡ word_count vertices) }
        ensures members { IfOk result (λ s. word_members 0 s.words.items ≡ members.entry) }
    {
        let mut set = WordSet::empty(alloc, vertices)?;
        for vertex in members {
            set.insert(vertex);
        }
        Ok(set)
    }

    /// The set of the vertices that pass a test.
    pub(crate) fn from_test<F: Fn(u32) -> bool>(
        alloc: Global,
        vertices: u32,
        test: &F,
    ) -> Result<WordSet, AllocError>
        requires { (v : ℕ) → v < vertices → F.pre test.now v }
        ensures vertices { IfOk result (λ s. length s.words.items ≡ word_count vertices) }
        ensures below { IfOk result (λ s. All (λ v. v < vertices) (word_members 0 s.words.items)) }
        ensures tested { IfOk result (λ s. (v : ℕ) → v < vertices
            → IsAnswer (F.post test.now) (word_members 0 s.words.items) v) }
    {
        let mut words = Vec::with_capacity(alloc, word_count(vertices))?;
        let mut count = 0usize;
        for index in 0..word_count(vertices) {
            let from = index as u32 * 64;
            let word = word_from_test(test, from, (vertices - from).min(64));
            words.push(word)?;
            count += word.count_ones() as usize;
        }
        Ok(WordSet { words, count })
    }

    /// A set of the same members.
    pub(crate) fn copy(&self, alloc: Global) -> Result<WordSet, AllocError>
        ensures { IfOk result (λ s. s.words.items ≡ self.now.words.items) }
    {
        Ok(WordSet {
            words: Vec::from_slice(alloc, &self.words)?,
            count: self.count,
        })
    }

    /// Whether a vertex is a member.
    #[inline]
    pub(crate) fn contains(&self, vertex: u32) -> bool
        ensures { IsTrue result ↔ Contains (word_members 0 self.now.words.items) vertex }
    {
        match self.words.get(vertex as usize / 64) {
            Some(word) => (word >> (vertex % 64)) & 1 == 1,
            None => false,
        }
    }

    /// Makes a vertex a member.
    #[inline]
    pub(crate) fn insert(&mut self, vertex: u32)
        requires within { vertex < 64 * length self.old.words.items }
        requires room { length self.old.words.items ≤ 2 ^ 26 }
        ensures vertices { length self.new.words.items ≡ length self.old.words.items }
        ensures added { (u : ℕ) → Contains (word_members 0 self.new.words.items) u
            ↔ ((u ≡ vertex) ⊎ Contains (word_members 0 self.old.words.items) u) }
    {
        let word = self.words[vertex as usize / 64];
        let bit = 1u64 << (vertex % 64);
        if word & bit == 0 {
            self.words[vertex as usize / 64] = word | bit;
            self.count += 1;
        }
    }
}

/// A word whose bit i says whether vertex `from` + i passes a test, for i below `count`, and that has no
/// other bit.
fn word_from_test<F: Fn(u32) -> bool>(test: &F, from: u32, count: u32) -> u64
    requires count { count ≤ 64 }
    requires vertices { from + count < 2 ^ 32 }
    requires callable { (i : ℕ) → i < count → F.pre test.now (from + i) }
    ensures tested { (i : ℕ) → i < count → F.post test.now (from + i) (bit_at result i == 1) }
    ensures others { (i : ℕ) → count ≤ i → bit_at result i ≡ 0 }
{
    let mut word = 0u64;
    for bit in 0..count {
        if test(from + bit) {
            word |= 1u64 << bit;
        }
    }
    word
}
