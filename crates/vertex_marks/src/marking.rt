//! Vertices that are marked.
ghost use Rattle.std.specs.Prelude.{◌≡◌, ℕ, ◌*◌, ◌^◌, ◌<◌, ◌≤◌, ◌==◌, ◌||◌, false, length, nat_lt, slice_index, vec_len, OnOk};
ghost use Rattle.vertex_marks.specs.Marks.{is_marked, room};

use crate::vertex_marks::VertexMarks;
use std::alloc::{AllocError, Global};

impl VertexMarks {
    /// No mark, and room for no vertex.
    pub fn new(alloc: Global) -> VertexMarks
        ensures marks { (v : ℕ) → is_marked result v ≡ false }
        ensures room { room result ≡ 0 }
    {
        VertexMarks {
            words: Vec::new(alloc),
            summary: Vec::new(alloc),
        }
    }

    /// Makes room for n vertices, at most 2^32, where it is not there: for whole words of 64. It takes time in
    /// proportion to what is missing.
    ///
    /// The only error is out of memory. The marks stay, after an error too.
    pub fn make_room(&mut self, vertices: usize) -> Result<(), AllocError>
        requires { vertices ≤ 2 ^ 32 }
        ensures marks { (v : ℕ) → is_marked self.new v ≡ is_marked self.old v }
        ensures longer { room self.old ≤ room self.new }
        ensures room { OnOk result (vertices ≤ room self.new) }
        ensures most { (n : ℕ) → room self.old ≤ 64 * n → vertices ≤ 64 * n → room self.new ≤ 64 * n }
    {
        let words = (vertices + 63) / 64;
        lengthen(&mut self.summary, (words + 63) / 64)?;
        lengthen(&mut self.words, words)?;
        Ok(())
    }

    /// For how many vertices there is room.
    #[inline(always)]
    pub fn room(&self) -> usize
        ensures { result ≡ room self.now }
    {
        64 * self.words.len()
    }

    /// Whether a vertex is marked.
    #[inline(always)]
    pub fn contains(&self, vertex: u32) -> bool
        ensures { result ≡ is_marked self.now vertex }
    {
        match self.words.get(vertex as usize / 64) {
            Some(word) => (word >> (vertex % 64)) & 1 == 1,
            None => false,
        }
    }

    /// Marks a vertex for which there is room.
    #[inline(always)]
    pub fn insert(&mut self, vertex: u32)
        requires { vertex < room self.old }
        ensures marks { (v : ℕ) → is_marked self.new v ≡ (vertex == v) || is_marked self.old v }
        ensures room { room self.new ≡ room self.old }
    {
        let index = vertex as usize / 64;
        let word = self.words[index] | 1u64 << (vertex % 64);
        let sum = self.summary[index / 64] | 1u64 << (index % 64);
        self.words[index] = word;
        self.summary[index / 64] = sum;
    }

    /// Marks all vertices of the first blocks of 64, for which there is room. It takes time in proportion to the room: a
    /// word for each 64 vertices.
    pub fn insert_blocks(&mut self, blocks: usize)
        requires { 64 * blocks ≤ room self.old }
        ensures marks { (v : ℕ) → is_marked self.new v ≡ nat_lt v (64 * blocks) || is_marked self.old v }
        ensures room { room self.new ≡ room self.old }
    {
        let sums = self.summary.len();
        set_all(&mut self.summary, sums);
        set_all(&mut self.words, blocks);
    }
}

/// Sets all bits of the first words, as many as this.
fn set_all(words: &mut Vec<u64>, count: usize)
    requires { count ≤ vec_len words.old }
    ensures first { (k : ℕ) → k < count → slice_index words.new.items k ≡ 18446744073709551615 }
    ensures others { (k : ℕ) → count ≤ k → slice_index words.new.items k ≡ slice_index words.old.items k }
    ensures len { vec_len words.new ≡ vec_len words.old }
{
    'words: for index in 0..count {
        words[index] = u64::MAX;
    }
}

/// Adds words without a bit where there are fewer than this.
fn lengthen(words: &mut Vec<u64>, count: usize) -> Result<(), AllocError>
    ensures same { (k : ℕ) → slice_index words.new.items k ≡ slice_index words.old.items k }
    ensures longer { length words.old.items ≤ length words.new.items }
    ensures most { (n : ℕ) → length words.old.items ≤ n → count ≤ n → length words.new.items ≤ n }
    ensures enough { OnOk result (count ≤ length words.new.items) }
{
    if words.len() < count {
        words.resize(count, 0)?;
    }
    Ok(())
}
