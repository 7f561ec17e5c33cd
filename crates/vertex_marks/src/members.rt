//! The marked vertices, listed and dropped.
ghost use Rattle.std.specs.Prelude.{◌≡◌, ◌≢◌, ◌↔◌, ℕ, ◌+◌, ◌*◌, ◌^◌, ◌≤◌, ◌++◌, true, false, length, slice_index, Contains, IfOk, OnOk};
ghost use Rattle.std.specs.List.Sorted.{IsStrictlyIncreasing};
ghost use Rattle.vertex_sets.specs.inside.Words.{bit_members, word_members};
ghost use Rattle.vertex_marks.specs.Marks.{is_marked, room};
ghost use Rattle.vertex_marks.specs.inside.Named.{named_members};

use crate::vertex_marks::VertexMarks;
use std::alloc::{AllocError, Global};

impl VertexMarks {
    /// The marked vertices, ascending. It takes time in proportion to their number and to one word for each 4,096
    /// vertices for which there is room. The only error is out of memory.
    pub fn members(&self, alloc: Global) -> Result<Vec<u32>, AllocError>
        ensures ascending { IfOk result (λ found. IsStrictlyIncreasing found.items) }
        ensures marked { IfOk result (λ found. (v : ℕ) → Contains found.items v ↔ (is_marked self.now v ≡ true)) }
    {
        let mut found = Vec::new(alloc);
        'sums: for position in 0..self.summary.len() {
            push_named(
                &self.words,
                64 * position as u32,
                self.summary[position],
                &mut found,
            )?;
        }
        Ok(found)
    }

    /// Unmarks all vertices. It takes time in proportion to the number of marked ones and to one word for each 4,096
    /// vertices for which there is room, which stays.
    pub fn clear(&mut self)
        ensures marks { (v : ℕ) → is_marked self.new v ≡ false }
        ensures room { room self.new ≡ room self.old }
    {
        let words = self.words.as_mut_slice();
        'sums: for position in 0..self.summary.len() {
            clear_named(words, 64 * position, self.summary[position]);
        }
        self.summary.fill(0);
    }
}

/// Adds the vertices of the bits that are set in the words that a word of a summary names: bit i names the word at
/// index `first` + i.
fn push_named(
    words: &[u64],
    first: u32,
    summary: u64,
    found: &mut Vec<u32>,
) -> Result<(), AllocError>
    requires few { 64 * length words.now ≤ 2 ^ 32 }
    requires index { first + 64 ≤ 2 ^ 32 }
    ensures { OnOk result (found.new.items ≡ found.old.items ++ named_members words.now (bit_members 64 first summary)) }
{
    let mut left = summary;
    'words: while left != 0 {
        let index = first + left.trailing_zeros();
        if let Some(word) = words.get(index as usize) {
            push_bits(*word, 64 * index, found)?;
        }
        left &= left - 1;
    }
    Ok(())
}

/// Adds the vertices of the bits that are set in a word, of which the lowest is that of vertex `low`.
#[inline]
fn push_bits(word: u64, low: u32, found: &mut Vec<u32>) -> Result<(), AllocError>
    requires { low + 64 ≤ 2 ^ 32 }
    ensures { OnOk result (found.new.items ≡ found.old.items ++ bit_members 64 low word) }
{
    let mut left = word;
    'bits: while left != 0 {
        found.push(low + left.trailing_zeros())?;
        left &= left - 1;
    }
    Ok(())
}

/// Sets the words to 0 that a word of a summary names: bit i names the word at index `first` + i.
fn clear_named(words: &mut [u64], first: usize, summary: u64)
    requires { first + 64 ≤ 2 ^ 32 }
    ensures len { length words.new ≡ length words.old }
    ensures stay { (index : ℕ) → slice_index words.new index ≢ 0 → slice_index words.old index ≢ 0 }
    ensures clear { (index : ℕ) → Contains (bit_members 64 first summary) index → slice_index words.new index ≡ 0 }
{
    let mut left = summary;
    'words: while left != 0 {
        let index = first + left.trailing_zeros() as usize;
        if index < words.len() {
            words[index] = 0;
        }
        left &= left - 1;
    }
}
