//! Marks: a set of vertices that is small beside the graph, and is emptied and filled again and again.
//!
//! [`VertexMarks`] has a bit for each vertex, and above each 64 words of bits a word of a summary, whose bits say
//! which of these words have any bit set. A contract sees it as a test, `is_marked`, and the number of vertices for
//! which there is room. Marking and asking take constant time. Emptying it, and listing the marked vertices in
//! ascending order, take time in proportion to their number and to one word for each 4,096 vertices, so that ten
//! marks of ten million vertices cost little more than ten.
//!
//! It is made for the accumulators of the engines. Bits with a summary are the two-level bitmaps of van Emde Boas
//! trees (van Emde Boas, 1977), cut off at two levels.
#![tactic(auto)]

mod marking;
mod members;
mod vertex_marks;

pub use vertex_marks::VertexMarks;
