//! Workers that do the pieces of some work, each in a thread of its own.
//!
//! [`run_pieces`] has the pieces 1 to n of a [`Work`] done by 1 to 64 workers, of whom the caller is the
//! first, and gives one [`Found`] for each piece, in the order of the pieces, with the work's answer for
//! its number. A contract sees a work as what it may answer for each piece, so the answer is the same
//! however the pieces fall to the workers. A worker keeps a state from piece to piece, so that it takes
//! its memory once; the states of all come back to the caller, for the next run.
//!
//! By [`PieceAssignment::Claimed`] the workers draw the indices of their pieces from one word, the claim word, by
//! steps of one kind, a `fetch_add` of 1. `specs/inside/ClaimWord.antt` has its rule: every number below the
//! word was claimed by one worker, once, and by no other. Each worker has a part of the rights to claim;
//! once all parts are back with the caller, it knows that no number was left out. By [`PieceAssignment::Fixed`]
//! the pieces go round the workers in turn.
//!
//! The starts go by halves, each half on a thread of its own, and where no thread can be started its half
//! is done by the thread that wanted it. What the workers found is put into the slots of the pieces
//! afterwards, in time `O(n)`. A [`Gate`] is called with each piece before it is done. [`WorkerCount`] is a number
//! of 1 to 64, and [`WorkerCount::worth`] says how many of them are worth their threads, if nobody watches the gate.
//!
//! [`Partition`] cuts a list of vertices into pieces, which are runs of it, one after the other, as a schedule says: one piece, one
//! for each worker, or four for each, of as many vertices or of as many vertices and edges. A contract sees it as the list of the
//! pieces' ends (`specs/Boundaries.antt`). Its laws say that the pieces are disjoint and make the whole list
//! ([`boundaries_cut_the_list`], [`pieces_make_the_list`]), that there is a piece for each worker
//! ([`static_pieces_are_those_of_workers`]), and where a piece of vertices and edges ends ([`edge_aware_pieces_end_at_the_limit`]). The
//! edge-aware way is GraphIt's (Zhang et al., OOPSLA 2018). It asks a [`DegreeList`] for the edges of whole runs of 64 vertices, and for
//! single degrees only where a piece ends.
//!
//! It is made for the engines, which do an apply in pieces.
#![tactic(auto)]

mod alone;
mod claim_word;
mod claimed;
mod degree_list;
mod edge_aware;
mod error;
mod fixed;
mod gate;
mod in_order;
mod partition;
mod partition_laws;
mod piece;
mod piece_assignment;
mod piece_results;
mod run;
mod work;
mod worker;
mod worker_count;
mod workers;

pub use degree_list::DegreeList;
pub use error::CrewError;
pub use gate::{Gate, Open};
pub use partition::Partition;
pub use partition_laws::{
    boundaries_cut_the_list, edge_aware_pieces_end_at_the_limit, pieces_make_the_list,
    static_pieces_are_those_of_workers, worked_partitions,
};
pub use piece_assignment::PieceAssignment;
pub use piece_results::Found;
pub use run::run_pieces;
pub use work::Work;
pub use worker_count::WorkerCount;
pub use workers::Workers;
