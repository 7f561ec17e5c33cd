//! Register code: user functions and expressions of `main` as flat code, made once from the checked tree.
//!
//! A [`RegisterInstruction`] works on registers, each known by its number when the code is made, so that
//! no instruction pushes or pops. No name is in code: vectors, vertex sets and variables go by their indices. What stands
//! under an `if` is done always, and counts where the test's register is true.
//!
//! `specs/Registers.antt` says what an instruction does to the registers (`step`, `run`), and what code that writes entries leaves
//! (`after`). `specs/Meaning.antt` says what the code of a tree is, for every tree, also one that no type checker would pass, and
//! when code is that of a function, by the definitions of `algorithm_meaning`. The calls here promise it:
//!
//! - [`code_of_edge_function`]: on each edge the code gives what the function gives (`IsEdgeCode`).
//! - [`code_of_filter`]: its result is the filter's (`IsFilterCode`).
//! - [`code_of_vertex_function`]: it writes what the function writes (`IsVertexCode`).
//! - [`code_of_integer`] and [`code_of_condition`]: the code of an expression, whose run leaves its value in the first
//!   register (`integer_runs` and `condition_runs` in `proofs/Runs.antt`).
//!
//! [`room_of`] and [`with_gives`] tell how many registers code needs. The kernels run code, over blocks, and depend on this
//! crate.
#![tactic(auto)]

mod compile;
mod compile_function;
mod compile_vertex;
mod instruction;
mod needs;
mod register_counts;

pub use compile::{Frame, code_of_condition, code_of_integer};
pub use compile_function::{FunctionCode, code_of_edge_function, code_of_filter, reads_weight};
pub use compile_vertex::{code_of_vertex_function, reads_elsewhere};
pub use instruction::{ContributionCode, RegisterInstruction};
pub use needs::{room_of, with_gives};
pub use register_counts::RegisterCounts;
