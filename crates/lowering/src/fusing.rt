//! Fusing: which two applies of a program are done together.
//!
//! Two applies that stand one after the other, and that the schedule fuses, are done together where they fit. Two edge
//! applies fit if they have the same ends and neither can see what the other does; two vertex applies fit if they are to
//! the same set and their functions read and write the entries of their own vertex alone. `plans/specs/Fusing.antt`
//! defines it (`together`, `fusion_role_of`). [`pair_at`] decides it for a statement of a block under a schedule.
//!
//! The time is in proportion to the two functions and the filters of the ends, and for two edge applies to the product of
//! what the one writes and the other reads.

mod accesses;
mod applies;
mod fits;
mod pair;

pub(crate) use applies::edge_apply_of;
pub(crate) use pair::pair_at;
