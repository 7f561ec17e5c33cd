//! Lowering: from a checked program and its schedule to a plan.
//!
//! [`lower`] makes the [`plans::Plan`] of a program under a schedule, as `plan_of` of the crate `plans` defines it, with kernels in
//! place of trees (`IsPlan`). Blocks become jumps: an instruction that continues after a block is put when the block is complete. Two
//! applies that the schedule fuses are one instruction where they fit (`fusing`). [`write`] writes a plan's text, which
//! `specs/Text.antt` defines (`text_of`).
//!
//! The compiler depends on this crate.
#![tactic(auto)]

mod blocks;
mod copies;
mod fusing;
mod leaves;
mod operations;
mod plan;
mod visible;
mod written_plan;

pub use plan::lower;
pub use written_plan::write;
