//! Plans: what programs are lowered to, as definitions, and the law that a plan does what its program does.
//!
//! A plan is a list of instructions, one for each step of a run. An instruction does a statement without a block, goes
//! on at another index, or does two applies that the schedule fuses (`specs/Instruction.antt`). `specs/Plan.antt` has the
//! plan of a program under a schedule, `specs/Fusing.antt` which two applies are done together, and
//! `specs/Machine.antt` the machine that runs a plan, one instruction a step.
//!
//! The law (`specs/RunLaws.antt`): for every program, schedule, graph and bound of turns the machine ends after some number
//! of steps, and there it is where the program's own run stands and shows what the program means; before that it
//! always has a next step. `specs/Bound.antt` has a bound on the steps that are left, which each step lowers: the measure
//! of a loop that runs a plan. The law needs no premise, neither that the program is checked nor that the schedule is accepted:
//! two applies are done together only where they fit, a `for` keeps its value and its bound beside the variables, and
//! what is outside a list reads as 0 or as nothing, as in the meaning. `specs/ApplySchedules.antt` says by what the edge applies of
//! a plan go, `specs/Fused.antt` what holds of two applies that are done together, and `specs/Examples.antt` has plans whole.
//! `specs/Reducing.antt` says what an engine needs of edge applies: each vector gets numbers by one reduction.
//!
//! The crate has the types of plans, their definitions, and the kernels of functions. `lowering` makes plans, `runner` runs
//! them. The simulation in the proofs goes by the tree, as that of a compiler to a machine with jumps
//! (Leroy, "Formal verification of a realistic compiler", CACM 2009).
#![tactic(auto)]

mod functions;
mod instruction;
mod kernels_at;
mod laws;
mod operation;
mod part;
mod plan;
mod set_expression;

pub use functions::FunctionKernels;
pub use instruction::Instruction;
pub use kernels_at::{Kernel, Kernels};
pub use laws::{
    edge_applies_go_by_the_schedule, examples_have_their_plans, fused_applies_fit,
    plans_do_what_programs_do, steps_lower_their_bound,
};
pub use operation::{
    ApplyOperation, BoolUse, ControlOperation, EntryOperation, EntryUse, IntUse, PlanOperation,
    SetOperation, ValueOperation,
};
pub use part::{EdgeApply, EdgePart, FusedPair, PartResult, VertexApply};
pub use plan::Plan;
pub use set_expression::SetExpression;
