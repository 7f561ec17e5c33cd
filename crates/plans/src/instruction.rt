//! Instructions: what a plan is a list of.
use crate::operation::PlanOperation;
use algorithm_meaning::Depth;
use apply_options::ApplySchedule;

/// One step of a run.
pub struct Instruction {
    /// The number of the statement of `main` that it came from.
    pub number: u64,
    /// What stays visible: a step first forgets what is beyond it.
    pub keep: Depth,
    /// What a run shows that ends here.
    pub shown: Depth,
    /// What the schedule says of it, which decides only how an edge apply is done.
    pub apply_schedule: ApplySchedule,
    pub operation: PlanOperation,
    /// Its words, each with a space after it, without its number and without the index that it goes to.
    pub words: Vec<u8>,
}

impl Drop for Instruction {
    fn drop(self) {
        let Instruction {
            number: _,
            keep: _,
            shown: _,
            apply_schedule: _,
            operation: _,
            words: _,
        } = self;
    }
}
