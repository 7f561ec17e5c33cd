//! One program that was compiled.
ghost use Rattle.std.specs.Arc.{arc_value};
ghost use Rattle.plans.specs.PlanOf.{IsCompiled};

use plans::Plan;
use std::sync::Arc;

/// The plan of a program that was compiled.
pub(crate) struct CompiledPlan {
    pub(crate) plan: Arc<Plan>,
    ghost compiled: { ∥ IsCompiled (arc_value plan) ∥₁ },
}

// By hand: a derived drop would be written out, and proved again, in each function that lets one go.
impl Drop for CompiledPlan {
    fn drop(self) {
        let CompiledPlan { plan: _ } = self;
    }
}
