//! Laws of plans. The calls do nothing.
ghost use Rattle.std.specs.Prelude.{ℕ};
ghost use Rattle.typed_tree.specs.declared.expression.VarRef.{VarRef};
ghost use Rattle.typed_tree.specs.declared.statement.ApplyEnds.{ApplyEnds};
ghost use Rattle.typed_tree.specs.BoolExpressionTree.{BoolExpressionTree};
ghost use Rattle.typed_tree.specs.IntExpressionTree.{IntExpressionTree};
ghost use Rattle.typed_tree.specs.ProgramTree.{ProgramTree};
ghost use Rattle.algorithm_meaning.specs.State.{GraphValue};
ghost use Rattle.apply_options.specs.ScheduleTree.{ScheduleTree};
ghost use Rattle.plans.specs.ApplySchedules.{GoBySchedule};
ghost use Rattle.plans.specs.Examples.{HasPlanOfApartEdges, HasPlanOfEdgePair, HasPlanOfLoop, HasPlanOfModifyingPair, HasPlanOfSearch, HasPlanOfVertexPair};
ghost use Rattle.plans.specs.Fused.{FusedFit};
ghost use Rattle.plans.specs.RunLaws.{RunsAs, StepsLowerTheBound};
ghost use Rattle.plans.specs.Plan.{plan_of};

/// For every program, schedule, graph and bound of turns the plan does what the program does: run from the initial
/// state it ends after some number of steps, and there it has the state and the end of the program's own run and
/// shows what the program means. Before that it always has a next step: it is at an instruction of the plan. The
/// number of steps is no more than `most_steps` says, about twice the plan's length for each turn and once more.
pub fn plans_do_what_programs_do()
    ensures { (p : ProgramTree) (s : ScheduleTree) (g : GraphValue) (turns : ℕ) → RunsAs p g turns (plan_of p s) }
{}

/// Each step of a plan, from wherever it is taken, lowers the bound on the steps that are left. A loop that takes steps
/// as long as there are some ends by it.
pub fn steps_lower_their_bound()
    ensures { (p : ProgramTree) (s : ScheduleTree) (g : GraphValue) → StepsLowerTheBound p g (plan_of p s) }
{}

/// Each edge apply of a plan is that of a statement of `main`, has its number and goes by what the schedule says of its
/// label. Two that are done together go by what the schedule says of the first.
pub fn edge_applies_go_by_the_schedule()
    ensures { (p : ProgramTree) (s : ScheduleTree) → GoBySchedule p.main s (plan_of p s) }
{}

/// Two edge functions that a plan applies together write no vector both. Of two vertex functions that it applies
/// together, at vertices that ascend, it is one whether both run at each vertex, or the first at all and then the second.
pub fn fused_applies_fit()
    ensures { (p : ProgramTree) (s : ScheduleTree) → FusedFit p (plan_of p s) }
{}

/// Plans of examples, instruction by instruction: a breadth-first search, a loop with a choice in it and another after
/// it, pairs of vertex applies, of edge applies and of edge applies with results that the schedule fuses, and two edge
/// applies that cannot be done together.
pub fn examples_have_their_plans()
    ensures search { (p : ProgramTree) (s : ScheduleTree) (frontier : VarRef) (ends : ApplyEnds) (visit parent : ℕ)
        → HasPlanOfSearch p s frontier ends visit parent }
    ensures loop_with_choice { (p : ProgramTree) (s : ScheduleTree) (i : ℕ) (first end : IntExpressionTree) (c : BoolExpressionTree) (e f : IntExpressionTree)
        → HasPlanOfLoop p s i first end c e f }
    ensures vertex_pair { (p : ProgramTree) (name : ℕ) → HasPlanOfVertexPair p name }
    ensures edge_pair { (p : ProgramTree) → HasPlanOfEdgePair p }
    ensures modifying_pair { (p : ProgramTree) (m n : ℕ) → HasPlanOfModifyingPair p m n }
    ensures apart { (p : ProgramTree) → HasPlanOfApartEdges p }
{}
