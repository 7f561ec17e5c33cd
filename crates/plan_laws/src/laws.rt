//! Laws of the plans of checked programs under accepted schedules. The calls do nothing.
ghost use Rattle.std.specs.Prelude.{◌≡◌, ℕ, Ok, Some};
ghost use Rattle.syntax.specs.SourceTrees.{SourceTree};
ghost use Rattle.typed_tree.specs.ProgramTree.{ProgramTree};
ghost use Rattle.types.specs.Program.{Checks};
ghost use Rattle.type_laws.specs.LoopVariables.{KeepsLoopVariables};
ghost use Rattle.apply_options.specs.ScheduleTree.{ScheduleTree, apply_schedule_of};
ghost use Rattle.apply_options.specs.declared.apply_schedule.Fused.TheVariants.{With};
ghost use Rattle.algorithm_meaning.specs.Meaning.{initial_state};
ghost use Rattle.algorithm_meaning.specs.State.{GraphValue};
ghost use Rattle.schedule.specs.Calls.{schedule_of};
ghost use Rattle.plans.specs.Machine.{first_configuration, steps};
ghost use Rattle.plans.specs.Plan.{plan_of};
ghost use Rattle.vectors.specs.Vectors.{IsGrouping};
ghost use Rattle.plan_laws.specs.LoopCounters.{CountersAreVariables};
ghost use Rattle.plan_laws.specs.OneInstruction.{IsOneInstruction};

/// The law that two statements which an accepted schedule of a checked program fuses are one instruction of the plan. The
/// two are right after each other in a block of `main`, and are edge applies between the same ends or vertex applies to
/// the same set. The plan has one instruction for both: it has the number of the first, goes by what the schedule says of the
/// first, and does the two applies together. No other instruction has the number of either.
pub fn fused_statements_are_one_instruction()
    ensures { (source : SourceTree) (length : ℕ) (program : ProgramTree) (schedule : ScheduleTree) → Checks source length (Ok program)
        → schedule_of program ≡ Ok schedule
        → (first second : ℕ) → (apply_schedule_of first schedule).fused ≡ Some (With second) → IsOneInstruction program schedule first second }
{}

/// The law that the groups of vectors of an accepted schedule fit, on every graph: each group names vectors of the program,
/// no vector is named twice, and the vectors of a group have as many entries as one another. So a run of the plan never
/// gives its groups up.
pub fn accepted_groups_fit()
    ensures { (program : ProgramTree) (schedule : ScheduleTree) → schedule_of program ≡ Ok schedule → (graph : GraphValue) (turns : ℕ)
        → IsGrouping (initial_state program graph turns).vectors schedule.groups }
{}

/// The law that the counters of `for` loops, by which the machine goes, are the variables that a plan's text names. In each
/// configuration that a run reaches, each loop around it has its next value in a variable and its bound in the variable
/// after it; and an instruction that tests or advances a loop names the innermost one's.
///
/// It holds for each checked program, and for each program with no statement that assigns a variable of a `for` around it.
pub fn loop_counters_are_variables()
    ensures checked { (source : SourceTree) (length : ℕ) (program : ProgramTree) (schedule : ScheduleTree) → Checks source length (Ok program)
        → (graph : GraphValue) (turns count : ℕ) → CountersAreVariables (plan_of program schedule)
        (steps program graph (plan_of program schedule) count (first_configuration (initial_state program graph turns))) }
    ensures keeping { (program : ProgramTree) (schedule : ScheduleTree) → KeepsLoopVariables program → (graph : GraphValue) (turns count : ℕ)
        → CountersAreVariables (plan_of program schedule)
        (steps program graph (plan_of program schedule) count (first_configuration (initial_state program graph turns))) }
{}
