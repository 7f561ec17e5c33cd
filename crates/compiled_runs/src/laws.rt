//! Laws of texts, plans and outcomes, each the contract of a call that does nothing.
ghost use Rattle.std.specs.Prelude.{◌≡◌, ℕ, List, Ok};
ghost use Rattle.algorithm_meaning.specs.declared.outcome.Outcome as outcome;
ghost use Rattle.apply_options.specs.ScheduleTree.{ScheduleTree};
ghost use Rattle.compiler.specs.Outcome.{IsPlanOfText, IsTyped};
ghost use Rattle.flat_snapshot.specs.Digraph.{Digraph};
ghost use Rattle.parser.specs.SourceTrees.{SourceTree};
ghost use Rattle.plans.specs.declared.plan.Plan as plan;
ghost use Rattle.plans.specs.PlanOf.{IsCompiled, IsPlan, program_of};
ghost use Rattle.snapshot_runs.specs.Outcome.{IsOutcomeOn};
ghost use Rattle.compiled_runs.specs.Outcome.{IsMeaningOf};
ghost use Rattle.typed_tree.specs.ProgramTree.{ProgramTree};
ghost use Rattle.types.specs.Program.{Checks};

/// The law that an outcome of the plan of a text is what the text means. The call does nothing.
pub fn plans_show_what_their_texts_mean()
    ensures { (text : List ℕ) (p : plan.Plan) (graph : Digraph) (turns : ℕ) (o : outcome.Outcome) → IsPlanOfText text p
        → IsOutcomeOn p graph turns o → IsMeaningOf text graph turns o }
{}

/// The law that a text is one program, and so means one outcome on a graph within a bound of turns. The call does nothing.
pub fn texts_mean_one_thing()
    ensures program { (text : List ℕ) (p q : ProgramTree) → IsTyped text p → IsTyped text q → p ≡ q }
    ensures outcome { (text : List ℕ) (graph : Digraph) (turns : ℕ) (o other : outcome.Outcome) → IsMeaningOf text graph turns o
        → IsMeaningOf text graph turns other → o ≡ other }
{}

/// The law that a plan of a checked program, from whatever text and under any schedule, is one for which an outcome is promised.
/// The call does nothing.
pub fn plans_of_checked_programs_are_compiled()
    ensures { (source : SourceTree) (length : ℕ) (p : plan.Plan) (schedule : ScheduleTree) → Checks source length (Ok (program_of p))
        → IsPlan p (program_of p) schedule → IsCompiled p }
{}
