//! Laws of the texts of outcomes, each the contract of a call that does nothing.
ghost use Rattle.std.specs.Prelude.{◌≡◌, ℕ};
ghost use Rattle.typed_tree.specs.ProgramTree.{ProgramTree};
ghost use Rattle.algorithm_meaning.specs.declared.outcome.Outcome as outcome;
ghost use Rattle.algorithm_meaning.specs.State.{GraphValue};
ghost use Rattle.algorithm_meaning.specs.Meaning.{meaning};
ghost use Rattle.replies.specs.ReplyText.{outcome_text};
ghost use Rattle.script_laws.specs.Shown.{HasNumbers, IsOutcome};

/// The law that the text of an outcome determines it: its end, its turns, its vectors and sets with their names, and what was
/// printed. The call does nothing.
pub fn texts_determine_their_outcomes()
    ensures { (a b : outcome.Outcome) → IsOutcome a → IsOutcome b → outcome_text a ≡ outcome_text b → a ≡ b }
{}

/// The law that runs whose texts are the same show the same, whatever their programs, graphs and bounds of turns: what they
/// print needs no premise. The call does nothing.
pub fn texts_determine_what_runs_show()
    ensures { (p q : ProgramTree) (g h : GraphValue) (turns more : ℕ) → HasNumbers (meaning p g turns) → HasNumbers (meaning q h more)
        → outcome_text (meaning p g turns) ≡ outcome_text (meaning q h more) → meaning p g turns ≡ meaning q h more }
{}
