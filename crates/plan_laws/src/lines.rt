//! Laws of the lines of plans, each the contract of a call that does nothing.
ghost use Rattle.std.specs.Prelude.{◌≡◌, ℕ, ◌∷◌, decimal, false};
ghost use Rattle.apply_options.specs.ScheduleTree.{ScheduleTree};
ghost use Rattle.typed_tree.specs.ProgramTree.{ProgramTree};
ghost use Rattle.plans.specs.Instruction.{InstructionTree};
ghost use Rattle.plan_text.specs.Expressions.{spaced_words};
ghost use Rattle.lowering.specs.Text.{text_of};
ghost use Rattle.plan_laws.specs.Kinds.{instruction_words};
ghost use Rattle.plan_laws.specs.Lines.{HasBareNames, words_of_line, words_of_lines, words_of_plan};

/// The law that a line, cut at each space that is in no brackets, is the number of an instruction and its words. The call
/// does nothing.
pub fn lines_are_cut_into_words()
    ensures { (p : ProgramTree) (number : ℕ) (i : InstructionTree) → HasBareNames p
        → words_of_line false (spaced_words (decimal number ∷ instruction_words p i)) ≡ decimal number ∷ instruction_words p i }
{}

/// The law that the text of a plan, cut into lines and these into words, is the words of each group of vectors, and then of
/// each instruction of the plan its number, from 0, and its words. The call does nothing.
pub fn texts_are_cut_into_instructions()
    ensures { (p : ProgramTree) (s : ScheduleTree) → HasBareNames p → words_of_lines (text_of p s) ≡ words_of_plan p s }
{}
