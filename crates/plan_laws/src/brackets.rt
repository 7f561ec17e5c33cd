//! Laws of expressions in brackets, each the contract of a call that does nothing.
ghost use Rattle.std.specs.Prelude.{◌≡◌, List, [], ◌∷◌, pos, slice_index_or};
ghost use Rattle.std.specs.Option.{option_map};
ghost use Rattle.apply_options.specs.declared.apply_schedule.ApplySchedule as schedule;
ghost use Rattle.apply_options.specs.declared.reduction.Reduction as reduction;
ghost use Rattle.typed_tree.specs.declared.expression.VarRef as slot;
ghost use Rattle.typed_tree.specs.IntExpressionTree.{IntExpressionTree};
ghost use Rattle.typed_tree.specs.BoolExpressionTree.{BoolExpressionTree};
ghost use Rattle.typed_tree.specs.BlockTree.{ReduceInt};
ghost use Rattle.typed_tree.specs.ProgramTree.{ProgramTree};
ghost use Rattle.algorithm_meaning.specs.declared.state.LoopCounter as counter;
ghost use Rattle.algorithm_meaning.specs.Arithmetic.{reduced};
ghost use Rattle.algorithm_meaning.specs.State.{StateValue};
ghost use Rattle.algorithm_meaning.specs.Stand.{bool_value_in, int_value_in};
ghost use Rattle.plans.specs.Instruction.{InstructionTree};
ghost use Rattle.plan_text.specs.Expressions.{condition_words, integer_words, program_name_at, bracketed};
ghost use Rattle.plan_text.specs.Lines.{statement_words};
ghost use Rattle.plan_laws.specs.Machine.{Number, Truth, Names};
ghost use Rattle.plan_laws.specs.Given.{ConditionIsGiven, IntegerIsGiven, IsNamed};
ghost use Rattle.plan_laws.specs.Brackets.{HasNamesOfOneWord, read_brackets, read_reduction};
ghost use Rattle.plan_laws.specs.Kinds.{instruction_words};
ghost use Rattle.plan_laws.specs.Values.{OperationIsGiven, values_in, values_of};

/// The law that the text of an expression in brackets, cut at its spaces and read from left to right, gives the one value
/// that the expression has in the state, and none where it has none. The call does nothing.
pub fn brackets_are_read_by_hand()
    ensures integers { (p : ProgramTree) (names : Names) (s : StateValue) (e : IntExpressionTree) → HasNamesOfOneWord p → IntegerIsGiven p names s e
        → read_brackets names (bracketed (integer_words p e)) ≡ option_map (λ n. Number n ∷ []) (int_value_in names.vertices e s) }
    ensures conditions { (p : ProgramTree) (names : Names) (s : StateValue) (c : BoolExpressionTree) → HasNamesOfOneWord p → ConditionIsGiven p names s c
        → read_brackets names (bracketed (condition_words p c)) ≡ option_map (λ b. Truth b ∷ []) (bool_value_in names.vertices c s) }
{}

/// The law that the brackets of an instruction, read so, have the values that the instruction takes: a number or a truth
/// value that is set or printed, an index, a test; and of a `for` its bound, whether its name is below that, and its next
/// number. The call does nothing.
pub fn instructions_have_their_values()
    ensures { (p : ProgramTree) (names : Names) (r : counter.LoopCounter) (s : StateValue) (i : InstructionTree) → HasNamesOfOneWord p
        → OperationIsGiven p names r s i.operation → values_in names (instruction_words p i) ≡ values_of names.vertices r s i.operation }
{}

/// The law that `set x [x e min]`, of which the last word is that of a reduction and the others are read from left to right,
/// has the value of `x` reduced with that of `e`. The call does nothing.
pub fn reductions_are_read_by_hand()
    ensures { (p : ProgramTree) (names : Names) (s : StateValue) (x : slot.VarRef) (r : reduction.Reduction) (e : IntExpressionTree) (apply_schedule : schedule.ApplySchedule)
        → HasNamesOfOneWord p → IsNamed names (program_name_at p x.name) (Number (slice_index_or s.scope.integers x.index (pos 0)))
        → IntegerIsGiven p names s e
        → read_reduction names (slice_index_or (statement_words p (ReduceInt x r e) apply_schedule) 2 [])
        ≡ option_map (λ n. reduced r (slice_index_or s.scope.integers x.index (pos 0)) n) (int_value_in names.vertices e s) }
{}
