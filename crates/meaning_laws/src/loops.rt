//! Laws of loops and of turns, each the contract of a call that does nothing.
ghost use Rattle.std.specs.Prelude.{◌≡◌, ◌≢◌, ◌≤◌, ℕ, int_lt};
ghost use Rattle.typed_tree.specs.BoolExpressionTree.{BoolExpressionTree};
ghost use Rattle.typed_tree.specs.BlockTree.{BlockTree, While};
ghost use Rattle.typed_tree.specs.ProgramTree.{ProgramTree};
ghost use Rattle.algorithm_meaning.specs.declared.outcome.End.TheVariants.{TurnsOver};
ghost use Rattle.algorithm_meaning.specs.declared.state.LoopCounter as counter;
ghost use Rattle.algorithm_meaning.specs.State.{GraphValue, StateValue};
ghost use Rattle.algorithm_meaning.specs.Stand.{Live, bool_value_in, choose, then_do, with_value};
ghost use Rattle.algorithm_meaning.specs.Loop.{after_for, after_while, for_body, for_test, inside, loop, next_of, take_turn, while_body, while_test};
ghost use Rattle.algorithm_meaning.specs.Meaning.{after, after_all, meaning};

/// The law that a `while` is its test, and where that holds a turn, the body and the `while` again; and that a `for` is the
/// same with its name at the next number. The call does nothing.
pub fn loops_are_unrolled()
    ensures while_loops { (p : ProgramTree) (g : GraphValue) (number : ℕ) (c : BoolExpressionTree) (body : BlockTree) (s : StateValue)
        → after p g number (While c body) s
        ≡ with_value (bool_value_in g.vertices c s) number s (λ b. choose b
        (take_turn s.turns s (λ t. then_do (inside (after_all p g body) t) (after p g number (While c body)))) (Live s)) }
    ensures for_loops { (p : ProgramTree) (g : GraphValue) (number : ℕ) (body : BlockTree) (r : counter.LoopCounter) (s : StateValue)
        → after_for number (after_all p g body) r s
        ≡ choose (int_lt r.next r.end)
        (take_turn s.turns s (λ t. then_do (for_body (after_all p g body) r t) (after_for number (after_all p g body) (next_of r)))) (Live s) }
{}

/// The law that the number with which a loop is read decides nothing: any that is no less than the turns that are left gives the
/// same. The call does nothing.
pub fn loops_need_no_more_than_their_turns()
    ensures while_loops { (p : ProgramTree) (g : GraphValue) (number k : ℕ) (c : BoolExpressionTree) (body : BlockTree) (s : StateValue) → s.turns ≤ k
        → loop (while_test g.vertices c) (while_body (after_all p g body)) (λ (n : ℕ). n) number k 0 s
        ≡ after_while g.vertices number c (after_all p g body) s }
    ensures for_loops { (p : ProgramTree) (g : GraphValue) (number k : ℕ) (body : BlockTree) (r : counter.LoopCounter) (s : StateValue) → s.turns ≤ k
        → loop for_test (for_body (after_all p g body)) next_of number k r s ≡ after_for number (after_all p g body) r s }
{}

/// The law that a bound of turns which suffices gives the same outcome as any greater one: the same end, the same number of
/// used turns, the same vectors, sets and text. The call does nothing.
pub fn more_turns_change_nothing()
    ensures { (p : ProgramTree) (g : GraphValue) (turns more : ℕ) → turns ≤ more → (meaning p g turns).end ≢ TurnsOver
        → meaning p g more ≡ meaning p g turns }
{}

/// The law that a run which ends by its turns has used as many as it had. The call does nothing.
pub fn turns_run_out_when_all_are_used()
    ensures { (p : ProgramTree) (g : GraphValue) (turns : ℕ) → (meaning p g turns).end ≡ TurnsOver → (meaning p g turns).turns ≡ turns }
{}
