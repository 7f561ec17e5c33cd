//! Laws of the words of expressions, each the contract of a call that does nothing.
ghost use Rattle.std.specs.Prelude.{◌≡◌, ◌≢◌, ℕ, List, ◌∷◌, ◌++◌, codes};
ghost use Rattle.std.specs.Option.{option_map};
ghost use Rattle.lexer.specs.Tokens.{IsName};
ghost use Rattle.typed_tree.specs.IntExpressionTree.{IntExpressionTree};
ghost use Rattle.typed_tree.specs.BoolExpressionTree.{BoolExpressionTree};
ghost use Rattle.typed_tree.specs.ProgramTree.{ProgramTree};
ghost use Rattle.algorithm_meaning.specs.State.{StateValue};
ghost use Rattle.algorithm_meaning.specs.Stand.{bool_value_in, int_value_in};
ghost use Rattle.plan_text.specs.Expressions.{condition_words, integer_words};
ghost use Rattle.plan_laws.specs.Machine.{Number, Truth, StackValue, Names, read_words};
ghost use Rattle.plan_laws.specs.Given.{ConditionIsGiven, IntegerIsGiven, IsPlain};
ghost use Rattle.plan_laws.specs.Brackets.{IsOneWord};
ghost use Rattle.plan_laws.specs.Lines.{IsBare};
ghost use Rattle.plan_laws.specs.Names.{IsNoMark};

/// The law that the words of an expression of `main`, read from left to right with a stack of values, leave the value that
/// the expression has in the state on top of what was there before; and that the reading stops exactly where the expression
/// has none, at an index that is no vertex. The call does nothing.
pub fn expressions_are_read_by_hand()
    ensures integers { (p : ProgramTree) (names : Names) (s : StateValue) (e : IntExpressionTree) (stack : List StackValue) → IntegerIsGiven p names s e
        → read_words names (integer_words p e) stack ≡ option_map (λ n. Number n ∷ stack) (int_value_in names.vertices e s) }
    ensures conditions { (p : ProgramTree) (names : Names) (s : StateValue) (c : BoolExpressionTree) (stack : List StackValue) → ConditionIsGiven p names s c
        → read_words names (condition_words p c) stack ≡ option_map (λ b. Truth b ∷ stack) (bool_value_in names.vertices c s) }
{}

/// The law that the premises of these laws hold for names of the language: each but `neg` is taken for a name, and so is what
/// a `for` keeps beside its name; and no name has a space, a line feed, a bracket or a mark of an edge apply. The call does nothing.
pub fn names_are_plain()
    ensures plain { (word : List ℕ) → IsName word → word ≢ codes "neg" → IsPlain word }
    ensures bounds { (word : List ℕ) → IsName word → IsPlain (word ++ codes ".end") }
    ensures one_word { (word : List ℕ) → IsName word → IsOneWord word }
    ensures bare { (word : List ℕ) → IsName word → IsBare word }
    ensures no_marks { (word : List ℕ) → IsName word → IsNoMark word }
{}
