//! Laws of the grammar. The calls do nothing.
ghost use Rattle.std.specs.Prelude.{◌≡◌, ℕ, List, [], ◌∷◌, ◌++◌, Some};
ghost use Rattle.syntax.specs.Terminals.{Terminal};
ghost use Rattle.syntax.specs.SourceTrees.{ExpressionTree, SourceTree};
ghost use Rattle.syntax.specs.ExpressionSpelling.{expression_terminals};
ghost use Rattle.syntax.specs.ExpressionEnds.{EndsExpression, IsExpressionEnd};
ghost use Rattle.syntax.specs.ExpressionBeginnings.{Begins};
ghost use Rattle.syntax.specs.Nesting.{limit, StaysWithin};
ghost use Rattle.syntax.specs.SourceReading.{source_at};
ghost use Rattle.syntax.specs.SourceSpelling.{source_terminals};
ghost use Rattle.syntax.specs.ExpressionReading.{expression_at};

/// The law that no two trees have the same terminals.
pub fn terminals_have_one_tree()
    ensures { (tree other : ExpressionTree) → expression_terminals tree ≡ expression_terminals other → tree ≡ other }
{}

/// The law that terminals begin with one expression at most, whatever the depths, and have one rest.
pub fn beginnings_are_one()
    ensures { (depth other_depth : ℕ) (ws : List Terminal) (tree other : ExpressionTree) (rest other_rest : List Terminal)
        → Begins depth ws tree rest → Begins other_depth ws other other_rest
        → (tree ≡ other) × (rest ≡ other_rest) }
{}

/// The law of the reading function: it reads a tree exactly where the terminals begin with it.
pub fn reading_is_exact()
    ensures sound { (depth : ℕ) (ws : List Terminal) (tree : ExpressionTree) (rest : List Terminal)
        → expression_at depth ws ≡ Some (tree, rest) → Begins depth ws tree rest }
    ensures complete { (depth : ℕ) (ws : List Terminal) (tree : ExpressionTree) (rest : List Terminal)
        → Begins depth ws tree rest → expression_at depth ws ≡ Some (tree, rest) }
{}

/// The laws of where an expression ends: before a terminal that is no operator, bracket or dot, and at the
/// end of all terminals; where it ends, no expression has its terminals and all that are after them; and where
/// it does not end before a terminal, some expression has its terminals and then this terminal.
pub fn what_ends_goes_no_further()
    ensures ends { (tree : ExpressionTree) (rest : List Terminal) → IsExpressionEnd rest → EndsExpression tree rest }
    ensures last { (tree : ExpressionTree) → EndsExpression tree [] }
    ensures longest { (tree longer : ExpressionTree) (rest : List Terminal)
        → EndsExpression tree rest → expression_terminals longer ≡ expression_terminals tree ++ rest → rest ≡ [] }
    ensures goes_on { (tree : ExpressionTree) (w : Terminal) (rest : List Terminal) → (EndsExpression tree (w ∷ rest) → ⊥)
        → (longer : ExpressionTree) × (more : List Terminal) × (expression_terminals longer ≡ expression_terminals tree ++ w ∷ more) }
{}

/// The law that no two sources have the same terminals, where the nesting stays within the limit.
pub fn terminals_have_one_source()
    ensures { (source other : SourceTree) → StaysWithin limit 0 (source_terminals source)
        → source_terminals source ≡ source_terminals other → source ≡ other }
{}

/// The law of the reading function: what it reads is spelled so, and every source is read whose nesting
/// stays within the limit.
pub fn sources_are_read_exactly()
    ensures sound { (terminals : List Terminal) (source : SourceTree) → source_at terminals ≡ Some source → terminals ≡ source_terminals source }
    ensures complete { (source : SourceTree) → StaysWithin limit 0 (source_terminals source)
        → source_at (source_terminals source) ≡ Some source }
{}
