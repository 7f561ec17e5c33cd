//! Laws of the definitions. The calls do nothing.
ghost use Rattle.std.specs.Prelude.{◌≡◌, ◌<◌, false, ℕ, ℤ, List, [], ◌∷◌, ◌++◌, length, slice_index_or};
ghost use Rattle.std.specs.List.Sorted.{IsPermutation};
ghost use Rattle.apply_options.specs.declared.reduction.Reduction.{Reduction};
ghost use Rattle.weighted_edges.specs.Edge.{Edge};
ghost use Rattle.typed_tree.specs.FunctionStatementTree.{FunctionStatementsTree};
ghost use Rattle.algorithm_meaning.specs.declared.contribution.Contribution.{Contribution};
ghost use Rattle.algorithm_meaning.specs.declared.state.SetBinding.{SetBinding};
ghost use Rattle.algorithm_meaning.specs.Arithmetic.{remainder};
ghost use Rattle.algorithm_meaning.specs.EdgeApply.{after_edges, is_member, IsGivenBy};
ghost use Rattle.algorithm_meaning.specs.Laws.{HasSignOf, IsReduction, given_to, reduced_all};
ghost use Rattle.algorithm_meaning.specs.Value.{entry};
ghost use Rattle.algorithm_meaning.specs.VertexSets.{after_vertices};

/// A remainder is 0 or has the sign of the dividend.
pub fn remainders_have_the_sign_of_the_dividend()
    ensures { (a b : ℤ) → HasSignOf (remainder a b) a }
{}

/// Each reduction is commutative and associative, and has a unit.
pub fn reductions_have_no_order()
    ensures { (r : Reduction) → IsReduction r }
{}

/// What is given may change places with its neighbour, and so come in any order, where both are given by one
/// reduction.
pub fn given_numbers_change_places()
    ensures { (n : ℤ) (first : List Contribution) (a b : Contribution) (rest : List Contribution) → a.reduction ≡ b.reduction
        → reduced_all n (first ++ a ∷ b ∷ rest) ≡ reduced_all n (first ++ b ∷ a ∷ rest) }
{}

/// After an edge apply each entry is the old one reduced with all that the edges into its vertex give.
pub fn edge_applies_reduce_entries()
    ensures { (functions : List FunctionStatementsTree) (sets : List SetBinding) (before : List (List ℤ)) (edges : List Edge) (vectors : List (List ℤ)) (vector v : ℕ)
        → v < length (slice_index_or vectors vector [])
        → entry (after_edges functions sets before edges vectors) vector v
        ≡ reduced_all (entry vectors vector v) (given_to vector v functions sets before edges) }
{}

/// The edges of an edge apply may come in any order, for each vector to which its functions give by one reduction.
pub fn edges_come_in_any_order()
    ensures { (r : Reduction) (functions : List FunctionStatementsTree) (sets : List SetBinding) (before : List (List ℤ)) (edges others : List Edge)
        (vectors : List (List ℤ)) (vector v : ℕ)
        → IsGivenBy r vector functions sets before → IsPermutation edges others
        → entry (after_edges functions sets before edges vectors) vector v
        ≡ entry (after_edges functions sets before others vectors) vector v }
{}

/// A vertex apply changes no entry of a vertex outside its set.
pub fn vertex_applies_leave_others()
    ensures { (steps : FunctionStatementsTree) (sets : List SetBinding) (vertices : List ℕ) (vectors : List (List ℤ)) (vector v : ℕ)
        → is_member v vertices ≡ false
        → entry (after_vertices steps sets vertices vectors) vector v ≡ entry vectors vector v }
{}
