//! Laws of vertex sets and of the ends of applies, each the contract of a call that does nothing.
ghost use Rattle.std.specs.Prelude.{◌≡◌, ◌≢◌, ◌↔◌, ◌<◌, ℕ, List, Contains, true, slice_get};
ghost use Rattle.weighted_edges.specs.Edge.{Edge};
ghost use Rattle.typed_tree.specs.declared.expression.VarRef as slot;
ghost use Rattle.typed_tree.specs.declared.statement.ApplyEnds as ends;
ghost use Rattle.typed_tree.specs.declared.statement.SetValue.TheVariants as set;
ghost use Rattle.typed_tree.specs.FunctionStatementTree.{FunctionTree};
ghost use Rattle.typed_tree.specs.ProgramTree.{ProgramTree};
ghost use Rattle.algorithm_meaning.specs.State.{GraphValue, StateValue};
ghost use Rattle.algorithm_meaning.specs.Value.{entry, members_of};
ghost use Rattle.algorithm_meaning.specs.Function.{steps_of, result_of};
ghost use Rattle.algorithm_meaning.specs.EdgeApply.{matching};
ghost use Rattle.algorithm_meaning.specs.VertexSets.{all_below, members_for, vectors_after};
ghost use Rattle.meaning_laws.specs.Members.{AreVertices, IsEndOf};

/// The law that the set which `applyModified` gives has exactly the vertices where the entry of the named vector before the
/// apply differs from the one after it, in ascending order. The call does nothing.
pub fn modified_sets_have_the_changed_vertices()
    ensures members { (p : ProgramTree) (g : GraphValue) (ends : ends.ApplyEnds) (function vector : ℕ) (s : StateValue) (v : ℕ)
        → Contains (members_for p g (set.Modified ends function vector) s) v
        ↔ ((v < g.vertices) × (entry s.vectors vector v ≢ entry (vectors_after p g (set.Modified ends function vector) s) vector v)) }
    ensures ascending { (p : ProgramTree) (g : GraphValue) (ends : ends.ApplyEnds) (function vector : ℕ) (s : StateValue)
        → AreVertices g.vertices (members_for p g (set.Modified ends function vector) s) }
{}

/// The law that a filtered set has exactly the members of the set for which the result of the filter is true, over the
/// vectors as they are; of all vertices, exactly the vertices for which it is. The call does nothing.
pub fn filtered_sets_have_the_members_that_pass()
    ensures members { (p : ProgramTree) (g : GraphValue) (slot : slot.VarRef) (function : ℕ) (s : StateValue) (v : ℕ)
        → Contains (members_for p g (set.Filter slot function) s) v
        ↔ (Contains (members_of (slice_get s.sets slot.index)) v × (result_of (steps_of (slice_get p.filters function)) s.sets s.vectors v ≡ true)) }
    ensures of_all { (p : ProgramTree) (g : GraphValue) (slot : slot.VarRef) (function : ℕ) (s : StateValue) (v : ℕ)
        → members_of (slice_get s.sets slot.index) ≡ all_below g.vertices
        → Contains (members_for p g (set.Filter slot function) s) v
        ↔ ((v < g.vertices) × (result_of (steps_of (slice_get p.filters function)) s.sets s.vectors v ≡ true)) }
    ensures ascending { (p : ProgramTree) (g : GraphValue) (slot : slot.VarRef) (function : ℕ) (s : StateValue)
        → AreVertices g.vertices (members_of (slice_get s.sets slot.index)) → AreVertices g.vertices (members_for p g (set.Filter slot function) s) }
{}

/// The law that an apply looks at exactly the edges of the graph whose source is a vertex that the one end lets through, and
/// whose destination is one that the other does. The call does nothing.
pub fn applies_look_at_the_edges_between_their_ends()
    ensures { (filters : List FunctionTree) (g : GraphValue) (s : StateValue) (ends : ends.ApplyEnds) (edge : Edge)
        → Contains (matching filters g s ends) edge
        ↔ (Contains g.edges edge × IsEndOf filters g s ends.from edge.0 × IsEndOf filters g s ends.to edge.1) }
{}
