//! What the definitions that contracts cite come to.

ghost use Rattle.std.specs.Prelude.{◌≡◌, ℕ, ◌≤◌, ◌⊎◌, false, Some, List, ◌∷◌, ◌++◌};
ghost use Rattle.std.specs.List.{Contains};
ghost use Rattle.tree_batch.specs.declared.batch.Entry.{Entry};
ghost use Rattle.tree_batch.specs.declared.batch.Entry.TheVariants.{Grow};
ghost use Rattle.ascending_lists.specs.Maps.{lookup};
ghost use Rattle.weighted_edges.specs.Edge.{Edge};
ghost use Rattle.tree_batch.specs.Edge.{Ends, weight_in, IsWithin, IsAscending, made_by, misfits, named_by, vertices_after, NoneNames};
ghost use Rattle.tree_batch.specs.Digraph.{Digraph, graph_after, IsDigraph};
ghost use Rattle.tree_batch.specs.Neighbours.{destinations_of, sources_of};

/// The law of a batch. For each edge that an entry names, with none after it that does, the edge is
/// after the batch what that entry makes of it: there with its weight, or not there. An edge that no
/// entry names is as it was, with the weight that it had. Both hold of the edges that the vertices may
/// have after the batch. The call does nothing.
pub fn last_entry_decides()
    ensures named { (g : Digraph) (front : List Entry) (entry : Entry) (back : List Entry) (p : Ends)
        → IsWithin (vertices_after g.vertices (front ++ entry ∷ back)) p
        → named_by entry ≡ Some p → NoneNames p back
        → weight_in p (graph_after g (front ++ entry ∷ back)).edges ≡ made_by entry }
    ensures others { (g : Digraph) (batch : List Entry) (p : Ends)
        → IsWithin (vertices_after g.vertices batch) p → NoneNames p batch
        → weight_in p (graph_after g batch).edges ≡ weight_in p g.edges }
{}

/// The law of growth. A graph has no fewer vertices after a batch that fits than before it and than
/// each entry asks for, in whatever order these stand; and it has as many as before, or as one of them
/// asks for. The call does nothing.
pub fn graphs_never_shrink()
    ensures before { (g : Digraph) (batch : List Entry) → g.vertices ≤ (graph_after g batch).vertices }
    ensures asked { (g : Digraph) (batch : List Entry) (n : ℕ) → Contains batch (Grow n)
        → n ≤ (graph_after g batch).vertices }
    ensures no_more { (g : Digraph) (batch : List Entry)
        → ((graph_after g batch).vertices ≡ g.vertices)
        ⊎ Contains batch (Grow (graph_after g batch).vertices) }
{}

/// The edges after a batch ascend, each once, and there is no other ascending list of edges with the
/// same weights between the same ends. The call does nothing.
pub fn edges_ascend()
    ensures ascending { (g : Digraph) (batch : List Entry) → IsDigraph g
        → misfits g.vertices batch ≡ false → IsAscending (graph_after g batch).edges }
    ensures only { (xs ys : List Edge) → IsAscending xs → IsAscending ys
        → ((p : Ends) → weight_in p xs ≡ weight_in p ys) → xs ≡ ys }
{}

/// The destinations of the edges from a vertex, and the sources of those to one, are the converse
/// of each other: an edge has one weight, seen from both its ends. The call does nothing.
pub fn directions_are_converse()
    ensures out { (edges : List Edge) (u v : ℕ)
        → lookup v (destinations_of u edges) ≡ weight_in (u, v) edges }
    ensures into { (edges : List Edge) (u v : ℕ)
        → lookup u (sources_of v edges) ≡ weight_in (u, v) edges }
{}
