//! What the definitions that contracts cite come to.

ghost use Rattle.std.specs.Prelude.{◌≡◌, ℕ, ℤ, ◌<◌, List};
ghost use Rattle.std.specs.Map.{keys_of};
ghost use Rattle.edge_updates.specs.declared.edge_update.EdgeUpdate.{EdgeUpdate};
ghost use Rattle.edge_updates.specs.Updates.{Ascend};
ghost use Rattle.ascending_lists.specs.Ascending.{AscendsFrom};
ghost use Rattle.ascending_lists.specs.Maps.{lookup};
ghost use Rattle.pages.specs.Vertices.{neighbours_of, IsPage};
ghost use Rattle.pages.specs.Updates.{updated, weight_decided, AreOfBlock, NeighboursAscend, EdgesAscend};

/// The law of updates: what they make of a list ascends, and a neighbour that some update names is
/// there exactly where that update adds it, with the update's weight, and another one exactly where it
/// was, with the weight that it had. The call does nothing.
pub fn changes_decide()
    ensures ascending { (xs : List (ℕ × ℤ)) (updates : List (EdgeUpdate × ℤ))
        → AscendsFrom 0 (keys_of xs) → NeighboursAscend 0 updates
        → AscendsFrom 0 (keys_of (updated xs updates)) }
    ensures weights { (xs : List (ℕ × ℤ)) (updates : List (EdgeUpdate × ℤ)) (v : ℕ)
        → AscendsFrom 0 (keys_of xs) → NeighboursAscend 0 updates
        → lookup v (updated xs updates) ≡ weight_decided v updates (lookup v xs) }
{}

/// The law of blocks: updates of the 64 vertices of one block that ascend by edge, as `edge_updates`
/// leaves them, ascend as [`Page::apply`](crate::Page::apply) asks. The call does nothing.
pub fn blocks_ascend()
    ensures { (block : ℕ) (updates : List (EdgeUpdate × ℤ))
        → Ascend (keys_of updates) → AreOfBlock block updates → EdgesAscend 0 updates }
{}

/// The law of pages: two of them with the same neighbours of each vertex, with the same weights, are the same. The call does
/// nothing.
pub fn pages_are_their_lists()
    ensures { (p q : List (ℕ × List (ℕ × ℤ))) → IsPage p → IsPage q
        → ((u : ℕ) → u < 64 → neighbours_of u p ≡ neighbours_of u q) → p ≡ q }
{}
