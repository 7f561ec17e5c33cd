//! What the definitions that contracts cite come to.

ghost use Rattle.std.specs.Prelude.{◌≡◌, ℕ, ◌*◌, ◌/◌, ◌%◌, List};
ghost use Rattle.ascending_lists.specs.Maps.{Rises, lookup};
ghost use Rattle.pages.specs.Vertices.{neighbours_of};
ghost use Rattle.vertex_blocks.specs.Blocks.{Block, AreBlocks, lists_of, vertices_at};

/// The law of blocks: the neighbours of a vertex in a graph, with their weights, are those that its
/// block has of it, and the vertices of blocks that ascend do so too. The call does nothing.
pub fn blocks_are_their_lists()
    ensures lists { (top : ℕ) (bs : List (ℕ × Block)) (v : ℕ)
        → Rises 0 top bs → AreBlocks bs
        → neighbours_of v (lists_of bs) ≡ neighbours_of (v % 64) (vertices_at (lookup (v / 64) bs)) }
    ensures map { (top : ℕ) (bs : List (ℕ × Block)) → Rises 0 top bs → AreBlocks bs
        → Rises 0 (64 * top) (lists_of bs) }
{}
