//! What the definitions that contracts cite come to.

ghost use Rattle.std.specs.Prelude.{◌≡◌, ◌↔◌, ℕ, ◌<◌, List, length, Contains};
ghost use Rattle.vertex_sets.specs.VertexSet.{IsAscendingBelow, all_vertices};

/// The law that two ascending lists of the same members are the same list. The call does nothing.
pub fn sets_of_the_same_members_are_equal()
    ensures { (n : ℕ) (xs ys : List ℕ) → IsAscendingBelow n xs → IsAscendingBelow n ys
        → ((v : ℕ) → Contains xs v ↔ Contains ys v) → xs ≡ ys }
{}

/// The law that the list of all of n vertices has each number below n and no other, ascends, and has
/// length n. The call does nothing.
pub fn all_vertices_are_those_below()
    ensures members { (n v : ℕ) → Contains (all_vertices n) v ↔ (v < n) }
    ensures ascending { (n : ℕ) → IsAscendingBelow n (all_vertices n) }
    ensures count { (n : ℕ) → length (all_vertices n) ≡ n }
{}
