//! Updates of edges, with a weight or without.

ghost use Rattle.std.specs.Prelude.{◌≡◌, ℤ};
ghost use Rattle.edge_updates.specs.declared.edge_update.EdgeUpdate.{EdgeUpdate};
ghost use Rattle.edge_updates.specs.EdgeUpdate.{adds, key_of, neighbour_of, vertex_of};

use crate::edge_update::EdgeUpdate;
use radix_sort::Keyed;

/// An update of an edge, with the weight that the edge has if it is added. Its key is that of its edge: the
/// vertex times 2^24, and the neighbour.
pub trait Update: Keyed {
    /// The update without its weight, and the weight.
    ghost pair_of: { Self → EdgeUpdate × ℤ };

    /// The update without its weight.
    fn edge_update(self) -> EdgeUpdate
        ensures { result ≡ (pair_of self).0 };

    /// The update with the ends of its edge swapped.
    fn transposed(self) -> Self
        ensures vertex { vertex_of (pair_of result).0 ≡ neighbour_of (pair_of self).0 }
        ensures neighbour { neighbour_of (pair_of result).0 ≡ vertex_of (pair_of self).0 }
        ensures is_added { adds (pair_of result).0 ≡ adds (pair_of self).0 }
        ensures weight { (pair_of result).1 ≡ (pair_of self).1 };

    /// Its key is that of its edge.
    ghost keyed: { (x : Self) → Self.key_of x ≡ key_of (pair_of x).0 };
}
