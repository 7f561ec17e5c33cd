//! Neighbours with the weights of their edges, read by index.
ghost use Rattle.std.specs.Prelude.{◌≡◌, ◌<◌, ℕ, ℤ, pos, [], List, length, get_or};
ghost use Rattle.edge_fold.specs.Contributions.{weighted_entries};

/// Neighbours with the weights of their edges, each at an index.
pub trait NeighbourEntries {
    ghost entries: { Self → List (ℕ × ℤ) };

    /// How many there are.
    fn len(&self) -> usize
        ensures { result ≡ length (entries self.now) };

    /// The neighbour at an index.
    fn neighbour(&self, index: usize) -> u32
        requires { index < length (entries self.now) }
        ensures { result ≡ (get_or (entries self.now) index (0, pos 1)).0 };

    /// The weight at an index.
    fn weight(&self, index: usize) -> i64
        requires { index < length (entries self.now) }
        ensures { result ≡ (get_or (entries self.now) index (0, pos 1)).1 };
}

/// Neighbours in a column, and the weights of their edges in another.
#[derive(Drop)]
pub(crate) struct WeightedColumns<'a> {
    pub(crate) neighbours: &'a [u32],
    pub(crate) weights: &'a [i64],
    ghost same: { length weights.now ≡ length neighbours.now },
}

/// Neighbours in a column, each with weight 1.
#[derive(Drop)]
pub(crate) struct UnitColumn<'a> {
    pub(crate) neighbours: &'a [u32],
}

impl NeighbourEntries for WeightedColumns<'_> {
    ghost entries = { λ c. weighted_entries c.neighbours.now c.weights.now };

    #[inline(always)]
    fn len(&self) -> usize {
        self.neighbours.len()
    }

    #[inline(always)]
    fn neighbour(&self, index: usize) -> u32 {
        self.neighbours[index]
    }

    #[inline(always)]
    fn weight(&self, index: usize) -> i64 {
        self.weights[index]
    }
}

impl NeighbourEntries for UnitColumn<'_> {
    ghost entries = { λ c. weighted_entries c.neighbours.now [] };

    #[inline(always)]
    fn len(&self) -> usize {
        self.neighbours.len()
    }

    #[inline(always)]
    fn neighbour(&self, index: usize) -> u32 {
        self.neighbours[index]
    }

    #[inline(always)]
    fn weight(&self, _index: usize) -> i64 {
        1
    }
}
