//! Waiting pairs: edges that wait for a run of the kernels.
ghost use Rattle.std.specs.Prelude.{◌≡◌, ℕ, ◌+◌, ◌<◌, ◌≤◌, ◌++◌, [], false, if◌then◌else◌, length, take};
ghost use Rattle.kernels.specs.declared.columns.TheConstants.{PAIRS};

use kernels::PAIRS;

/// Pairs of a source and a destination that wait for the kernels, each with a weight: the first ones, as many as there
/// are. The weights are written only where they count.
#[derive(Drop)]
pub(crate) struct Pairs {
    pub(crate) sources: [u32; PAIRS],
    pub(crate) destinations: [u32; PAIRS],
    pub(crate) weights: [i64; PAIRS],
    pub(crate) count: usize,
    ghost few: { count ≤ PAIRS },
}

/// Columns of pairs, at most `PAIRS`, with the weights of the first of them; that of each other one is 1.
#[derive(Clone, Copy)]
pub(crate) struct PairColumns<'a> {
    pub(crate) sources: &'a [u32],
    pub(crate) destinations: &'a [u32],
    pub(crate) weights: &'a [i64],
    ghost few: { length sources.now ≤ PAIRS },
    ghost same: { length destinations.now ≡ length sources.now },
    ghost weighted: { length weights.now ≤ PAIRS },
}

impl Pairs {
    ghost use Rattle.edge_fold.specs.inside.Folded.{edges_in};
    ghost use Rattle.edge_fold.specs.Folded.{waiting};
    ghost use Rattle.edge_fold.specs.Contributions.{column, weighted_entries, row};

    /// None.
    pub(crate) fn new() -> Pairs
        ensures { result.count ≡ 0 }
    {
        Pairs {
            sources: [0; PAIRS],
            destinations: [0; PAIRS],
            weights: [0; PAIRS],
            count: 0,
        }
    }

    /// How many more there is room for.
    pub(crate) fn room(&self) -> usize
        ensures { self.now.count + result ≡ PAIRS }
    {
        PAIRS - self.count
    }

    /// Those that wait, with their weights where these count.
    pub(crate) fn columns(&self, weighted: bool) -> PairColumns<'_>
        ensures { edges_in result ≡ waiting weighted self.now }
    {
        PairColumns {
            sources: &self.sources[..self.count],
            destinations: &self.destinations[..self.count],
            weights: self.counting(weighted),
        }
    }

    /// The weights of those that wait, where weights count.
    fn counting(&self, weighted: bool) -> &[i64]
        ensures weights { result.now ≡ (if weighted then take self.now.count self.now.weights else []) }
        ensures few { length result.now ≤ PAIRS }
    {
        if weighted {
            &self.weights[..self.count]
        } else {
            &[]
        }
    }

    /// Adds the edges from a source to destinations, where no weight counts.
    pub(crate) fn add(&mut self, source: u32, destinations: &[u32])
        requires { self.old.count + length destinations.now ≤ PAIRS }
        ensures waiting { waiting false self.new ≡ waiting false self.old ++ row source (weighted_entries destinations.now []) }
        ensures count { self.new.count ≡ self.old.count + length destinations.now }
    {
        let end = self.count + destinations.len();
        self.sources[self.count..end].fill(source);
        self.destinations[self.count..end].copy_from_slice(destinations);
        self.count = end;
    }

    /// Adds the edges from sources to a destination, where no weight counts.
    pub(crate) fn add_into(&mut self, sources: &[u32], destination: u32)
        requires { self.old.count + length sources.now ≤ PAIRS }
        ensures waiting { waiting false self.new ≡ waiting false self.old ++ column destination (weighted_entries sources.now []) }
        ensures count { self.new.count ≡ self.old.count + length sources.now }
    {
        let end = self.count + sources.len();
        self.sources[self.count..end].copy_from_slice(sources);
        self.destinations[self.count..end].fill(destination);
        self.count = end;
    }
}
