//! Initial entries: what the new entries of a vector begin with.
ghost use Rattle.std.specs.Prelude.{◌≡◌, ℤ};
ghost use Rattle.algorithm_meaning.specs.Arithmetic.{reduced};
ghost use Rattle.edge_fold.specs.FoldStarts.{combined_with_seed};
ghost use Rattle.edge_fold.specs.inside.FoldStarts.{initial_seed, start_of};

use algorithm_meaning::reduce;
use apply_options::Reduction;
use vectors::Lane;

/// What the new entries of a vector begin with: the old ones, or the unit of a reduction.
#[derive(Clone, Copy)]
pub(crate) enum InitialEntries<'a> {
    Entries(Lane<'a>),
    Unit,
}

impl InitialEntries<'_> {
    /// The new entry of a vertex that is given its first number. The unit leaves that as it is.
    #[inline(always)]
    pub(crate) fn first(self, reduction: Reduction, vertex: usize, number: i64) -> i64
        ensures { (h : ℤ) → combined_with_seed (start_of self.entry) reduction (initial_seed self.entry vertex h) result
            ≡ reduced reduction (initial_seed self.entry vertex h) number }
    {
        match self {
            InitialEntries::Entries(old) => reduce(reduction, old.get(vertex), number),
            InitialEntries::Unit => number,
        }
    }
}
