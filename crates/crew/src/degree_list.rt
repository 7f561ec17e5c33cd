//! Degrees of a list of vertices, as a partition by edges asks for them.
ghost use Rattle.std.specs.Prelude.{◌≡◌, ℕ, ◌+◌, ◌*◌, ◌^◌, ◌<◌, List, length, slice_index, slice_range};
ghost use Rattle.crew.specs.Limits.{weight};

/// The degrees of a list of vertices. A partition by edges asks for the vertices and edges of whole runs of 64 vertices, and
/// for single degrees only in a run in which a piece ends. So a list that knows its runs is cut without a look at each vertex.
pub trait DegreeList {
    /// The degrees, in the order of the list.
    ghost degrees: { Self → List ℕ };

    /// How many vertices there are, and edges of theirs.
    fn total(&self) -> usize
        requires { length (degrees self.now) < 2 ^ 32 }
        ensures { result ≡ weight (degrees self.now) };

    /// The number of vertices in a run of 64, and of their edges. Runs are numbered from 0, and the last one may be shorter.
    fn run_total(&self, run: usize) -> usize
        requires few { length (degrees self.now) < 2 ^ 32 }
        requires inside { 64 * run < length (degrees self.now) }
        ensures { result ≡ weight (slice_range (degrees self.now) (64 * run) (64 * run + 64)) };

    /// The degree of the vertex at an index.
    fn degree(&self, index: usize) -> u32
        requires { index < length (degrees self.now) }
        ensures { result ≡ slice_index (degrees self.now) index };
}

/// Degrees in a slice.
#[derive(Clone, Copy)]
pub(crate) struct ListedDegrees<'a> {
    pub(crate) list: &'a [u32],
}

impl DegreeList for ListedDegrees<'_> {
    ghost degrees = { λ d. d.list.now };

    fn total(&self) -> usize {
        weight_of(self.list)
    }

    fn run_total(&self, run: usize) -> usize {
        let start = 64 * run;
        let stop = (start + 64).min(self.list.len());
        weight_of(&self.list[start..stop])
    }

    fn degree(&self, index: usize) -> u32 {
        self.list[index]
    }
}

/// The vertices of these degrees, and their edges.
fn weight_of(degrees: &[u32]) -> usize
    requires { length degrees.now < 2 ^ 32 }
    ensures { result ≡ weight degrees.now }
{
    let mut weight = 0usize;
    'degrees: for degree in degrees {
        weight += *degree as usize + 1;
    }
    weight
}
