//! What a schedule says of an apply: its direction, its parallelization, its dense vertex sets, and the apply that it is fused with.
ghost use Rattle.std.specs.Prelude.{◌≡◌};
ghost use Rattle.apply_options.specs.ScheduleTree.{no_apply_schedule};

/// In which way an edge apply goes over the edges: from the sources of a sparse or a dense set, or to each
/// destination.
#[derive(Clone, Copy, Debug, PartialEq, Eq)]
pub enum Direction {
    /// `SparsePush`, where no call says otherwise.
    SparsePush,
    /// `DensePush`
    DensePush,
    /// `DensePull`
    DensePull,
    /// `DensePull-SparsePush`: whichever is worth less, in each apply anew.
    Hybrid,
}

/// How the work of an edge apply is cut into pieces for workers.
#[derive(Clone, Copy, Debug, PartialEq, Eq)]
pub enum Parallelization {
    /// `serial`, where no call says otherwise.
    Serial,
    /// `static-vertex-parallel`
    StaticVertex,
    /// `dynamic-vertex-parallel`
    DynamicVertex,
    /// `edge-aware-dynamic-vertex-parallel`
    EdgeAwareDynamicVertex,
}

/// How a dense vertex set is kept.
#[derive(Clone, Copy, Debug, PartialEq, Eq)]
pub enum DenseVertexSet {
    /// `bool-array`, where no call says otherwise.
    BoolArray,
    /// `bitvector`
    Bitvector,
}

/// Where an apply is in a fusing of two.
#[derive(Clone, Copy, Debug, PartialEq, Eq)]
pub enum Fused {
    /// It is the first, and the apply with this label is done with it.
    With(usize),
    /// It is the second, and is done with the apply that has this label.
    Into(usize),
}

/// What the calls of a schedule say of a label: `None` where no call does.
#[derive(Clone, Copy, Debug, PartialEq, Eq)]
pub struct ApplySchedule {
    pub direction: Option<Direction>,
    pub parallelization: Option<Parallelization>,
    pub dense_vertex_set: Option<DenseVertexSet>,
    pub fused: Option<Fused>,
}

impl ApplySchedule {
    /// What is said where no call is made.
    pub fn none() -> ApplySchedule
        ensures { result ≡ no_apply_schedule }
    {
        ApplySchedule {
            direction: None,
            parallelization: None,
            dense_vertex_set: None,
            fused: None,
        }
    }
}
