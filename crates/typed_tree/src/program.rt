//! Checked programs.

use crate::function::Function;
use crate::sequence::Name;
use crate::statement::MainStatement;
use apply_options::Setting;

/// A checked program.
pub struct Typed {
    /// All names that the trees speak of, each at its index.
    pub names: Vec<Name>,
    /// All labels without their `#`, in the order of the text, those in functions too.
    pub labels: Vec<Name>,
    /// The index of the name of the edges, where the program declares them.
    pub edges: Option<usize>,
    /// The vectors, in declared order.
    pub vectors: Vec<Vector>,
    /// The names of the constant vertex sets, in declared order. Each has all vertices.
    pub sets: Vec<usize>,
    /// The edge functions, in declared order.
    pub edge_functions: Vec<Function>,
    /// The vertex functions, in declared order.
    pub vertex_functions: Vec<Function>,
    /// The filters, in declared order.
    pub filters: Vec<Function>,
    /// The statements of `main`.
    pub main: Vec<MainStatement>,
    /// The calls of the schedule, in the order of the text.
    pub schedule: Vec<ScheduleCall>,
}

impl Drop for Typed {
    fn drop(self) {
        let Typed {
            names: _,
            labels: _,
            edges: _,
            vectors: _,
            sets: _,
            edge_functions: _,
            vertex_functions: _,
            filters: _,
            main: _,
            schedule: _,
        } = self;
    }
}

/// A vector: a number for each vertex.
#[derive(Clone, Copy, Debug, PartialEq, Eq)]
pub struct Vector {
    /// The index of its name in the program's names.
    pub name: usize,
    pub beginning: InitialValue,
}

/// What a vector begins with.
#[derive(Clone, Copy, Debug, PartialEq, Eq)]
pub enum InitialValue {
    /// This number at each vertex.
    Number(i64),
    /// How many edges leave each vertex.
    OutDegrees,
}

/// A call of the schedule.
pub struct ScheduleCall {
    /// The offset of its first token in the text, in bytes.
    pub at: usize,
    pub setting: Setting,
    /// Its arguments without their quotes, one at least.
    pub arguments: Vec<Name>,
}

impl Drop for ScheduleCall {
    fn drop(self) {
        let ScheduleCall {
            at: _,
            setting: _,
            arguments: _,
        } = self;
    }
}
