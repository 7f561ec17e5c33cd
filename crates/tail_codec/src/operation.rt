//! Operations on two maps.

ghost use Rattle.std.specs.Prelude.{◌≡◌};
ghost use Rattle.tail_codec.specs.Operations.{on_keys};

use ascending_lists::Operation;

/// What is done with two maps.
#[derive(Clone, Copy)]
pub enum MapOperation {
    /// The entries of both. Where both have a key, the weight is the second's.
    Union,
    /// The entries of both. Where both have a key, the weight is the first's.
    UnionKeepingFirst,
    /// The entries of the first whose keys the second lacks.
    Difference,
}

impl MapOperation {
    /// The operation on the keys alone.
    pub fn on_keys(self) -> Operation
        ensures { result ≡ on_keys self }
    {
        match self {
            MapOperation::Union => Operation::Union,
            MapOperation::UnionKeepingFirst => Operation::Union,
            MapOperation::Difference => Operation::Difference,
        }
    }
}
