//! What a name is declared or assigned to be.

use crate::expression::Expression;
use crate::name::Name;

/// The sets between which an apply looks at edges: a vertex set or a filter for each end, where one is given.
pub struct Ends {
    pub from: Option<Name>,
    pub to: Option<Name>,
}

impl Drop for Ends {
    fn drop(self) {
        let Ends { from: _, to: _ } = self;
    }
}

/// An initial or assigned value.
pub enum Initial {
    /// `new vertexset{Vertex}(size)`
    NewSet(i64),
    /// `load(argv[number])`
    Load(i64),
    /// `edges.getVertices()`
    Vertices(Name),
    /// `edges.getOutDegrees()`
    OutDegrees(Name),
    /// `set.filter(test)`
    Filter {
        set: Name,
        test: Name,
    },
    /// `edges.from(..).to(..).applyModified(function, vector)`
    ApplyModified {
        edges: Name,
        ends: Ends,
        function: Name,
        vector: Name,
    },
    /// An expression.
    Value(Expression),
}

impl Drop for Initial {
    fn drop(self) {
        match self {
            Initial::NewSet(_) | Initial::Load(_) => {}
            Initial::Vertices(_) | Initial::OutDegrees(_) => {}
            Initial::Filter { set: _, test: _ } => {}
            Initial::ApplyModified {
                edges: _,
                ends: _,
                function: _,
                vector: _,
            } => {}
            Initial::Value(_) => {}
        }
    }
}
