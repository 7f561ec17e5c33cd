//! Shapes of kernels. That a shape gives what its function means is a contract's; that the common functions have one
//! is not.

use kernels::{EdgeKernel, Shape, ShapePair};
use std::alloc::{AllocError, Global};
use std::test::Fail;
use test_oracle::checked;
use typed_tree::Operator;

// What is before each function: two vectors and a constant.
const HEAD: &str = "element Vertex end\nelement Edge end\n\
    const edges : edgeset{Edge}(Vertex, Vertex, int) = load(argv[1]);\n\
    const k : int = -3; const x : vector{Vertex}(int) = 5; const y : vector{Vertex}(int) = 1;\n";

// What is looked at of a shape: the source, its entry, the number of a sum of an entry and a number, the operator between an
// entry and the weight, or a number alone.
#[derive(Clone, Copy, PartialEq, Eq)]
enum Kind {
    Source,
    Entry,
    Sum(i64),
    Weighted(Operator),
    Number(i64),
    Other,
}

// The body of a function, and its shape.
const ROWS: [(&str, Kind); 22] = [
    ("y[d] max= s;", Kind::Source),
    ("y[d] min= s;", Kind::Source),
    ("y[d] max= x[s];", Kind::Entry),
    ("y[d] min= y[s];", Kind::Entry),
    ("y[d] += x[s];", Kind::Entry),
    ("y[d] max= x[s] + w;", Kind::Weighted(Operator::Add)),
    ("y[d] min= d;", Kind::Other),
    ("y[d] += x[s] + k;", Kind::Sum(-3)),
    ("y[d] += x[s] - k;", Kind::Sum(3)),
    ("x[d] min= x[s] + -2;", Kind::Sum(-2)),
    ("x[d] += 1;", Kind::Number(1)),
    ("x[d] += -3;", Kind::Number(-3)),
    ("if s < d x[d] += 1; end", Kind::Other),
    ("y[d] min= x[s] + w;", Kind::Weighted(Operator::Add)),
    ("y[d] max= w + x[s];", Kind::Weighted(Operator::Add)),
    ("y[d] += x[s] * w;", Kind::Weighted(Operator::Multiply)),
    ("y[d] += w * x[s];", Kind::Weighted(Operator::Multiply)),
    ("y[d] += x[s] - w;", Kind::Weighted(Operator::Subtract)),
    ("y[d] += w - x[s];", Kind::Other),
    ("y[d] min= x[d] + w;", Kind::Other),
    ("y[d] min= w;", Kind::Other),
    ("y[d] min= x[s] + w; y[d] min= w;", Kind::Other),
];

// The body of a function, and the shapes of its two statements.
const PAIRS: [(&str, Option<(Kind, Kind)>); 12] = [
    (
        "x[d] max= x[s] + 1; y[d] += y[s];",
        Some((Kind::Sum(1), Kind::Entry)),
    ),
    (
        "y[d] += y[s]; x[d] max= x[s] + 1;",
        Some((Kind::Entry, Kind::Sum(1))),
    ),
    (
        "x[d] += 1; y[d] min= s;",
        Some((Kind::Number(1), Kind::Source)),
    ),
    (
        "y[d] min= s; x[d] += -3;",
        Some((Kind::Source, Kind::Number(-3))),
    ),
    (
        "x[d] += x[s] - k; y[d] min= x[s] + w;",
        Some((Kind::Sum(3), Kind::Weighted(Operator::Add))),
    ),
    (
        "x[d] += x[s] - k; y[d] min= w + x[s];",
        Some((Kind::Sum(3), Kind::Weighted(Operator::Add))),
    ),
    (
        "y[d] += w * x[s]; x[d] max= x[s];",
        Some((Kind::Weighted(Operator::Multiply), Kind::Entry)),
    ),
    (
        "x[d] += 1; x[d] += x[s];",
        Some((Kind::Number(1), Kind::Entry)),
    ),
    ("x[d] += 1; y[d] min= d;", None),
    ("x[d] += 1; if s < d y[d] += 1; end", None),
    ("x[d] += 1; y[d] += 1; y[d] += 1;", None),
    ("x[d] += 1;", None),
];

// What is looked at of a shape.
fn kind_of(shape: Shape) -> Kind {
    match shape {
        Shape::Source(_, _) => Kind::Source,
        Shape::Entry(_, _, _) => Kind::Entry,
        Shape::EntryPlus(_, _, 0, number) => Kind::Sum(number),
        Shape::EntryWith(_, _, 0, operator) => Kind::Weighted(operator),
        Shape::Constant(_, _, number) => Kind::Number(number),
        _ => Kind::Other,
    }
}

fn kinds_of(pair: Option<ShapePair>) -> Option<(Kind, Kind)> {
    match pair {
        Some(pair) => Some((kind_of(pair.first), kind_of(pair.second))),
        None => None,
    }
}

// The kernel of an edge function with this body, or none if it makes no program.
fn kernel_of(alloc: Global, body: &str) -> Result<Option<EdgeKernel>, AllocError> {
    let text = format!(in alloc;
        "{HEAD}func f(s : Vertex, d : Vertex, w : int)\n  {body}\nend\nfunc main()\nend\n"
    )?;
    let Some(program) = checked(alloc, text.as_str().as_bytes()) else {
        return Ok(None);
    };
    match program.edge_functions.first() {
        Some(function) => Ok(Some(EdgeKernel::of_function(alloc, function)?)),
        None => Ok(None),
    }
}

#[test]
fn edge_functions_have_their_shape(rt: HostRuntime) -> Result<(), Fail> {
    for (body, kind) in &ROWS {
        let found = match kernel_of(rt.alloc(), body)? {
            Some(kernel) => Some(kind_of(kernel.shape())),
            None => None,
        };
        assert!(rt; found == Some(*kind), "{body}");
    }
    Ok(())
}

#[test]
fn edge_functions_of_two_statements_have_their_shapes(rt: HostRuntime) -> Result<(), Fail> {
    for (body, kinds) in &PAIRS {
        let found = match kernel_of(rt.alloc(), body)? {
            Some(kernel) => Some(kinds_of(kernel.shape_pair())),
            None => None,
        };
        assert!(rt; found == Some(*kinds), "{body}");
    }
    Ok(())
}
