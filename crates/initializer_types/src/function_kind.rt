//! Kinds of functions: by name, parameters and result.
ghost use Rattle.std.specs.Prelude.{◌≡◌, ◌∷◌, [], None, map, option_map};
ghost use Rattle.syntax.specs.SourceTrees.{ParameterTree};
ghost use Rattle.syntax.specs.SourceViews.{parameter_tree};
ghost use Rattle.initializer_types.specs.DeclarationForms.{is_bool_type as bool_type, is_int_type as int_type, is_vertex_type as vertex_type, kind as kind_by, kind_of as kind_by_parameters};
ghost use Rattle.initializer_types.specs.Views.{function_kind_tree};

use syntax::{DeclaredType, Parameter};

/// What a function is, by its name, its parameters and its result.
#[derive(Clone, Copy)]
pub enum FunctionKind {
    /// The function that is run, and whether it has neither parameters nor a result.
    Main(bool),
    /// An edge function, and whether its third parameter is the edge's weight.
    Edge(bool),
    /// A function of one vertex without a result.
    Vertex,
    /// A function of one vertex whose result is a bool.
    Filter,
    /// None of these.
    Other,
}

/// What a function is, by its name, its parameters and its result.
pub fn kind_of(name: &[u8], parameters: &[Parameter], gives: &Option<Parameter>) -> FunctionKind
    ensures { function_kind_tree result ≡ kind_by name.now (map parameter_tree parameters.now) (option_map parameter_tree gives.now) }
{
    if name == b"main".as_slice() {
        return FunctionKind::Main(parameters.is_empty() && gives.is_none());
    }
    kind_by_signature(parameters, gives)
}

/// What a function is that is not the one that is run.
fn kind_by_signature(parameters: &[Parameter], gives: &Option<Parameter>) -> FunctionKind
    ensures { function_kind_tree result ≡ kind_by_parameters (map parameter_tree parameters.now) (option_map parameter_tree gives.now) }
{
    let Some((first, others)) = parameters.split_first() else {
        return FunctionKind::Other;
    };
    let Some((second, more)) = others.split_first() else {
        return kind_on_vertex(first.declared, gives);
    };
    let fits = gives.is_none() && is_vertex(first.declared) && is_vertex(second.declared);
    if fits {
        kind_on_edge(more)
    } else {
        FunctionKind::Other
    }
}

/// What a function of two vertices and no result is, by its parameters after them.
fn kind_on_edge(more: &[Parameter]) -> FunctionKind
    ensures { (src dst : ParameterTree) → src.declared ≡ DeclaredType.Vertex → dst.declared ≡ DeclaredType.Vertex
        → function_kind_tree result ≡ kind_by_parameters (src ∷ dst ∷ map parameter_tree more.now) None }
{
    let Some((third, others)) = more.split_first() else {
        return FunctionKind::Edge(false);
    };
    if others.is_empty() && is_int(third.declared) {
        FunctionKind::Edge(true)
    } else {
        FunctionKind::Other
    }
}

/// What a function of one parameter is.
fn kind_on_vertex(parameter: DeclaredType, gives: &Option<Parameter>) -> FunctionKind
    ensures { (p : ParameterTree) → p.declared ≡ parameter → function_kind_tree result ≡ kind_by_parameters (p ∷ []) (option_map parameter_tree gives.now) }
{
    if !is_vertex(parameter) {
        return FunctionKind::Other;
    }
    match gives {
        None => FunctionKind::Vertex,
        Some(gives) => {
            if is_bool(gives.declared) {
                FunctionKind::Filter
            } else {
                FunctionKind::Other
            }
        }
    }
}

/// Whether a type is that of vertices.
pub fn is_vertex(declared: DeclaredType) -> bool
    ensures { result ≡ vertex_type declared }
{
    match declared {
        DeclaredType::Vertex => true,
        _ => false,
    }
}

/// Whether a type is that of integers.
pub fn is_int(declared: DeclaredType) -> bool
    ensures { result ≡ int_type declared }
{
    match declared {
        DeclaredType::Int => true,
        _ => false,
    }
}

fn is_bool(declared: DeclaredType) -> bool
    ensures { result ≡ bool_type declared }
{
    match declared {
        DeclaredType::Bool => true,
        _ => false,
    }
}
