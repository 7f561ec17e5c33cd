//! Initializers and the ends of applies: what variables, constants and sets get.
ghost use Rattle.std.specs.Prelude.{◌≡◌, ◌||◌, Some};
ghost use Rattle.syntax.specs.SourceViews.{ends_tree, initial_tree};
ghost use Rattle.typed_tree.specs.BoolExpressionTree.{bool_expression_tree};
ghost use Rattle.typed_tree.specs.IntExpressionTree.{int_expression_tree};
ghost use Rattle.expression_types.specs.Faults.{ReportsFaults, outcome, earlier};
ghost use Rattle.initializer_types.specs.Views.{checker_of, apply_end_tree, initializer_tree};
ghost use Rattle.initializer_types.specs.Applies.{apply_named, named_apply_tree};
ghost use Rattle.initializer_types.specs.Initial.{ErrorInitializer, initializer_condition, edge_function, apply_end_of, ends_given, filter_function, filter_named, filtered_set, initializer_of, given_filter, initializer_integer, is_all, is_degrees, is_edges, is_loaded, is_sound, names_error, is_error_end, is_wrong, lacks_weights, loaded, initializer_members, initial_modified as vertices_modified, new_set, of_edges, takes_edge_weight, vertex_function, writes_vector};

use crate::checker::Checker;
use crate::wanted::{condition_of, integer_of, members_of};
use expression_types::{
    Entity, Fault, Scope, TypeRule, Value, entity, note, set_named, type_expression, vector_named,
};
use std::alloc::AllocError;
use syntax::{Ends as WrittenEnds, Initial, Name};
use typed_tree::{ApplyEnds, BoolExpression, IntExpression, SetValue, VertexFilter};

/// What an initial or assigned value is.
pub enum Initializer {
    /// An expression's value.
    Typed(Value),
    /// What a set gets.
    Members(SetValue),
    /// The edges.
    Loaded,
    /// The out-degrees.
    Degrees,
    /// It has a faulty part.
    Error,
}

impl Drop for Initializer {
    fn drop(self) {
        match self {
            Initializer::Typed(_) => {}
            Initializer::Members(_)
            | Initializer::Loaded
            | Initializer::Degrees
            | Initializer::Error => {}
        }
    }
}

/// What the names of an apply mean.
#[derive(Clone, Copy)]
pub struct NamedApply {
    /// What it is on: the edges, or a vertex set.
    pub target: Entity,
    /// The sources.
    pub from: ApplyEnd,
    /// The destinations.
    pub to: ApplyEnd,
    pub function: Entity,
}

/// Which vertices an end lets through.
#[derive(Clone, Copy)]
pub enum ApplyEnd {
    /// All: none is given.
    Absent,
    /// Those of a set, or those that a filter passes.
    Given(VertexFilter),
    /// What is named is no vertex set and no filter.
    Wrong,
    /// The name is not visible, or its declaration is faulty.
    Error,
}

impl Initializer {
    /// What a variable of type int gets. The fault is noted where it is none.
    pub fn into_integer(self, at: usize, first_fault: &mut Option<Fault>) -> IntExpression
        ensures { outcome first_fault.old (initializer_integer at (initializer_tree self)) ≡ (int_expression_tree result, first_fault.new) }
    {
        match self {
            Initializer::Typed(value) => integer_of(at, value, first_fault),
            Initializer::Error => IntExpression::Number(0),
            Initializer::Members(_) | Initializer::Loaded | Initializer::Degrees => {
                note(first_fault, at, TypeRule::WrongType);
                IntExpression::Number(0)
            }
        }
    }

    /// What a variable of type bool gets. The fault is noted where it is none.
    pub fn into_condition(self, at: usize, first_fault: &mut Option<Fault>) -> BoolExpression
        ensures { outcome first_fault.old (initializer_condition at (initializer_tree self)) ≡ (bool_expression_tree result, first_fault.new) }
    {
        match self {
            Initializer::Typed(value) => condition_of(at, value, first_fault),
            Initializer::Error => BoolExpression::Literal(false),
            Initializer::Members(_) | Initializer::Loaded | Initializer::Degrees => {
                note(first_fault, at, TypeRule::WrongType);
                BoolExpression::Literal(false)
            }
        }
    }

    /// What a variable that is a vertex set gets. The fault is noted where it is none.
    pub fn into_members(self, at: usize, first_fault: &mut Option<Fault>) -> SetValue
        ensures { outcome first_fault.old (initializer_members at (initializer_tree self)) ≡ (result, first_fault.new) }
    {
        match self {
            Initializer::Typed(value) => members_of(at, value, first_fault),
            Initializer::Members(members) => members,
            Initializer::Error => SetValue::Empty,
            Initializer::Loaded | Initializer::Degrees => {
                note(first_fault, at, TypeRule::WrongType);
                SetValue::Empty
            }
        }
    }
}

impl Initializer {
    /// Whether no part of it is faulty.
    pub fn is_sound(&self) -> bool
        ensures { result ≡ is_sound (initializer_tree self.now) }
    {
        match self {
            Initializer::Typed(value) => !value.is_error(),
            Initializer::Error => false,
            Initializer::Members(_) | Initializer::Loaded | Initializer::Degrees => true,
        }
    }

    /// Whether it is all vertices.
    pub fn is_all(&self) -> bool
        ensures { result ≡ is_all (initializer_tree self.now) }
    {
        match self {
            Initializer::Members(SetValue::All) => true,
            _ => false,
        }
    }

    /// Whether it is the edges.
    pub fn is_loaded(&self) -> bool
        ensures { result ≡ is_loaded (initializer_tree self.now) }
    {
        match self {
            Initializer::Loaded => true,
            _ => false,
        }
    }

    /// Whether it is the out-degrees.
    pub fn is_degrees(&self) -> bool
        ensures { result ≡ is_degrees (initializer_tree self.now) }
    {
        match self {
            Initializer::Degrees => true,
            _ => false,
        }
    }
}

impl ApplyEnd {
    fn is_wrong(self) -> bool
        ensures { result ≡ is_wrong (apply_end_tree self) }
    {
        match self {
            ApplyEnd::Wrong => true,
            _ => false,
        }
    }

    /// Whether its name is not visible, or has a faulty declaration.
    pub fn is_error(self) -> bool
        ensures { result ≡ is_error_end (apply_end_tree self) }
    {
        match self {
            ApplyEnd::Error => true,
            _ => false,
        }
    }

    /// What it lets through, or `None` where that is all or not known.
    fn filter(self) -> Option<VertexFilter>
        ensures { result ≡ given_filter (apply_end_tree self) }
    {
        match self {
            ApplyEnd::Given(filter) => Some(filter),
            _ => None,
        }
    }
}

/// Whether one of the ends is wrong.
pub fn is_one_wrong(from: ApplyEnd, to: ApplyEnd) -> bool
    ensures { result ≡ (is_wrong (apply_end_tree from) || is_wrong (apply_end_tree to)) }
{
    from.is_wrong() || to.is_wrong()
}

/// The ends between which an apply looks at edges.
pub fn ends_of(from: ApplyEnd, to: ApplyEnd) -> ApplyEnds
    ensures { result ≡ ends_given (apply_end_tree from) (apply_end_tree to) }
{
    ApplyEnds {
        from: from.filter(),
        to: to.filter(),
    }
}

/// What the names of an apply mean: of its target, its ends and its function, in the order of the text.
pub fn read_apply(
    scope: &Scope,
    target: &Name,
    ends: &WrittenEnds,
    function: &Name,
    first_fault: &mut Option<Fault>,
) -> NamedApply
    ensures { outcome first_fault.old (apply_named scope.now target.now (ends_tree ends.now) function.now) ≡ (named_apply_tree result, first_fault.new) }
{
    NamedApply {
        target: entity(scope, target, first_fault),
        from: read_end(scope, &ends.from, first_fault),
        to: read_end(scope, &ends.to, first_fault),
        function: entity(scope, function, first_fault),
    }
}

/// What an end lets through.
fn read_end(scope: &Scope, name: &Option<Name>, first_fault: &mut Option<Fault>) -> ApplyEnd
    ensures { outcome first_fault.old (apply_end_of scope.now name.now) ≡ (apply_end_tree result, first_fault.new) }
{
    match name {
        None => ApplyEnd::Absent,
        Some(name) => end_named(entity(scope, name, first_fault)),
    }
}

/// What an end lets through that a name says.
fn end_named(entity: Entity) -> ApplyEnd
    ensures { apply_end_tree result ≡ filter_named entity }
{
    match entity {
        Entity::ConstantSet(slot) | Entity::SetVariable(slot) => {
            ApplyEnd::Given(VertexFilter::Members(slot))
        }
        Entity::Filter(index) => ApplyEnd::Given(VertexFilter::Function(index)),
        Entity::Error => ApplyEnd::Error,
        _ => ApplyEnd::Wrong,
    }
}

/// The index of the edge function that a name is, or `None` where it is none.
pub fn edge_function_named(entity: Entity) -> Option<usize>
    ensures { result ≡ edge_function entity }
{
    match entity {
        Entity::EdgeFunction(index, _) => Some(index),
        _ => None,
    }
}

/// The index of the vertex function that a name is, or `None` where it is none.
pub fn vertex_function_named(entity: Entity) -> Option<usize>
    ensures { result ≡ vertex_function entity }
{
    match entity {
        Entity::VertexFunction(index) => Some(index),
        _ => None,
    }
}

/// The index of the filter that a name is, or `None` where it is none.
fn filter_named_by(entity: Entity) -> Option<usize>
    ensures { result ≡ filter_function entity }
{
    match entity {
        Entity::Filter(index) => Some(index),
        _ => None,
    }
}

/// Whether the declaration of a name is faulty.
pub fn is_error_entity(entity: Entity) -> bool
    ensures { result ≡ names_error entity }
{
    match entity {
        Entity::Error => true,
        _ => false,
    }
}

/// Whether a name is that of the edges.
pub fn is_edges_entity(entity: Entity) -> bool
    ensures { result ≡ is_edges entity }
{
    match entity {
        Entity::Edges(_) => true,
        _ => false,
    }
}

/// Whether a name is that of an edgeset in which no weights are seen, and the other that of a function that
/// reads them.
pub fn are_weights_lacking(edges: Entity, function: Entity) -> bool
    ensures { result ≡ lacks_weights edges function }
{
    match edges {
        Entity::Edges(weights) => !weights && is_weight_read(function),
        _ => false,
    }
}

/// Whether a name is that of an edge function whose third parameter is the edge's weight.
fn is_weight_read(function: Entity) -> bool
    ensures { result ≡ takes_edge_weight function }
{
    match function {
        Entity::EdgeFunction(_, weighted) => weighted,
        _ => false,
    }
}

/// A value that breaks a rule.
fn wrong(at: usize, first_fault: &mut Option<Fault>) -> Initializer
    ensures value { initializer_tree result ≡ ErrorInitializer }
    ensures first_fault { first_fault.new ≡ Some (earlier first_fault.old (record { at = at; rule = TypeRule.WrongType })) }
{
    note(first_fault, at, TypeRule::WrongType);
    Initializer::Error
}

/// What a value is that is in the statement or declaration whose first token is at this offset. Its faults are noted, and all
/// else that the checker knows is unchanged.
///
/// The error means that memory ran out.
pub fn read_initial(
    checker: &mut Checker,
    at: usize,
    initial: &Initial,
) -> Result<Initializer, AllocError>
    ensures read { ReportsFaults initializer_tree checker.old.first_fault checker.new.first_fault result
        (initializer_of (checker_of checker.old) at (initial_tree initial.now)) }
    ensures kept { checker_of checker.new ≡ checker_of checker.old }
{
    match initial {
        Initial::NewSet(size) => Ok(new_empty_set(at, *size, &mut checker.first_fault)),
        Initial::Load(argument) => Ok(loaded_edges(at, *argument, &mut checker.first_fault)),
        Initial::Vertices(edges) => {
            let edges = entity(&checker.scope, edges, &mut checker.first_fault);
            Ok(on_edges(
                at,
                Initializer::Members(SetValue::All),
                edges,
                &mut checker.first_fault,
            ))
        }
        Initial::OutDegrees(edges) => {
            let edges = entity(&checker.scope, edges, &mut checker.first_fault);
            Ok(on_edges(at, Initializer::Degrees, edges, &mut checker.first_fault))
        }
        Initial::Filter { set, test } => {
            let set = entity(&checker.scope, set, &mut checker.first_fault);
            let test = entity(&checker.scope, test, &mut checker.first_fault);
            Ok(filter(at, set, test, &mut checker.first_fault))
        }
        Initial::ApplyModified {
            edges,
            ends,
            function,
            vector,
        } => {
            let apply = read_apply(
                &checker.scope,
                edges,
                ends,
                function,
                &mut checker.first_fault,
            );
            let vector = entity(&checker.scope, vector, &mut checker.first_fault);
            Ok(modified(checker, at, apply, vector))
        }
        Initial::Value(expression) => {
            let value = type_expression(
                checker.alloc,
                &checker.scope,
                at,
                expression,
                &mut checker.first_fault,
            )?;
            Ok(Initializer::Typed(value))
        }
    }
}

fn new_empty_set(at: usize, size: i64, first_fault: &mut Option<Fault>) -> Initializer
    ensures { outcome first_fault.old (new_set at size) ≡ (initializer_tree result, first_fault.new) }
{
    if size == 0 {
        Initializer::Members(SetValue::Empty)
    } else {
        wrong(at, first_fault)
    }
}

fn loaded_edges(at: usize, argument: i64, first_fault: &mut Option<Fault>) -> Initializer
    ensures { outcome first_fault.old (loaded at argument) ≡ (initializer_tree result, first_fault.new) }
{
    if argument == 1 {
        Initializer::Loaded
    } else {
        wrong(at, first_fault)
    }
}

/// A value that belongs to the edges.
fn on_edges(
    at: usize,
    value: Initializer,
    entity: Entity,
    first_fault: &mut Option<Fault>,
) -> Initializer
    ensures { outcome first_fault.old (of_edges at (initializer_tree value) entity) ≡ (initializer_tree result, first_fault.new) }
{
    if is_error_entity(entity) {
        Initializer::Error
    } else if is_edges_entity(entity) {
        value
    } else {
        wrong(at, first_fault)
    }
}

/// The members of a set that a filter passes.
fn filter(at: usize, set: Entity, test: Entity, first_fault: &mut Option<Fault>) -> Initializer
    ensures { outcome first_fault.old (filtered_set at set test) ≡ (initializer_tree result, first_fault.new) }
{
    if is_error_entity(set) || is_error_entity(test) {
        return Initializer::Error;
    }
    match (set_named(set), filter_named_by(test)) {
        (Some(slot), Some(index)) => Initializer::Members(SetValue::Filter(slot, index)),
        _ => wrong(at, first_fault),
    }
}

/// The vertices that an edge apply changes.
fn modified(checker: &mut Checker, at: usize, apply: NamedApply, vector: Entity) -> Initializer
    ensures modified { outcome checker.old.first_fault (vertices_modified (checker_of checker.old) at apply.target (apply_end_tree apply.from)
        (apply_end_tree apply.to) apply.function vector) ≡ (initializer_tree result, checker.new.first_fault) }
    ensures kept { checker_of checker.new ≡ checker_of checker.old }
{
    let NamedApply {
        target: edges,
        from,
        to,
        function,
    } = apply;
    let unclear = is_error_entity(edges)
        || from.is_error()
        || to.is_error()
        || is_error_entity(function)
        || is_error_entity(vector);
    if unclear {
        return Initializer::Error;
    }
    if !is_edges_entity(edges) || is_one_wrong(from, to) || are_weights_lacking(edges, function) {
        return wrong(at, &mut checker.first_fault);
    }
    let (Some(function), Some(vector)) = (edge_function_named(function), vector_named(vector))
    else {
        return wrong(at, &mut checker.first_fault);
    };
    if !is_written(checker, function, vector) {
        return wrong(at, &mut checker.first_fault);
    }
    Initializer::Members(SetValue::Modified(ends_of(from, to), function, vector))
}

/// Whether an edge function writes a vector.
fn is_written(checker: &Checker, function: usize, vector: usize) -> bool
    ensures { result ≡ writes_vector checker.now.written.items function vector }
{
    match checker.written.get(function) {
        Some(writes) => writes.get(vector).is_some(),
        None => false,
    }
}
