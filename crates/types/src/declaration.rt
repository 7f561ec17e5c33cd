//! Typing of declarations: constants and functions.
ghost use Rattle.std.specs.Prelude.{◌≡◌, OnOk, Some, false, if◌then◌else◌, map, option_map, pos};
ghost use Rattle.syntax.specs.SourceViews.{block_tree as source_block, declaration_tree, initial_tree, parameter_tree};
ghost use Rattle.typed_tree.specs.BlockTree.{block_tree};
ghost use Rattle.typed_tree.specs.ProgramTree.{call_tree, program_tree};
ghost use Rattle.types.specs.Program.{program_tree_of};
ghost use Rattle.typed_tree.specs.FunctionStatementTree.{function_tree, function_statements_tree};
ghost use Rattle.expression_types.specs.ScopeTree.{KeepsNames};
ghost use Rattle.expression_types.specs.Faults.{earlier, ReportsFaults, outcome};
ghost use Rattle.initializer_types.specs.Initial.{ErrorInitializer, is_sound};
ghost use Rattle.initializer_types.specs.Views.{checker_of, initializer_tree, function_kind_tree};
ghost use Rattle.types.specs.Declaration.{declaration_typed, declarations_typed, declare_bool, declare_constant, declare_constant_as, declare_edges, declare_int, declare_name, declare_set, declare_vector, edge_function_declared, function_declared, has_all, begins, inside_of, literal_or_fault, kind_fits, loads, main_declared, opened, only_edges, parameter, parameters_declared, result_declared, result_entity, steps_declared, takes_weight as weight_taken, with_main_block};
ghost use Rattle.types.specs.inside.Declaration.{declared_of};
ghost use Rattle.initializer_types.specs.DeclarationForms.{literal_condition, literal_integer};

use crate::block::statements;
use crate::function::FunctionBlock;
use crate::statement::MainBlock;
use expression_types::{Entity, Fault, Inside, TypeRule, note};
use initializer_types::{
    Checker, FunctionKind, Initializer, Reductions, condition_literal, declare, integer_literal,
    is_int, is_vertex, kind_of, read_initial,
};
use std::alloc::AllocError;
use syntax::{Declaration, DeclaredType, Initial, Name, Parameter, Statement};
use typed_tree::{
    Endpoint, Function, FunctionStatement, InitialValue, MainStatement, ScheduleCall, Typed,
    VarRef, Vector,
};

/// What was declared so far.
pub(crate) struct Declared {
    pub(crate) checker: Checker,
    pub(crate) edges: Option<usize>,
    pub(crate) vectors: Vec<Vector>,
    pub(crate) sets: Vec<usize>,
    pub(crate) edge_functions: Vec<Function>,
    pub(crate) vertex_functions: Vec<Function>,
    pub(crate) filters: Vec<Function>,
    pub(crate) main: Option<Vec<MainStatement>>,
}

impl Drop for Declared {
    fn drop(self) {
        let Declared {
            checker: _,
            edges: _,
            vectors: _,
            sets: _,
            edge_functions: _,
            vertex_functions: _,
            filters: _,
            main: _,
        } = self;
    }
}

impl Declared {
    /// The program of what was declared, with these statements to run and this schedule.
    pub(crate) fn into_program(self, main: Vec<MainStatement>, schedule: Vec<ScheduleCall>) -> Typed
        ensures { program_tree result ≡ program_tree_of (declared_of self) (block_tree main.items) (map call_tree schedule.items) }
    {
        let Declared {
            checker,
            edges,
            vectors,
            sets,
            edge_functions,
            vertex_functions,
            filters,
            main: _,
        } = self;
        let (names, labels) = checker.into_names();
        Typed {
            names,
            labels,
            edges,
            vectors,
            sets,
            edge_functions,
            vertex_functions,
            filters,
            main,
            schedule,
        }
    }
}

/// The parts of a constant's declaration. `at` is the offset of its first token.
#[derive(Clone, Copy)]
struct WrittenConstant<'a> {
    at: usize,
    constant: &'a Parameter,
    initial: &'a Initial,
}

/// The parts of a function's declaration. `at` is the offset of its first token, `gives` its result.
#[derive(Clone, Copy)]
struct WrittenFunction<'a> {
    at: usize,
    name: &'a Name,
    parameters: &'a [Parameter],
    gives: &'a Option<Parameter>,
    body: &'a [Statement],
}

/// All declarations, in the order of the text.
pub(crate) fn declare_all(
    declarations: &[Declaration],
    declared: &mut Declared,
) -> Result<(), AllocError>
    ensures { ReportsFaults (λ _. declared_of declared.new) declared.old.checker.first_fault declared.new.checker.first_fault result
        (declarations_typed (declared_of declared.old) (map declaration_tree declarations.now)) }
{
    'declarations: for declaration in declarations {
        declare_one(declaration, declared)?;
    }
    Ok(())
}

fn declare_one(declaration: &Declaration, declared: &mut Declared) -> Result<(), AllocError>
    ensures { ReportsFaults (λ _. declared_of declared.new) declared.old.checker.first_fault declared.new.checker.first_fault result
        (declaration_typed (declared_of declared.old) (declaration_tree declaration.now)) }
{
    match declaration {
        Declaration::Constant {
            at,
            constant,
            initial,
        } => {
            let written = WrittenConstant {
                at: *at,
                constant,
                initial,
            };
            constant_of(written, declared)
        }
        Declaration::Function {
            at,
            name,
            parameters,
            result: gives,
            body,
        } => {
            let written = WrittenFunction {
                at: *at,
                name,
                parameters,
                gives,
                body,
            };
            match kind_of(name.bytes(), parameters, gives) {
                FunctionKind::Main(fits) => { main_function(fits, written, declared) }
                other => function(other, written, declared),
            }
        }
    }
}

/// Makes a name visible, and puts it into the table of names.
fn name_is(name: &Name, entity: Entity, declared: &mut Declared) -> Result<(), AllocError>
    ensures { ReportsFaults (λ _. declared_of declared.new) declared.old.checker.first_fault declared.new.checker.first_fault result (declare_name (declared_of declared.old) name.now entity) }
{
    declare(&mut declared.checker, name, entity)
}

fn constant_of(written: WrittenConstant<'_>, declared: &mut Declared) -> Result<(), AllocError>
    ensures { ReportsFaults (λ _. declared_of declared.new) declared.old.checker.first_fault declared.new.checker.first_fault result
        (declare_constant (declared_of declared.old) written.entry.at (parameter_tree written.entry.constant.now) (initial_tree written.entry.initial.now)) }
{
    let initializer = read_initial(&mut declared.checker, written.at, written.initial)?;
    constant_from(written, initializer, declared)
}

fn constant_from(
    written: WrittenConstant<'_>,
    initializer: Initializer,
    declared: &mut Declared,
) -> Result<(), AllocError>
    ensures { ReportsFaults (λ _. declared_of declared.new) declared.old.checker.first_fault declared.new.checker.first_fault result
        (declare_constant_as (declared_of declared.old) written.entry.at written.entry.constant.now.name (initial_tree written.entry.initial.now)
        written.entry.constant.now.declared (initializer_tree initializer)) }
{
    match written.constant.declared {
        DeclaredType::Int => integer(written, initializer, declared),
        DeclaredType::Bool => condition(written, initializer, declared),
        DeclaredType::Vertex => {
            note(
                &mut declared.checker.first_fault,
                written.at,
                TypeRule::WrongType,
            );
            name_is(&written.constant.name, Entity::Error, declared)
        }
        DeclaredType::VertexSet => set(written, initializer, declared),
        DeclaredType::Vector => vector(written, initializer, declared),
        DeclaredType::EdgeSet => edges(written, false, initializer, declared),
        DeclaredType::WeightedEdgeSet => edges(written, true, initializer, declared),
    }
}

/// Notes that a value is no literal, where no part of it is faulty.
fn note_unless_error(at: usize, initializer: &Initializer, first_fault: &mut Option<Fault>)
    ensures { first_fault.new ≡ (if is_sound (initializer_tree initializer.now) then Some
        (earlier first_fault.old (record { at = at; rule = TypeRule.WrongType })) else first_fault.old) }
{
    if initializer.is_sound() {
        note(first_fault, at, TypeRule::WrongType);
    }
}

fn integer(
    written: WrittenConstant<'_>,
    initializer: Initializer,
    declared: &mut Declared,
) -> Result<(), AllocError>
    ensures { ReportsFaults (λ _. declared_of declared.new) declared.old.checker.first_fault declared.new.checker.first_fault result
        (declare_int (declared_of declared.old) written.entry.at written.entry.constant.now.name (initializer_tree initializer)
        (initial_tree written.entry.initial.now)) }
{
    let value = literal(
        written.at,
        initializer,
        written.initial,
        &mut declared.checker.first_fault,
    );
    let index = declared.checker.names.len();
    name_is(
        &written.constant.name,
        Entity::IntConstant(index, value),
        declared,
    )
}

/// The number that a constant is. The fault is noted where it is none.
fn literal(
    at: usize,
    initializer: Initializer,
    initial: &Initial,
    first_fault: &mut Option<Fault>,
) -> i64
    ensures { outcome first_fault.old (literal_or_fault at (is_sound (initializer_tree initializer)) (pos 0)
        (literal_integer (initial_tree initial.now))) ≡ (result, first_fault.new) }
{
    match integer_literal(initial) {
        Some(n) => n,
        None => {
            note_unless_error(at, &initializer, first_fault);
            0
        }
    }
}

fn condition(
    written: WrittenConstant<'_>,
    initializer: Initializer,
    declared: &mut Declared,
) -> Result<(), AllocError>
    ensures { ReportsFaults (λ _. declared_of declared.new) declared.old.checker.first_fault declared.new.checker.first_fault result
        (declare_bool (declared_of declared.old) written.entry.at written.entry.constant.now.name (initializer_tree initializer)
        (initial_tree written.entry.initial.now)) }
{
    let value = truth_literal(
        written.at,
        initializer,
        written.initial,
        &mut declared.checker.first_fault,
    );
    let index = declared.checker.names.len();
    name_is(
        &written.constant.name,
        Entity::BoolConstant(index, value),
        declared,
    )
}

/// The truth value that a constant is. The fault is noted where it is none.
fn truth_literal(
    at: usize,
    initializer: Initializer,
    initial: &Initial,
    first_fault: &mut Option<Fault>,
) -> bool
    ensures { outcome first_fault.old (literal_or_fault at (is_sound (initializer_tree initializer)) false
        (literal_condition (initial_tree initial.now))) ≡ (result, first_fault.new) }
{
    match condition_literal(initial) {
        Some(b) => b,
        None => {
            note_unless_error(at, &initializer, first_fault);
            false
        }
    }
}

fn set(
    written: WrittenConstant<'_>,
    initializer: Initializer,
    declared: &mut Declared,
) -> Result<(), AllocError>
    ensures { ReportsFaults (λ _. declared_of declared.new) declared.old.checker.first_fault declared.new.checker.first_fault result
        (declare_set (declared_of declared.old) written.entry.at written.entry.constant.now.name (initializer_tree initializer)) }
{
    want_all(written.at, initializer, &mut declared.checker.first_fault);
    let slot = VarRef {
        index: declared.sets.len(),
        name: declared.checker.names.len(),
    };
    name_is(&written.constant.name, Entity::ConstantSet(slot), declared)?;
    declared.sets.push(slot.name)?;
    Ok(())
}

/// Notes the fault where a constant set is not given all vertices.
fn want_all(at: usize, initializer: Initializer, first_fault: &mut Option<Fault>)
    ensures { outcome first_fault.old (has_all at (initializer_tree initializer)) ≡ (ErrorInitializer, first_fault.new) }
{
    if initializer.is_sound() && !initializer.is_all() {
        note(first_fault, at, TypeRule::WrongType);
    }
}

fn vector(
    written: WrittenConstant<'_>,
    initializer: Initializer,
    declared: &mut Declared,
) -> Result<(), AllocError>
    ensures { ReportsFaults (λ _. declared_of declared.new) declared.old.checker.first_fault declared.new.checker.first_fault result
        (declare_vector (declared_of declared.old) written.entry.at written.entry.constant.now.name (initializer_tree initializer)
        (initial_tree written.entry.initial.now)) }
{
    let beginning = beginning_of(
        written.at,
        initializer,
        written.initial,
        &mut declared.checker.first_fault,
    );
    let index = declared.checker.names.len();
    let entity = Entity::Vector(declared.vectors.len());
    name_is(&written.constant.name, entity, declared)?;
    declared.vectors.push(Vector {
        name: index,
        beginning,
    })?;
    Ok(())
}

/// What a vector begins with. The fault is noted where it is nothing that one can.
fn beginning_of(
    at: usize,
    initializer: Initializer,
    initial: &Initial,
    first_fault: &mut Option<Fault>,
) -> InitialValue
    ensures { outcome first_fault.old (begins at (initializer_tree initializer) (initial_tree initial.now)) ≡ (result, first_fault.new) }
{
    if initializer.is_degrees() {
        return InitialValue::OutDegrees;
    }
    InitialValue::Number(literal(at, initializer, initial, first_fault))
}

fn edges(
    written: WrittenConstant<'_>,
    weights: bool,
    initializer: Initializer,
    declared: &mut Declared,
) -> Result<(), AllocError>
    ensures { ReportsFaults (λ _. declared_of declared.new) declared.old.checker.first_fault declared.new.checker.first_fault result
        (declare_edges weights (declared_of declared.old) written.entry.at written.entry.constant.now.name (initializer_tree initializer)) }
{
    want_loaded(written.at, initializer, &mut declared.checker.first_fault);
    let index = declared.checker.names.len();
    let name = &written.constant.name;
    let first = only(
        name,
        index,
        declared.edges,
        &mut declared.checker.first_fault,
    );
    name_is(name, Entity::Edges(weights), declared)?;
    declared.edges = first;
    Ok(())
}

/// Notes the fault where a constant edgeset is not loaded.
fn want_loaded(at: usize, initializer: Initializer, first_fault: &mut Option<Fault>)
    ensures { outcome first_fault.old (loads at (initializer_tree initializer)) ≡ (ErrorInitializer, first_fault.new) }
{
    if initializer.is_sound() && !initializer.is_loaded() {
        note(first_fault, at, TypeRule::WrongType);
    }
}

/// The index of the edges' name: the first there is. The fault is noted where there was one.
fn only(
    name: &Name,
    index: usize,
    edges: Option<usize>,
    first_fault: &mut Option<Fault>,
) -> Option<usize>
    ensures { outcome first_fault.old (only_edges name.now index edges) ≡ (result, first_fault.new) }
{
    match edges {
        None => Some(index),
        Some(first) => {
            note(first_fault, name.at(), TypeRule::Redeclared);
            Some(first)
        }
    }
}

/// Where the statements of a function stand.
fn inside(kind: FunctionKind) -> Inside
    ensures { result ≡ inside_of (function_kind_tree kind) }
{
    match kind {
        FunctionKind::Main(_) => Inside::Main,
        FunctionKind::Edge(_) => Inside::EdgeFunction,
        FunctionKind::Vertex | FunctionKind::Other => Inside::VertexFunction,
        FunctionKind::Filter => Inside::Filter,
    }
}

/// Goes into a function: its parameters and its result become visible.
fn open(
    kind: FunctionKind,
    parameters: &[Parameter],
    gives: &Option<Parameter>,
    checker: &mut Checker,
) -> Result<(), AllocError>
    ensures opened { ReportsFaults (λ _. checker_of checker.new) checker.old.first_fault checker.new.first_fault result
        (opened (checker_of checker.old) (function_kind_tree kind) (map parameter_tree parameters.now) (option_map parameter_tree gives.now)) }
    ensures kept { OnOk result (KeepsNames checker.old.scope checker.new.scope) }
{
    checker.scope.enter(inside(kind));
    checker.writes = Reductions::new(checker.alloc);
    declare_parameters(takes_weight(kind), parameters, checker)?;
    declare_result(kind, gives, checker)
}

/// Whether it is an edge function whose third parameter is the edge's weight.
fn takes_weight(kind: FunctionKind) -> bool
    ensures { result ≡ weight_taken (function_kind_tree kind) }
{
    match kind {
        FunctionKind::Edge(weighted) => weighted,
        FunctionKind::Main(_) | FunctionKind::Vertex | FunctionKind::Filter | FunctionKind::Other =>
            false,
    }
}

fn declare_parameters(
    weighted: bool,
    parameters: &[Parameter],
    checker: &mut Checker,
) -> Result<(), AllocError>
    ensures declared { ReportsFaults (λ _. checker_of checker.new) checker.old.first_fault checker.new.first_fault result
        (parameters_declared weighted (checker_of checker.old) Endpoint.Source (map parameter_tree parameters.now)) }
    ensures kept { OnOk result (KeepsNames checker.old.scope checker.new.scope) }
{
    let mut endpoint = Endpoint::Source;
    'parameters: for parameter in parameters {
        let entity = parameter_entity(weighted, endpoint, parameter.declared);
        declare(checker, &parameter.name, entity)?;
        endpoint = Endpoint::Destination;
    }
    Ok(())
}

fn parameter_entity(weighted: bool, endpoint: Endpoint, declared: DeclaredType) -> Entity
    ensures { result ≡ parameter weighted endpoint declared }
{
    if is_vertex(declared) {
        Entity::Parameter(endpoint)
    } else if weighted && is_int(declared) {
        Entity::Weight
    } else {
        Entity::Error
    }
}

fn declare_result(
    kind: FunctionKind,
    gives: &Option<Parameter>,
    checker: &mut Checker,
) -> Result<(), AllocError>
    ensures declared { ReportsFaults (λ _. checker_of checker.new) checker.old.first_fault checker.new.first_fault result
        (result_declared (checker_of checker.old) (function_kind_tree kind) (option_map parameter_tree gives.now)) }
    ensures kept { OnOk result (KeepsNames checker.old.scope checker.new.scope) }
{
    match gives {
        None => Ok(()),
        Some(gives) => {
            let entity = entity_of_result(checker, kind);
            declare(checker, &gives.name, entity)
        }
    }
}

fn entity_of_result(checker: &Checker, kind: FunctionKind) -> Entity
    ensures { result ≡ result_entity (checker_of checker.now) (function_kind_tree kind) }
{
    match kind {
        FunctionKind::Filter => Entity::BoolVariable(checker.condition_slot()),
        FunctionKind::Main(_)
        | FunctionKind::Edge(_)
        | FunctionKind::Vertex
        | FunctionKind::Other => Entity::Error,
    }
}

/// The function that is run.
fn main_function(
    fits: bool,
    written: WrittenFunction<'_>,
    declared: &mut Declared,
) -> Result<(), AllocError>
    ensures { ReportsFaults (λ _. declared_of declared.new) declared.old.checker.first_fault declared.new.checker.first_fault result
        (main_declared (declared_of declared.old) fits written.entry.name.now (map parameter_tree written.entry.parameters.now)
        (option_map parameter_tree written.entry.gives.now) (source_block written.entry.body.now)) }
{
    let checker = &mut declared.checker;
    checker.statements = Vec::new(checker.alloc);
    let mark = checker.scope.mark();
    open(
        FunctionKind::Main(fits),
        written.parameters,
        written.gives,
        checker,
    )?;
    let body = statements::<MainBlock>(written.body, checker)?;
    checker.scope.leave(mark);
    name_is(written.name, Entity::Main, declared)?;
    keep_main(fits, body, declared);
    Ok(())
}

/// Keeps the statements of the function that is run, where it has neither parameters nor a result.
fn keep_main(fits: bool, body: Vec<MainStatement>, declared: &mut Declared)
    ensures main { declared_of declared.new ≡ with_main_block (declared_of declared.old) fits (block_tree body.items) }
    ensures first_fault { declared.new.checker.first_fault ≡ declared.old.checker.first_fault }
{
    if fits {
        declared.main = Some(body);
    }
}

/// A function of another kind, or of none.
fn function(
    kind: FunctionKind,
    written: WrittenFunction<'_>,
    declared: &mut Declared,
) -> Result<(), AllocError>
    ensures { ReportsFaults (λ _. declared_of declared.new) declared.old.checker.first_fault declared.new.checker.first_fault result
        (steps_declared (declared_of declared.old) written.entry.at (function_kind_tree kind) written.entry.name.now
        (map parameter_tree written.entry.parameters.now) (option_map parameter_tree written.entry.gives.now) (source_block written.entry.body.now)) }
{
    want_kind(written.at, kind, &mut declared.checker.first_fault);
    let checker = &mut declared.checker;
    let mark = checker.scope.mark();
    open(kind, written.parameters, written.gives, checker)?;
    let steps = statements::<FunctionBlock>(written.body, checker)?;
    checker.scope.leave(mark);
    function_is(kind, written.name, steps, declared)
}

/// Notes the fault where a function is of no kind.
fn want_kind(at: usize, kind: FunctionKind, first_fault: &mut Option<Fault>)
    ensures { (outcome first_fault.old (kind_fits at (function_kind_tree kind))).1 ≡ first_fault.new }
{
    match kind {
        FunctionKind::Other => note(first_fault, at, TypeRule::WrongType),
        FunctionKind::Main(_)
        | FunctionKind::Edge(_)
        | FunctionKind::Vertex
        | FunctionKind::Filter => {}
    }
}

/// Makes a function visible after its statements.
fn function_is(
    kind: FunctionKind,
    name: &Name,
    steps: Vec<FunctionStatement>,
    declared: &mut Declared,
) -> Result<(), AllocError>
    ensures { ReportsFaults (λ _. declared_of declared.new) declared.old.checker.first_fault declared.new.checker.first_fault result
        (function_declared (declared_of declared.old) (function_kind_tree kind) name.now (function_statements_tree steps.items)) }
{
    let function = Function {
        name: declared.checker.names.len(),
        steps,
    };
    match kind {
        FunctionKind::Edge(weighted) => edge_function(name, weighted, function, declared),
        FunctionKind::Vertex => {
            let entity = Entity::VertexFunction(declared.vertex_functions.len());
            name_is(name, entity, declared)?;
            declared.vertex_functions.push(function)?;
            Ok(())
        }
        FunctionKind::Filter => {
            let entity = Entity::Filter(declared.filters.len());
            name_is(name, entity, declared)?;
            declared.filters.push(function)?;
            Ok(())
        }
        FunctionKind::Main(_) | FunctionKind::Other => name_is(name, Entity::Error, declared),
    }
}

/// Makes an edge function visible, and keeps what it writes.
fn edge_function(
    name: &Name,
    weighted: bool,
    function: Function,
    declared: &mut Declared,
) -> Result<(), AllocError>
    ensures { ReportsFaults (λ _. declared_of declared.new) declared.old.checker.first_fault declared.new.checker.first_fault result
        (edge_function_declared weighted (declared_of declared.old) name.now (function_tree function)) }
{
    let entity = Entity::EdgeFunction(declared.edge_functions.len(), weighted);
    name_is(name, entity, declared)?;
    declared.edge_functions.push(function)?;
    let writes = std::mem::replace(
        &mut declared.checker.writes,
        Reductions::new(declared.checker.alloc),
    );
    declared.checker.written.push(writes)?;
    Ok(())
}
