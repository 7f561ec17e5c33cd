//! The values of expressions.
//!
//! A value is total: an index that is no vertex reads as 0. Whether an expression has such an index is
//! a question of its own, which `main` asks first. Operators in a row and signs in a row are loops, so that
//! recursion is left for brackets and indexes.
ghost use Rattle.std.specs.Prelude.{◌≡◌, false, pos, slice_get, slice_index_or};
ghost use Rattle.typed_tree.specs.IntExpressionTree.{int_expression_tree};
ghost use Rattle.typed_tree.specs.BoolExpressionTree.{bool_expression_tree};
ghost use Rattle.algorithm_meaning.specs.Arithmetic.{arithmetic};
ghost use Rattle.plain_run.specs.inside.Chain.{conditions_stay_inside, conditions_truth, negative_times, not_times, operands_stay_inside, operands_value};
ghost use Rattle.plain_run.specs.inside.Seen.{scope_of};
ghost use Rattle.algorithm_meaning.specs.Value.{condition_stays_inside, entry, entry_at, is_vertex, members_of, stays_inside, truth, value, vertex_at};

use crate::state::Environment;
use algorithm_meaning::{SetBinding, arithmetic_of, compare, connect, negate};
use typed_tree::{BoolExpression, Connective, Endpoint, IntExpression, Operand, Sequence};

/// The value of an expression.
#[derive(Clone, Copy, Debug)]
struct Total {
    number: i64,
}

/// The value of an expression of type `int`.
pub(crate) fn evaluate(
    e: &IntExpression,
    vectors: &[Sequence<i64>],
    sets: &[SetBinding],
    scope: &Environment,
) -> i64
    ensures { result ≡ value vectors.now sets.now (scope_of scope.now) (int_expression_tree e.now) }
{
    total_of(e, vectors, sets, scope).number
}

#[cycle(totals)]
#[tactic(auto, using(crate::proofs::Chains::value_negated))]
fn total_of(
    e: &IntExpression,
    vectors: &[Sequence<i64>],
    sets: &[SetBinding],
    scope: &Environment,
) -> Total
    ensures { result.number ≡ value vectors.now sets.now (scope_of scope.now) (int_expression_tree e.now) }
{
    match e {
        IntExpression::Number(n) => Total { number: *n },
        IntExpression::Constant(_, n) => Total { number: *n },
        IntExpression::Variable(slot) => Total {
            number: integer_at(scope, slot.index),
        },
        IntExpression::Parameter(at) => Total {
            number: i64::from(endpoint(scope, *at)),
        },
        IntExpression::Weight => Total {
            number: scope.weight,
        },
        IntExpression::EntryAt(vector, at) => Total {
            number: entry_of(vectors, *vector, endpoint(scope, *at) as usize),
        },
        IntExpression::Entry(vector, subscript) => {
            let subscript = total_of(subscript, vectors, sets, scope);
            Total {
                number: entry_at_index(vectors, *vector, subscript.number),
            }
        }
        IntExpression::SetSize(slot) => Total {
            number: (members_at(sets, slot.index).len() as u64).cast_signed(),
        },
        IntExpression::Negative(signs, e) => after_signs(*signs, total_of(e, vectors, sets, scope)),
        IntExpression::Arithmetic(first, operands) => {
            let left = total_of(first, vectors, sets, scope);
            before_operands(operands, left, vectors, sets, scope)
        }
    }
}

/// The number with its sign changed so many times.
fn after_signs(signs: usize, total: Total) -> Total
    ensures { result.number ≡ negative_times signs total.number }
{
    let mut now = total;
    'signs: for sign in 0..signs {
        now = negated(now);
    }
    now
}

fn negated(total: Total) -> Total
    ensures { result.number ≡ negative_times 1 total.number }
{
    Total {
        number: negate(total.number),
    }
}

/// The value of the operators in a list, after what is on the left.
#[cycle(totals)]
fn before_operands(
    operands: &[Operand],
    left: Total,
    vectors: &[Sequence<i64>],
    sets: &[SetBinding],
    scope: &Environment,
) -> Total
    ensures { result.number ≡ operands_value vectors.now sets.now (scope_of scope.now) left.number operands.now }
{
    let mut total = left;
    'operands: for operand in operands {
        let right = total_of(&operand.integer, vectors, sets, scope);
        total = combined(operand, total, right);
    }
    total
}

fn combined(operand: &Operand, left: Total, right: Total) -> Total
    ensures { result.number ≡ arithmetic operand.now.operator left.number right.number }
{
    Total {
        number: arithmetic_of(operand.operator, left.number, right.number),
    }
}

/// The value of an expression of type `bool`.
#[cycle(truths)]
#[tactic(auto, using(crate::proofs::Chains::truth_inverted))]
pub(crate) fn holds(
    c: &BoolExpression,
    vectors: &[Sequence<i64>],
    sets: &[SetBinding],
    scope: &Environment,
) -> bool
    ensures { result ≡ truth vectors.now sets.now (scope_of scope.now) (bool_expression_tree c.now) }
{
    match c {
        BoolExpression::Literal(b) => *b,
        BoolExpression::Constant(_, b) => *b,
        BoolExpression::Variable(slot) => condition_at(scope, slot.index),
        BoolExpression::Not(nots, c) => inverted(*nots, holds(c, vectors, sets, scope)),
        BoolExpression::Compare(comparison, left, right) => compare(
            *comparison,
            evaluate(left, vectors, sets, scope),
            evaluate(right, vectors, sets, scope),
        ),
        BoolExpression::Connect(connective, first, conditions) => {
            let left = holds(first, vectors, sets, scope);
            before_conditions(conditions, *connective, left, vectors, sets, scope)
        }
    }
}

/// The truth value inverted so many times.
fn inverted(nots: usize, b: bool) -> bool
    ensures { result ≡ not_times nots b }
{
    let mut now = b;
    'nots: for done in 0..nots {
        now = !now;
    }
    now
}

/// The value of the conditions in a list, after what is on the left.
#[cycle(truths)]
fn before_conditions(
    conditions: &[BoolExpression],
    connective: Connective,
    left: bool,
    vectors: &[Sequence<i64>],
    sets: &[SetBinding],
    scope: &Environment,
) -> bool
    ensures { result ≡ conditions_truth vectors.now sets.now (scope_of scope.now) connective left conditions.now }
{
    let mut all = left;
    'conditions: for c in conditions {
        let right = holds(c, vectors, sets, scope);
        all = connect(connective, all, right);
    }
    all
}

/// Whether each index in the expression is a vertex.
#[cycle(insides)]
#[tactic(auto, using(crate::proofs::Chains::inside_negated))]
pub(crate) fn is_inside(
    e: &IntExpression,
    vertices: u32,
    vectors: &[Sequence<i64>],
    sets: &[SetBinding],
    scope: &Environment,
) -> bool
    ensures { result ≡ stays_inside vertices vectors.now sets.now (scope_of scope.now) (int_expression_tree e.now) }
{
    match e {
        IntExpression::Number(_)
        | IntExpression::Constant(_, _)
        | IntExpression::Variable(_)
        | IntExpression::Parameter(_)
        | IntExpression::Weight
        | IntExpression::EntryAt(_, _)
        | IntExpression::SetSize(_) => true,
        IntExpression::Entry(_, index) => {
            is_inside(index, vertices, vectors, sets, scope)
                && names_vertex(vertices, evaluate(index, vectors, sets, scope))
        }
        IntExpression::Negative(_, e) => is_inside(e, vertices, vectors, sets, scope),
        IntExpression::Arithmetic(first, operands) => {
            is_inside(first, vertices, vectors, sets, scope)
                && are_inside(operands, vertices, vectors, sets, scope)
        }
    }
}

/// Whether each index in the operands is a vertex.
#[cycle(insides)]
fn are_inside(
    operands: &[Operand],
    vertices: u32,
    vectors: &[Sequence<i64>],
    sets: &[SetBinding],
    scope: &Environment,
) -> bool
    ensures { result ≡ operands_stay_inside vertices vectors.now sets.now (scope_of scope.now) operands.now }
{
    'operands: for operand in operands {
        if !is_inside(&operand.integer, vertices, vectors, sets, scope) {
            return false;
        }
    }
    true
}

/// Whether each index in the expression is a vertex.
#[cycle(condition_insides)]
#[tactic(auto, using(crate::proofs::Chains::inside_inverted))]
pub(crate) fn condition_is_inside(
    c: &BoolExpression,
    vertices: u32,
    vectors: &[Sequence<i64>],
    sets: &[SetBinding],
    scope: &Environment,
) -> bool
    ensures { result ≡ condition_stays_inside vertices vectors.now sets.now (scope_of scope.now) (bool_expression_tree c.now) }
{
    match c {
        BoolExpression::Literal(_) | BoolExpression::Constant(_, _) | BoolExpression::Variable(_) =>
            true,
        BoolExpression::Not(_, c) => condition_is_inside(c, vertices, vectors, sets, scope),
        BoolExpression::Compare(_, left, right) => {
            is_inside(left, vertices, vectors, sets, scope)
                && is_inside(right, vertices, vectors, sets, scope)
        }
        BoolExpression::Connect(_, first, conditions) => {
            condition_is_inside(first, vertices, vectors, sets, scope)
                && conditions_are_inside(conditions, vertices, vectors, sets, scope)
        }
    }
}

/// Whether each index in the conditions is a vertex.
#[cycle(condition_insides)]
fn conditions_are_inside(
    conditions: &[BoolExpression],
    vertices: u32,
    vectors: &[Sequence<i64>],
    sets: &[SetBinding],
    scope: &Environment,
) -> bool
    ensures { result ≡ conditions_stay_inside vertices vectors.now sets.now (scope_of scope.now) conditions.now }
{
    'conditions: for c in conditions {
        if !condition_is_inside(c, vertices, vectors, sets, scope) {
            return false;
        }
    }
    true
}

/// The variable at an index, 0 where there is none.
pub(crate) fn integer_at(scope: &Environment, index: usize) -> i64
    ensures { result ≡ slice_index_or (scope_of scope.now).integers index (pos 0) }
{
    match scope.integers.get(index) {
        Some(n) => *n,
        None => 0,
    }
}

/// The variable at an index, false where there is none.
pub(crate) fn condition_at(scope: &Environment, index: usize) -> bool
    ensures { result ≡ slice_index_or (scope_of scope.now).conditions index false }
{
    match scope.conditions.get(index) {
        Some(b) => *b,
        None => false,
    }
}

fn endpoint(scope: &Environment, at: Endpoint) -> u32
    ensures { result ≡ vertex_at (scope_of scope.now) at }
{
    match at {
        Endpoint::Source => scope.source,
        Endpoint::Destination => scope.destination,
    }
}

/// The entry of a vector at a vertex, 0 where there is none.
pub(crate) fn entry_of(vectors: &[Sequence<i64>], vector: usize, vertex: usize) -> i64
    ensures { result ≡ entry vectors.now vector vertex }
{
    let Some(entries) = vectors.get(vector) else {
        return 0;
    };
    match entries.as_slice().get(vertex) {
        Some(n) => *n,
        None => 0,
    }
}

/// The entry of a vector at an index, 0 where there is none.
fn entry_at_index(vectors: &[Sequence<i64>], vector: usize, index: i64) -> i64
    ensures { result ≡ entry_at vectors.now vector index }
{
    match usize::try_from(index) {
        Ok(vertex) => entry_of(vectors, vector, vertex),
        Err(_) => 0,
    }
}

/// Whether the number is a vertex.
fn names_vertex(vertices: u32, index: i64) -> bool
    ensures { result ≡ is_vertex vertices index }
{
    0 <= index && index < i64::from(vertices)
}

/// The members of the set at an index, none where there is no set.
pub(crate) fn members_at(sets: &[SetBinding], index: usize) -> &[u32]
    ensures { result.now ≡ members_of (slice_get sets.now index) }
{
    match sets.get(index) {
        Some(set) => set.members.as_slice(),
        None => &[],
    }
}
