//! Literals, which are all that constants of type int or bool, and vectors, may be declared to be.
ghost use Rattle.std.specs.Prelude.{◌≡◌};
ghost use Rattle.syntax.specs.ExpressionViews.{primary_of, unary_of};
ghost use Rattle.syntax.specs.SourceViews.{initial_tree};
ghost use Rattle.initializer_types.specs.DeclarationForms.{expression_integer, expression_truth, literal_condition, literal_integer, negated_literal, primary_number, primary_truth, unary_number, unary_truth};

use expression_types::lone_operand;
use syntax::{Expression, Initial, Prefix, Primary, Unary};

/// The number that a value is, with `-` before it or not, or `None` where it is no such literal.
pub fn integer_literal(initial: &Initial) -> Option<i64>
    ensures { result ≡ literal_integer (initial_tree initial.now) }
{
    match initial {
        Initial::Value(expression) => number_of(expression),
        _ => None,
    }
}

/// The truth value that a value is, or `None` where it is no such literal.
pub fn condition_literal(initial: &Initial) -> Option<bool>
    ensures { result ≡ literal_condition (initial_tree initial.now) }
{
    match initial {
        Initial::Value(expression) => truth_of(expression),
        _ => None,
    }
}

fn number_of(expression: &Expression) -> Option<i64>
    ensures { result ≡ expression_integer expression.now }
{
    unary_literal(lone_operand(expression)?)
}

fn truth_of(expression: &Expression) -> Option<bool>
    ensures { result ≡ expression_truth expression.now }
{
    unary_condition(lone_operand(expression)?)
}

fn unary_literal(unary: &Unary) -> Option<i64>
    ensures { result ≡ unary_number (unary_of unary.now) }
{
    match unary.signs.first() {
        None => number(&unary.primary),
        Some(Prefix::Not) => None,
        Some(Prefix::Minus) => {
            if unary.signs.len() == 1 {
                minus(number(&unary.primary)?)
            } else {
                None
            }
        }
    }
}

fn unary_condition(unary: &Unary) -> Option<bool>
    ensures { result ≡ unary_truth (unary_of unary.now) }
{
    if unary.signs.is_empty() {
        truth(&unary.primary)
    } else {
        None
    }
}

fn minus(n: i64) -> Option<i64>
    ensures { result ≡ negated_literal n }
{
    if n < 0 { None } else { Some(-n) }
}

fn number(primary: &Primary) -> Option<i64>
    ensures { result ≡ primary_number (primary_of primary.now) }
{
    match primary {
        Primary::Number(n) => Some(*n),
        _ => None,
    }
}

fn truth(primary: &Primary) -> Option<bool>
    ensures { result ≡ primary_truth (primary_of primary.now) }
{
    match primary {
        Primary::Truth(b) => Some(*b),
        _ => None,
    }
}
