//! Bare names: the one operand of an expression without operators, and the name that an expression is.
ghost use Rattle.std.specs.Prelude.{◌≡◌, option_map};
ghost use Rattle.syntax.specs.inside.ExpressionViews.{comparison_of, conjunction_of, sum_of, term_of};
ghost use Rattle.syntax.specs.ExpressionViews.{unary_of};
ghost use Rattle.expression_types.specs.BareNames.{lone_name as name_alone, only_comparison, only_operand, only_sum, only_term, only_unary};

use syntax::{Comparison, Conjunction, Expression, Name, Primary, Sum, Term, Unary};

/// The one operand of an expression without operators between operands, or `None` where it has some.
pub fn lone_operand(expression: &Expression) -> Option<&Unary>
    ensures { option_map (λ u. unary_of u.now) result ≡ only_operand expression.now }
{
    if expression.more.is_empty() {
        in_conjunction(&expression.first)
    } else {
        None
    }
}

fn in_conjunction(conjunction: &Conjunction) -> Option<&Unary>
    ensures { option_map (λ u. unary_of u.now) result ≡ only_comparison (conjunction_of conjunction.now) }
{
    if conjunction.more.is_empty() {
        in_comparison(&conjunction.first)
    } else {
        None
    }
}

fn in_comparison(comparison: &Comparison) -> Option<&Unary>
    ensures { option_map (λ u. unary_of u.now) result ≡ only_sum (comparison_of comparison.now) }
{
    match &comparison.right {
        None => in_sum(&comparison.left),
        Some(_) => None,
    }
}

fn in_sum(sum: &Sum) -> Option<&Unary>
    ensures { option_map (λ u. unary_of u.now) result ≡ only_term (sum_of sum.now) }
{
    if sum.more.is_empty() {
        in_term(&sum.first)
    } else {
        None
    }
}

fn in_term(term: &Term) -> Option<&Unary>
    ensures { option_map (λ u. unary_of u.now) result ≡ only_unary (term_of term.now) }
{
    if term.more.is_empty() {
        Some(&term.first)
    } else {
        None
    }
}

/// The name that an expression is, alone or in parentheses, or `None` where it is anything else.
pub(crate) fn bare_name(expression: &Expression) -> Option<&Name>
    ensures { option_map (λ n. n.now) result ≡ name_alone expression.now }
{
    let unary = lone_operand(expression)?;
    if !unary.signs.is_empty() {
        return None;
    }
    match &unary.primary {
        Primary::Variable(name) => Some(name),
        Primary::Parentheses(inside) => bare_name(inside),
        _ => None,
    }
}
