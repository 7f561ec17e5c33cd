//! Operators on ints of 64 bits and on truth values.
ghost use Rattle.std.specs.Prelude.{◌≡◌, ◌<◌, ℤ, FitsSigned, int_div, unsigned_abs};
ghost use Rattle.std.specs.Int.{IsNonZero, w64};
ghost use Rattle.algorithm_meaning.specs.Arithmetic.{DividesWithRemainder, arithmetic, compared, connected, negative, quotient, reduced, remainder, wrapped};

use apply_options::Reduction;
use typed_tree::{ComparisonOperator, Connective, Operator};

/// What an operator gives.
pub fn arithmetic_of(operator: Operator, left: i64, right: i64) -> i64
    ensures { result ≡ arithmetic operator left right }
{
    match operator {
        Operator::Add => left.wrapping_add(right),
        Operator::Subtract => left.wrapping_sub(right),
        Operator::Multiply => left.wrapping_mul(right),
        Operator::Divide => quotient_of(left, right),
        Operator::Remainder => remainder_of(left, right),
    }
}

fn quotient_of(left: i64, right: i64) -> i64
    ensures { result ≡ quotient left right }
{
    if right == 0 {
        0
    } else {
        truncated(left, right)
    }
}

/// The quotient with its fraction cut off, as a number of 64 bits.
fn truncated(left: i64, right: i64) -> i64
    requires { IsNonZero w64 right }
    ensures { result ≡ wrapped (int_div left right) }
{
    left.wrapping_div(right)
}

fn remainder_of(left: i64, right: i64) -> i64
    ensures { result ≡ remainder left right }
{
    if right == 0 {
        0
    } else {
        left.wrapping_rem(right)
    }
}

/// The number with its sign changed; the least number has none other and stays.
pub fn negate(n: i64) -> i64
    ensures { result ≡ negative n }
{
    n.wrapping_neg()
}

/// Whether a comparison of two ints holds.
pub fn compare(comparison: ComparisonOperator, left: i64, right: i64) -> bool
    ensures { result ≡ compared comparison left right }
{
    match comparison {
        ComparisonOperator::Equal => left == right,
        ComparisonOperator::NotEqual => left != right,
        ComparisonOperator::Less => left < right,
        ComparisonOperator::LessOrEqual => left <= right,
        ComparisonOperator::Greater => left > right,
        ComparisonOperator::GreaterOrEqual => left >= right,
    }
}

/// What an operator on two truth values gives.
pub fn connect(connective: Connective, left: bool, right: bool) -> bool
    ensures { result ≡ connected connective left right }
{
    match connective {
        Connective::And => left && right,
        Connective::Or => left || right,
        Connective::Equal => left == right,
        Connective::NotEqual => left != right,
    }
}

/// A number reduced with another.
pub fn reduce(reduction: Reduction, old: i64, given: i64) -> i64
    ensures { result ≡ reduced reduction old given }
{
    match reduction {
        Reduction::Min => old.min(given),
        Reduction::Max => old.max(given),
        Reduction::Plus => arithmetic_of(Operator::Add, old, given),
    }
}

/// The law of division: where the quotient is an int, which it is but for the least number by -1, the
/// quotient times the divisor and the remainder are the dividend, and the remainder is below the
/// divisor, signs aside. The call does nothing.
pub fn quotients_leave_remainders()
    ensures { (a b : ℤ) → 0 < unsigned_abs b → FitsSigned w64 (int_div a b) → DividesWithRemainder a b }
{}
