//! Expressions of `main` as words.
ghost use Rattle.std.specs.Fmt.{signed_decimal};
ghost use Rattle.std.specs.Prelude.{◌≡◌, ◌++◌, ◌∷◌, [], OnOk};
ghost use Rattle.typed_tree.specs.IntExpressionTree.{int_expression_tree};
ghost use Rattle.typed_tree.specs.BoolExpressionTree.{bool_expression_tree};
ghost use Rattle.typed_tree.specs.ProgramTree.{program_tree};
ghost use Rattle.plan_text.specs.Expressions.{comparison_word, condition_words, connective_word, entry_word, integer_words, operator_word, size_word, truth_word, spaced};
ghost use Rattle.plan_text.specs.inside.Rows.{connected_words, operand_words};

use crate::names::Lines;
use crate::words::{put_marked, put_times, put_word};
use decimal::push_integer;
use std::alloc::AllocError;
use typed_tree::{
    BoolExpression, ComparisonOperator, Connective, IntExpression, Operand, Operator,
};

/// Puts the words of an expression of type `int`.
#[cycle(integers)]
pub(crate) fn put_integer(
    out: &mut Vec<u8>,
    lines: Lines<'_>,
    e: &IntExpression,
) -> Result<(), AllocError>
    ensures { OnOk result (out.new.items ≡ out.old.items ++ spaced (integer_words (program_tree lines.entry.program.now) (int_expression_tree e.now))) }
{
    match e {
        IntExpression::Number(n) => put_number(out, *n),
        IntExpression::Constant(name, _) => put_word(out, lines.name(*name)),
        IntExpression::Variable(slot) => put_word(out, lines.name(slot.name)),
        IntExpression::Parameter(_) => put_word(out, b"vertex"),
        IntExpression::Weight => put_word(out, b"weight"),
        IntExpression::EntryAt(vector, _) => put_entry(out, lines, *vector),
        IntExpression::Entry(vector, index) => {
            put_integer(out, lines, index)?;
            put_entry(out, lines, *vector)
        }
        IntExpression::SetSize(slot) => put_size(out, lines, slot.name),
        IntExpression::Negative(signs, e) => {
            put_integer(out, lines, e)?;
            put_times(out, b"neg", *signs)
        }
        IntExpression::Arithmetic(first, operands) => {
            put_integer(out, lines, first)?;
            put_operands(out, lines, operands)
        }
    }
}

/// Puts operands, each with its operator after it.
#[cycle(integers)]
fn put_operands(out: &mut Vec<u8>, lines: Lines<'_>, operands: &[Operand]) -> Result<(), AllocError>
    ensures { OnOk result (out.new.items ≡ out.old.items ++ spaced (operand_words (program_tree lines.entry.program.now) operands.now)) }
{
    'operands: for operand in operands {
        put_integer(out, lines, &operand.integer)?;
        put_word(out, operator_text(operand.operator))?;
    }
    Ok(())
}

/// Puts the words of an expression of type `bool`.
#[cycle(conditions)]
pub(crate) fn put_condition(
    out: &mut Vec<u8>,
    lines: Lines<'_>,
    c: &BoolExpression,
) -> Result<(), AllocError>
    ensures { OnOk result (out.new.items ≡ out.old.items ++ spaced (condition_words (program_tree lines.entry.program.now) (bool_expression_tree c.now))) }
{
    match c {
        BoolExpression::Literal(b) => put_word(out, truth_text(*b)),
        BoolExpression::Constant(name, _) => put_word(out, lines.name(*name)),
        BoolExpression::Variable(slot) => put_word(out, lines.name(slot.name)),
        BoolExpression::Not(nots, c) => {
            put_condition(out, lines, c)?;
            put_times(out, b"not", *nots)
        }
        BoolExpression::Compare(comparison, left, right) => {
            put_integer(out, lines, left)?;
            put_integer(out, lines, right)?;
            put_word(out, comparison_text(*comparison))
        }
        BoolExpression::Connect(connective, first, others) => {
            put_condition(out, lines, first)?;
            put_connected(out, lines, *connective, others)
        }
    }
}

/// Puts conditions, each with the connective after it.
#[cycle(conditions)]
fn put_connected(
    out: &mut Vec<u8>,
    lines: Lines<'_>,
    connective: Connective,
    conditions: &[BoolExpression],
) -> Result<(), AllocError>
    ensures { OnOk result (out.new.items ≡ out.old.items ++ spaced (connected_words (program_tree lines.entry.program.now) connective conditions.now)) }
{
    'conditions: for condition in conditions {
        put_condition(out, lines, condition)?;
        put_word(out, connective_text(connective))?;
    }
    Ok(())
}

/// Puts a number.
fn put_number(out: &mut Vec<u8>, n: i64) -> Result<(), AllocError>
    ensures { OnOk result (out.new.items ≡ out.old.items ++ spaced (signed_decimal n ∷ [])) }
{
    push_integer(out, n)?;
    put_word(out, b"")
}

/// Puts that the entry of a vector is read.
fn put_entry(out: &mut Vec<u8>, lines: Lines<'_>, vector: usize) -> Result<(), AllocError>
    ensures { OnOk result (out.new.items ≡ out.old.items ++ spaced (entry_word (program_tree lines.entry.program.now) vector ∷ [])) }
{
    put_marked(out, lines.vector(vector), b"@")
}

/// Puts that the size of a set is read.
fn put_size(out: &mut Vec<u8>, lines: Lines<'_>, name: usize) -> Result<(), AllocError>
    ensures { OnOk result (out.new.items ≡ out.old.items ++ spaced (size_word (program_tree lines.entry.program.now) name ∷ [])) }
{
    put_marked(out, lines.name(name), b"#")
}

fn truth_text(b: bool) -> &'static [u8]
    ensures { result.now ≡ truth_word b }
{
    if b { b"true" } else { b"false" }
}

fn operator_text(operator: Operator) -> &'static [u8]
    ensures { result.now ≡ operator_word operator }
{
    match operator {
        Operator::Add => b"+",
        Operator::Subtract => b"-",
        Operator::Multiply => b"*",
        Operator::Divide => b"/",
        Operator::Remainder => b"%",
    }
}

fn comparison_text(comparison: ComparisonOperator) -> &'static [u8]
    ensures { result.now ≡ comparison_word comparison }
{
    match comparison {
        ComparisonOperator::Equal => b"==",
        ComparisonOperator::NotEqual => b"!=",
        ComparisonOperator::Less => b"<",
        ComparisonOperator::LessOrEqual => b"<=",
        ComparisonOperator::Greater => b">",
        ComparisonOperator::GreaterOrEqual => b">=",
    }
}

fn connective_text(connective: Connective) -> &'static [u8]
    ensures { result.now ≡ connective_word connective }
{
    match connective {
        Connective::And => b"and",
        Connective::Or => b"or",
        Connective::Equal => b"==",
        Connective::NotEqual => b"!=",
    }
}
