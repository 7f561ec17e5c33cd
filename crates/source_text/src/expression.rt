//! Expressions, one function for each level of the grammar.
ghost use Rattle.std.specs.Prelude.{◌++◌, ◌∷◌, OnOk};
ghost use Rattle.syntax.specs.SourceTrees.{Size};
ghost use Rattle.syntax.specs.inside.ExpressionViews.{comparison_of, conjunction_of, sum_of, term_of};
ghost use Rattle.syntax.specs.ExpressionViews.{primary_of, unary_of};
ghost use Rattle.syntax.specs.ExpressionSpelling.{addition_terminal, comparison_terminals, conjunction_terminals, expression_terminals, multiplication_terminal, prefix_terminal, primary_terminals, relation_terminal, sum_terminals, term_terminals, unary_terminals};
ghost use Rattle.source_text.specs.inside.Written.{Puts, signs_before};

use crate::terminals::{put_keyword, put_name, put_number, put_symbol};
use lexer::{Keyword, Symbol};
use std::alloc::AllocError;
use syntax::{
    Addition, Comparison, Conjunction, Expression, Multiplication, Name, Prefix, Primary, Relation,
    Sum, Term, Unary,
};

/// Puts an expression down.
#[cycle(expressions)]
pub(crate) fn put_expression(out: &mut Vec<u8>, expression: &Expression) -> Result<(), AllocError>
    ensures { OnOk result (Puts (λ rest. expression_terminals expression.now ++ rest) out.old.items out.new.items) }
{
    put_conjunction(out, &expression.first)?;
    'others: for conjunction in &expression.more {
        put_keyword(out, Keyword::Or)?;
        put_conjunction(out, conjunction)?;
    }
    Ok(())
}

#[cycle(expressions)]
fn put_conjunction(out: &mut Vec<u8>, conjunction: &Conjunction) -> Result<(), AllocError>
    ensures { OnOk result (Puts (λ rest. conjunction_terminals (conjunction_of conjunction.now) ++ rest) out.old.items out.new.items) }
{
    put_comparison(out, &conjunction.first)?;
    'others: for comparison in &conjunction.more {
        put_keyword(out, Keyword::And)?;
        put_comparison(out, comparison)?;
    }
    Ok(())
}

#[cycle(expressions)]
fn put_comparison(out: &mut Vec<u8>, comparison: &Comparison) -> Result<(), AllocError>
    ensures { OnOk result (Puts (λ rest. comparison_terminals (comparison_of comparison.now) ++ rest) out.old.items out.new.items) }
{
    put_sum(out, &comparison.left)?;
    match &comparison.right {
        None => Ok(()),
        Some((relation, right)) => {
            put_relation(out, *relation)?;
            put_sum(out, right)
        }
    }
}

#[cycle(expressions)]
fn put_sum(out: &mut Vec<u8>, sum: &Sum) -> Result<(), AllocError>
    ensures { OnOk result (Puts (λ rest. sum_terminals (sum_of sum.now) ++ rest) out.old.items out.new.items) }
{
    put_term(out, &sum.first)?;
    'others: for (operator, term) in &sum.more {
        put_addition(out, *operator)?;
        put_term(out, term)?;
    }
    Ok(())
}

#[cycle(expressions)]
fn put_term(out: &mut Vec<u8>, term: &Term) -> Result<(), AllocError>
    ensures { OnOk result (Puts (λ rest. term_terminals (term_of term.now) ++ rest) out.old.items out.new.items) }
{
    put_unary(out, &term.first)?;
    'others: for (operator, unary) in &term.more {
        put_multiplication(out, *operator)?;
        put_unary(out, unary)?;
    }
    Ok(())
}

#[cycle(expressions)]
fn put_unary(out: &mut Vec<u8>, unary: &Unary) -> Result<(), AllocError>
    ensures { OnOk result (Puts (λ rest. unary_terminals (unary_of unary.now) ++ rest) out.old.items out.new.items) }
{
    put_signs(out, &unary.signs)?;
    put_primary(out, &unary.primary)
}

#[cycle(expressions)]
fn put_primary(out: &mut Vec<u8>, primary: &Primary) -> Result<(), AllocError>
    ensures { OnOk result (Puts (λ rest. primary_terminals (primary_of primary.now) ++ rest) out.old.items out.new.items) }
{
    match primary {
        Primary::Number(n) => put_number(out, n),
        Primary::Truth(true) => put_keyword(out, Keyword::True),
        Primary::Truth(false) => put_keyword(out, Keyword::False),
        Primary::Variable(name) => put_name(out, name),
        Primary::Entry(name, index) => {
            put_name(out, name)?;
            put_symbol(out, Symbol::OpenBracket)?;
            put_expression(out, index)?;
            put_symbol(out, Symbol::CloseBracket)
        }
        Primary::Size(name) => put_size(out, name),
        Primary::Parentheses(inside) => {
            put_symbol(out, Symbol::OpenParenthesis)?;
            put_expression(out, inside)?;
            put_symbol(out, Symbol::CloseParenthesis)
        }
    }
}

fn put_size(out: &mut Vec<u8>, set: &Name) -> Result<(), AllocError>
    ensures { OnOk result (Puts (λ rest. primary_terminals (Size set.now) ++ rest) out.old.items out.new.items) }
{
    put_name(out, set)?;
    put_symbol(out, Symbol::Dot)?;
    put_keyword(out, Keyword::GetVertexSetSize)?;
    put_symbol(out, Symbol::OpenParenthesis)?;
    put_symbol(out, Symbol::CloseParenthesis)
}

/// Puts the signs of an operand down, in their order.
fn put_signs(out: &mut Vec<u8>, signs: &[Prefix]) -> Result<(), AllocError>
    ensures { OnOk result (Puts (signs_before signs.now) out.old.items out.new.items) }
{
    'signs: for sign in signs {
        put_prefix(out, *sign)?;
    }
    Ok(())
}

fn put_prefix(out: &mut Vec<u8>, sign: Prefix) -> Result<(), AllocError>
    ensures { OnOk result (Puts (λ rest. prefix_terminal sign ∷ rest) out.old.items out.new.items) }
{
    match sign {
        Prefix::Minus => put_symbol(out, Symbol::Minus),
        Prefix::Not => put_keyword(out, Keyword::Not),
    }
}

fn put_multiplication(out: &mut Vec<u8>, operator: Multiplication) -> Result<(), AllocError>
    ensures { OnOk result (Puts (λ rest. multiplication_terminal operator ∷ rest) out.old.items out.new.items) }
{
    match operator {
        Multiplication::Times => put_symbol(out, Symbol::Star),
        Multiplication::Divide => put_symbol(out, Symbol::Slash),
        Multiplication::Remainder => put_symbol(out, Symbol::Percent),
    }
}

fn put_addition(out: &mut Vec<u8>, operator: Addition) -> Result<(), AllocError>
    ensures { OnOk result (Puts (λ rest. addition_terminal operator ∷ rest) out.old.items out.new.items) }
{
    match operator {
        Addition::Plus => put_symbol(out, Symbol::Plus),
        Addition::Minus => put_symbol(out, Symbol::Minus),
    }
}

fn put_relation(out: &mut Vec<u8>, relation: Relation) -> Result<(), AllocError>
    ensures { OnOk result (Puts (λ rest. relation_terminal relation ∷ rest) out.old.items out.new.items) }
{
    match relation {
        Relation::Equal => put_symbol(out, Symbol::Equal),
        Relation::NotEqual => put_symbol(out, Symbol::NotEqual),
        Relation::Less => put_symbol(out, Symbol::Less),
        Relation::LessOrEqual => put_symbol(out, Symbol::LessOrEqual),
        Relation::Greater => put_symbol(out, Symbol::Greater),
        Relation::GreaterOrEqual => put_symbol(out, Symbol::GreaterOrEqual),
    }
}
