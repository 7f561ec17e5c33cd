//! Statements without a block.
ghost use Rattle.std.specs.Prelude.{ℕ, ◌++◌, ◌∷◌, OnOk};
ghost use Rattle.lexer.specs.declared.symbol.Symbol.TheVariants as symbol;
ghost use Rattle.syntax.specs.Terminals.{OfSymbol, Name as terminal_name};
ghost use Rattle.syntax.specs.ExpressionSpelling.{expression_terminals};
ghost use Rattle.syntax.specs.SourceSpelling.{action_before, reduction_terminal};
ghost use Rattle.syntax.specs.SourceTrees.{AddVertex, Apply, Assign, Declare, Print, Reduce, ReduceEntry, SetEntry};
ghost use Rattle.syntax.specs.SourceViews.{simple_action_tree, ends_tree, initial_tree, parameter_tree};
ghost use Rattle.source_text.specs.inside.Written.{Puts};

use crate::expression::put_expression;
use crate::initial::{put_argument, put_assigned, put_ended, put_ends, put_method, put_parameter};
use crate::terminals::{put_keyword, put_name, put_symbol};
use apply_options::Reduction;
use lexer::{Keyword, Symbol};
use std::alloc::AllocError;
use syntax::{Ends, Expression, Initial, Name, Parameter, SimpleAction};

/// Puts a statement without a block down.
pub(crate) fn put_simple(out: &mut Vec<u8>, action: &SimpleAction) -> Result<(), AllocError>
    ensures { OnOk result (Puts (action_before (simple_action_tree action.now)) out.old.items out.new.items) }
{
    match action {
        SimpleAction::Declare {
            variable,
            initial,
            ..
        } => put_declare(out, variable, initial),
        SimpleAction::Print { value, .. } => put_print(out, value),
        SimpleAction::Assign { name, value } => put_assign(out, name, value),
        SimpleAction::Reduce {
            name,
            reduction,
            value,
        } => put_reduce(out, name, *reduction, value),
        SimpleAction::SetEntry {
            vector,
            index,
            value,
        } => put_set_entry(out, vector, index, value),
        SimpleAction::ReduceEntry {
            vector,
            index,
            reduction,
            value,
        } => put_reduce_entry(out, vector, index, *reduction, value),
        SimpleAction::AddVertex { set, vertex } => put_add_vertex(out, set, vertex),
        SimpleAction::Apply {
            target,
            ends,
            function,
        } => put_apply(out, target, ends, function),
    }
}

fn put_declare(out: &mut Vec<u8>, variable: &Parameter, initial: &Initial) -> Result<(), AllocError>
    ensures { OnOk result ((at : ℕ) → Puts (action_before (Declare at (parameter_tree variable.now) (initial_tree initial.now))) out.old.items out.new.items) }
{
    put_keyword(out, Keyword::Var)?;
    put_parameter(out, variable)?;
    put_assigned(out, initial)
}

fn put_print(out: &mut Vec<u8>, value: &Expression) -> Result<(), AllocError>
    ensures { OnOk result ((at : ℕ) → Puts (action_before (Print at value.now)) out.old.items out.new.items) }
{
    put_keyword(out, Keyword::Print)?;
    put_ended(out, value)
}

fn put_assign(out: &mut Vec<u8>, name: &Name, value: &Initial) -> Result<(), AllocError>
    ensures { OnOk result (Puts (action_before (Assign name.now (initial_tree value.now))) out.old.items out.new.items) }
{
    put_name(out, name)?;
    put_assigned(out, value)
}

fn put_reduce(
    out: &mut Vec<u8>,
    name: &Name,
    reduction: Reduction,
    value: &Expression,
) -> Result<(), AllocError>
    ensures { OnOk result (Puts (action_before (Reduce name.now reduction value.now)) out.old.items out.new.items) }
{
    put_name(out, name)?;
    put_reduction(out, reduction)?;
    put_ended(out, value)
}

fn put_set_entry(
    out: &mut Vec<u8>,
    vector: &Name,
    index: &Expression,
    value: &Expression,
) -> Result<(), AllocError>
    ensures { OnOk result (Puts (action_before (SetEntry vector.now index.now value.now)) out.old.items out.new.items) }
{
    put_entry(out, vector, index)?;
    put_symbol(out, Symbol::Assign)?;
    put_ended(out, value)
}

fn put_reduce_entry(
    out: &mut Vec<u8>,
    vector: &Name,
    index: &Expression,
    reduction: Reduction,
    value: &Expression,
) -> Result<(), AllocError>
    ensures { OnOk result (Puts (action_before (ReduceEntry vector.now index.now reduction value.now)) out.old.items out.new.items) }
{
    put_entry(out, vector, index)?;
    put_reduction(out, reduction)?;
    put_ended(out, value)
}

fn put_add_vertex(out: &mut Vec<u8>, set: &Name, vertex: &Expression) -> Result<(), AllocError>
    ensures { OnOk result (Puts (action_before (AddVertex set.now vertex.now)) out.old.items out.new.items) }
{
    put_name(out, set)?;
    put_method(out, Keyword::AddVertex)?;
    put_symbol(out, Symbol::OpenParenthesis)?;
    put_expression(out, vertex)?;
    put_symbol(out, Symbol::CloseParenthesis)?;
    put_symbol(out, Symbol::Semicolon)
}

fn put_apply(
    out: &mut Vec<u8>,
    target: &Name,
    ends: &Ends,
    function: &Name,
) -> Result<(), AllocError>
    ensures { OnOk result (Puts (action_before (Apply target.now (ends_tree ends.now) function.now)) out.old.items out.new.items) }
{
    put_name(out, target)?;
    put_ends(out, ends)?;
    put_method(out, Keyword::Apply)?;
    put_argument(out, function)?;
    put_symbol(out, Symbol::Semicolon)
}

/// Puts `vector[index]` down.
fn put_entry(out: &mut Vec<u8>, vector: &Name, index: &Expression) -> Result<(), AllocError>
    ensures { OnOk result (Puts (λ rest. terminal_name vector.now ∷ OfSymbol symbol.OpenBracket
        ∷ (expression_terminals index.now ++ OfSymbol symbol.CloseBracket ∷ rest)) out.old.items out.new.items) }
{
    put_name(out, vector)?;
    put_symbol(out, Symbol::OpenBracket)?;
    put_expression(out, index)?;
    put_symbol(out, Symbol::CloseBracket)
}

fn put_reduction(out: &mut Vec<u8>, reduction: Reduction) -> Result<(), AllocError>
    ensures { OnOk result (Puts (λ rest. reduction_terminal reduction ∷ rest) out.old.items out.new.items) }
{
    match reduction {
        Reduction::Min => put_symbol(out, Symbol::MinAssign),
        Reduction::Max => put_symbol(out, Symbol::MaxAssign),
        Reduction::Plus => put_symbol(out, Symbol::PlusAssign),
    }
}
