//! Declarations.
ghost use Rattle.std.specs.Prelude.{map, option_map, OnOk};
ghost use Rattle.syntax.specs.SourceSpelling.{declaration_before, each_before, next_parameter_before, parameters_before, result_before};
ghost use Rattle.syntax.specs.SourceViews.{declaration_tree, parameter_tree};
ghost use Rattle.source_text.specs.inside.Written.{Puts};

use crate::initial::{put_assigned, put_parameter};
use crate::statement::put_block;
use crate::terminals::{put_keyword, put_name, put_symbol};
use lexer::{Keyword, Symbol};
use std::alloc::AllocError;
use syntax::{Declaration, Parameter};

/// Puts declarations down, in their order.
pub(crate) fn put_declarations(
    out: &mut Vec<u8>,
    declarations: &[Declaration],
) -> Result<(), AllocError>
    ensures { OnOk result (Puts (each_before declaration_before (map declaration_tree declarations.now)) out.old.items out.new.items) }
{
    'declarations: for declaration in declarations {
        put_declaration(out, declaration)?;
    }
    Ok(())
}

fn put_declaration(out: &mut Vec<u8>, declaration: &Declaration) -> Result<(), AllocError>
    ensures { OnOk result (Puts (declaration_before (declaration_tree declaration.now)) out.old.items out.new.items) }
{
    match declaration {
        Declaration::Constant {
            constant,
            initial,
            ..
        } => {
            put_keyword(out, Keyword::Const)?;
            put_parameter(out, constant)?;
            put_assigned(out, initial)
        }
        Declaration::Function {
            name,
            parameters,
            result,
            body,
            ..
        } => {
            put_keyword(out, Keyword::Func)?;
            put_name(out, name)?;
            put_symbol(out, Symbol::OpenParenthesis)?;
            put_parameters(out, parameters)?;
            put_symbol(out, Symbol::CloseParenthesis)?;
            put_result(out, result)?;
            put_block(out, body)?;
            put_keyword(out, Keyword::End)
        }
    }
}

/// Puts the parameters of a function down, with commas between them.
fn put_parameters(out: &mut Vec<u8>, parameters: &[Parameter]) -> Result<(), AllocError>
    ensures { OnOk result (Puts (parameters_before (map parameter_tree parameters.now)) out.old.items out.new.items) }
{
    match parameters.split_first() {
        None => Ok(()),
        Some((first, others)) => {
            put_parameter(out, first)?;
            put_more_parameters(out, others)
        }
    }
}

fn put_more_parameters(out: &mut Vec<u8>, parameters: &[Parameter]) -> Result<(), AllocError>
    ensures { OnOk result (Puts (each_before next_parameter_before (map parameter_tree parameters.now)) out.old.items out.new.items) }
{
    'parameters: for parameter in parameters {
        put_next_parameter(out, parameter)?;
    }
    Ok(())
}

/// Puts a comma and a parameter down.
fn put_next_parameter(out: &mut Vec<u8>, parameter: &Parameter) -> Result<(), AllocError>
    ensures { OnOk result (Puts (next_parameter_before (parameter_tree parameter.now)) out.old.items out.new.items) }
{
    put_symbol(out, Symbol::Comma)?;
    put_parameter(out, parameter)
}

/// Puts the result of a function down, where it has one.
fn put_result(out: &mut Vec<u8>, given: &Option<Parameter>) -> Result<(), AllocError>
    ensures { OnOk result (Puts (result_before (option_map parameter_tree given.now)) out.old.items out.new.items) }
{
    match given {
        None => Ok(()),
        Some(parameter) => {
            put_symbol(out, Symbol::Arrow)?;
            put_parameter(out, parameter)
        }
    }
}
