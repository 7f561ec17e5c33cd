//! The checker: from a whole source to its program, or its least fault.
ghost use Rattle.std.specs.Prelude.{◌≡◌, ◌+◌, ◌≤◌, ◌^◌, List, ◌∷◌, IfOk, None, map};
ghost use Rattle.syntax.specs.SourceTrees.{DeclarationTree};
ghost use Rattle.syntax.specs.SourceViews.{declaration_tree, source_tree};
ghost use Rattle.typed_tree.specs.BlockTree.{block_tree};
ghost use Rattle.typed_tree.specs.ProgramTree.{program_tree};
ghost use Rattle.expression_types.specs.Faults.{outcome};
ghost use Rattle.types.specs.inside.Declaration.{declared_of};
ghost use Rattle.types.specs.Program.{Answers, main_of, no_declarations, program_of, set_count};

use crate::declaration::{Declared, declare_all};
use crate::error::CheckError;
use crate::schedule::calls;
use expression_types::{Fault, Names, Scope, TypeRule, note};
use initializer_types::{Checker, Reductions};
use std::alloc::{AllocError, Global};
use syntax::{Declaration, DeclaredType, Source};
use typed_tree::{MainStatement, Typed};

/// The program that a source is, with all names resolved.
///
/// The error is `Faulty` where the source breaks a rule of types: of all faults the one with the least offset,
/// and of several there the one with the least number; and `NoMemory` if memory runs out. The time is in
/// proportion to the source.
pub fn check(alloc: Global, source: &Source) -> Result<Typed, CheckError>
    ensures { Answers (source_tree source.now) source.now.length result }
{
    let (program, first_fault) = type_source(alloc, source)?;
    match first_fault {
        Some(fault) => Err(CheckError::Faulty(fault)),
        None => Ok(program),
    }
}

/// The program that a source is, and of its faults the least, if there is one.
fn type_source(alloc: Global, source: &Source) -> Result<(Typed, Option<Fault>), AllocError>
    ensures { IfOk result (λ p. outcome None (program_of (source_tree source.now) source.now.length) ≡ (program_tree p.0, p.1)) }
{
    let mut declared = empty(alloc, count_sets(&source.declarations));
    declare_all(&source.declarations, &mut declared)?;
    let schedule = calls(alloc, &source.schedule)?;
    let main = main_in(source.length, &mut declared);
    let first_fault = declared.checker.first_fault;
    Ok((declared.into_program(main, schedule), first_fault))
}

/// The statements of `main`. The fault is noted where there is none.
fn main_in(length: usize, declared: &mut Declared) -> Vec<MainStatement>
    ensures main { outcome declared.old.checker.first_fault (main_of length (declared_of declared.old).main)
        ≡ (block_tree result.items, declared.new.checker.first_fault) }
    ensures others { declared_of declared.new ≡ record (declared_of declared.old) { main = None } }
{
    match declared.main.take() {
        Some(main) => main,
        None => {
            note(&mut declared.checker.first_fault, length, TypeRule::NoMain);
            Vec::new(declared.checker.alloc)
        }
    }
}

/// How many constant vertex sets there are.
fn count_sets(declarations: &[Declaration]) -> usize
    ensures count { result ≡ set_count (map declaration_tree declarations.now) }
    ensures few { result ≤ 2 ^ 63 }
{
    let mut count = 0usize;
    'declarations: for declaration in declarations {
        count += sets_of(declaration);
    }
    count
}

/// 1 for a constant vertex set, 0 for all else.
fn sets_of(declaration: &Declaration) -> usize
    ensures sets { (others : List DeclarationTree) → set_count (declaration_tree declaration.now ∷ others) ≡ result + set_count others }
    ensures few { result ≤ 1 }
{
    match declaration {
        Declaration::Constant { constant, .. } => match constant.declared {
            DeclaredType::VertexSet => 1,
            _ => 0,
        },
        Declaration::Function { .. } => 0,
    }
}

/// Before the first declaration of a program with n constant vertex sets.
fn empty(alloc: Global, sets: usize) -> Declared
    requires { sets ≤ 2 ^ 63 }
    ensures declared { declared_of result ≡ no_declarations sets }
    ensures first_fault { result.checker.first_fault ≡ None }
{
    Declared {
        checker: Checker {
            alloc,
            scope: Scope::new(alloc, sets),
            names: Vec::new(alloc),
            labels: Names::new(alloc),
            label_names: Vec::new(alloc),
            statements: Vec::new(alloc),
            writes: Reductions::new(alloc),
            written: Vec::new(alloc),
            first_fault: None,
        },
        edges: None,
        vectors: Vec::new(alloc),
        sets: Vec::new(alloc),
        edge_functions: Vec::new(alloc),
        vertex_functions: Vec::new(alloc),
        filters: Vec::new(alloc),
        main: None,
    }
}
