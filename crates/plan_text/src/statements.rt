//! Instructions as words.
ghost use Rattle.std.specs.Prelude.{◌≡◌, ◌++◌, ◌∷◌, [], map, codes, OnOk};
ghost use Rattle.typed_tree.specs.BlockTree.{simple_statement_tree, value_statement_tree};
ghost use Rattle.typed_tree.specs.BoolExpressionTree.{bool_expression_tree};
ghost use Rattle.typed_tree.specs.IntExpressionTree.{int_expression_tree};
ghost use Rattle.typed_tree.specs.ProgramTree.{program_tree};
ghost use Rattle.plan_text.specs.Expressions.{condition_words, integer_words, program_name_at, bracketed, spaced};
ghost use Rattle.plan_text.specs.Lines.{advance_words, below_words, bound_words, end_name, put_words, reducing_word, reduction_word, set_instruction_words, set_words, statement_words, unless_words, vertices_words};
ghost use Rattle.apply_options.specs.declared.apply_schedule.ApplySchedule.{ApplySchedule};

use crate::applied_function::{AppliedFunction, ChangedSet};
use crate::expressions::{put_condition, put_integer};
use crate::names::Lines;
use crate::words::{close_bracket, open_bracket, put_marked, put_word};
use apply_options::{ApplySchedule, Reduction};
use std::alloc::AllocError;
use typed_tree::{
    BoolExpression, IntExpression, SetValue, SimpleStatement, ValueStatement, VarRef,
};

impl Lines<'_> {
    /// Puts the words of a statement without a block, an apply as the schedule says. The only error is out of memory.
    pub fn put_simple(
        self,
        out: &mut Vec<u8>,
        statement: &SimpleStatement,
        apply_schedule: ApplySchedule,
    ) -> Result<(), AllocError>
        ensures { OnOk result (out.new.items ≡ out.old.items
            ++ spaced (statement_words (program_tree self.entry.program.now) (simple_statement_tree statement.now) apply_schedule)) }
    {
        match statement {
            SimpleStatement::Value(statement) => self.put_value(out, statement),
            SimpleStatement::SetEntry(vector, index, e) => {
                self.put_put(out, *vector, index, b"=", e)
            }
            SimpleStatement::ReduceEntry(vector, index, reduction, e) => {
                self.put_put(out, *vector, index, reduction_text(*reduction), e)
            }
            SimpleStatement::DeclareSet(name, value) => self.put_set(
                out,
                *name,
                *value,
                apply_schedule,
            ),
            SimpleStatement::AssignSet(slot, value) => self.put_set(
                out,
                slot.name,
                *value,
                apply_schedule,
            ),
            SimpleStatement::ApplyVertex(set, function) => self.put_vertices(
                out, *set, *function, None,
            ),
            SimpleStatement::ApplyEdges(ends, function) => {
                let part = AppliedFunction {
                    function: *function,
                    changed: None,
                };
                self.put_edges(out, *ends, part, None, apply_schedule)
            }
        }
    }

    /// Puts the words of a statement that takes a value.
    fn put_value(self, out: &mut Vec<u8>, statement: &ValueStatement) -> Result<(), AllocError>
        ensures { (apply_schedule : ApplySchedule) → OnOk result (out.new.items ≡ out.old.items
            ++ spaced (statement_words (program_tree self.entry.program.now) (value_statement_tree statement.now) apply_schedule)) }
    {
        match statement {
            ValueStatement::DeclareInt(name, e) => self.put_set_integer(out, *name, e),
            ValueStatement::DeclareBool(name, c) => self.put_set_condition(out, *name, c),
            ValueStatement::SetInt(slot, e) => self.put_set_integer(out, slot.name, e),
            ValueStatement::SetBool(slot, c) => self.put_set_condition(out, slot.name, c),
            ValueStatement::ReduceInt(slot, reduction, e) => {
                self.put_reduction(out, slot.name, *reduction, e)
            }
            ValueStatement::AddVertex(slot, e) => self.put_add_vertex(out, slot.name, e),
            ValueStatement::PrintInt(e) => self.put_print(out, e),
            ValueStatement::PrintBool(c) => self.put_condition_after(out, b"print", c),
        }
    }

    /// Puts `unless` and a test, before the index that it goes to.
    pub fn put_unless(self, out: &mut Vec<u8>, c: &BoolExpression) -> Result<(), AllocError>
        ensures { OnOk result (out.new.items ≡ out.old.items ++ spaced (unless_words (program_tree self.entry.program.now) (bool_expression_tree c.now))) }
    {
        self.put_condition_after(out, b"unless", c)
    }

    /// Puts that the bound of a `for` gets its value.
    pub fn put_bound(
        self,
        out: &mut Vec<u8>,
        name: usize,
        e: &IntExpression,
    ) -> Result<(), AllocError>
        ensures { OnOk result (out.new.items ≡ out.old.items ++ spaced (bound_words (program_tree self.entry.program.now) name (int_expression_tree e.now))) }
    {
        put_word(out, b"set")?;
        put_marked(out, self.name(name), b".end")?;
        self.put_bracketed(out, e)
    }

    /// Puts the test of a `for`, before the index that it goes to.
    pub fn put_below(self, out: &mut Vec<u8>, name: usize) -> Result<(), AllocError>
        ensures { OnOk result (out.new.items ≡ out.old.items ++ spaced (below_words (program_tree self.entry.program.now) name)) }
    {
        put_word(out, b"unless")?;
        open_bracket(out)?;
        self.put_test(out, name)?;
        close_bracket(out)
    }

    /// `i i.end <`
    fn put_test(self, out: &mut Vec<u8>, name: usize) -> Result<(), AllocError>
        ensures { OnOk result (out.new.items ≡ out.old.items
            ++ spaced (program_name_at (program_tree self.entry.program.now) name ∷ end_name (program_tree self.entry.program.now) name ∷ codes "<" ∷ [])) }
    {
        put_word(out, self.name(name))?;
        put_marked(out, self.name(name), b".end")?;
        put_word(out, b"<")
    }

    /// Puts that the name of a `for` gets its next value.
    pub fn put_advance(self, out: &mut Vec<u8>, name: usize) -> Result<(), AllocError>
        ensures { OnOk result (out.new.items ≡ out.old.items ++ spaced (advance_words (program_tree self.entry.program.now) name)) }
    {
        self.put_target(out, name)?;
        open_bracket(out)?;
        self.put_sum(out, name)?;
        close_bracket(out)
    }

    /// `i 1 +`
    fn put_sum(self, out: &mut Vec<u8>, name: usize) -> Result<(), AllocError>
        ensures { OnOk result (out.new.items ≡ out.old.items ++ spaced (program_name_at (program_tree self.entry.program.now) name ∷ codes "1" ∷ codes "+" ∷ [])) }
    {
        put_word(out, self.name(name))?;
        put_word(out, b"1")?;
        put_word(out, b"+")
    }

    /// `set x`
    fn put_target(self, out: &mut Vec<u8>, name: usize) -> Result<(), AllocError>
        ensures { OnOk result (out.new.items ≡ out.old.items ++ spaced (codes "set" ∷ program_name_at (program_tree self.entry.program.now) name ∷ [])) }
    {
        put_word(out, b"set")?;
        put_word(out, self.name(name))
    }

    /// Puts that a variable of type `int`, whose name is at this index, gets a value. The only error is out of memory.
    pub fn put_set_integer(
        self,
        out: &mut Vec<u8>,
        name: usize,
        e: &IntExpression,
    ) -> Result<(), AllocError>
        ensures { OnOk result (out.new.items ≡ out.old.items
            ++ spaced (set_words (program_name_at (program_tree self.entry.program.now) name)
            (integer_words (program_tree self.entry.program.now) (int_expression_tree e.now)))) }
    {
        self.put_target(out, name)?;
        self.put_bracketed(out, e)
    }

    /// `set x [c]`
    fn put_set_condition(
        self,
        out: &mut Vec<u8>,
        name: usize,
        c: &BoolExpression,
    ) -> Result<(), AllocError>
        ensures { OnOk result (out.new.items ≡ out.old.items
            ++ spaced (set_words (program_name_at (program_tree self.entry.program.now) name)
            (condition_words (program_tree self.entry.program.now) (bool_expression_tree c.now)))) }
    {
        self.put_target(out, name)?;
        self.put_bracketed_condition(out, c)
    }

    /// `set x [x e OPERATOR]`
    fn put_reduction(
        self,
        out: &mut Vec<u8>,
        name: usize,
        reduction: Reduction,
        e: &IntExpression,
    ) -> Result<(), AllocError>
        ensures { OnOk result (out.new.items ≡ out.old.items ++ spaced (set_words (program_name_at (program_tree self.entry.program.now) name)
            (program_name_at (program_tree self.entry.program.now) name ∷ integer_words (program_tree self.entry.program.now) (int_expression_tree e.now)
            ++ reducing_word reduction ∷ []))) }
    {
        self.put_target(out, name)?;
        open_bracket(out)?;
        self.put_reduced(out, name, reduction, e)?;
        close_bracket(out)
    }

    /// `x e OPERATOR`
    fn put_reduced(
        self,
        out: &mut Vec<u8>,
        name: usize,
        reduction: Reduction,
        e: &IntExpression,
    ) -> Result<(), AllocError>
        ensures { OnOk result (out.new.items ≡ out.old.items
            ++ spaced (program_name_at (program_tree self.entry.program.now) name ∷ integer_words (program_tree self.entry.program.now) (int_expression_tree e.now)
            ++ reducing_word reduction ∷ [])) }
    {
        put_word(out, self.name(name))?;
        put_integer(out, self, e)?;
        put_word(out, reducing_text(reduction))
    }

    /// `put v [i] = [e]`, or with a reduction.
    fn put_put(
        self,
        out: &mut Vec<u8>,
        vector: usize,
        index: &IntExpression,
        word: &[u8],
        e: &IntExpression,
    ) -> Result<(), AllocError>
        ensures { OnOk result (out.new.items ≡ out.old.items
            ++ spaced (put_words (program_tree self.entry.program.now) vector (int_expression_tree index.now) word.now (int_expression_tree e.now))) }
    {
        put_word(out, b"put")?;
        put_word(out, self.vector(vector))?;
        self.put_bracketed(out, index)?;
        put_word(out, word)?;
        self.put_bracketed(out, e)
    }

    /// A set that gets a value.
    fn put_set(
        self,
        out: &mut Vec<u8>,
        name: usize,
        value: SetValue,
        apply_schedule: ApplySchedule,
    ) -> Result<(), AllocError>
        ensures { OnOk result (out.new.items ≡ out.old.items ++ spaced (set_instruction_words (program_tree self.entry.program.now) name value apply_schedule)) }
    {
        match value {
            SetValue::Modified(ends, function, vector) => {
                let changed = Some(ChangedSet { name, vector });
                self.put_edges(
                    out,
                    ends,
                    AppliedFunction { function, changed },
                    None,
                    apply_schedule,
                )
            }
            SetValue::Empty => self.put_words(out, b"newset", name),
            SetValue::All => self.put_words(out, b"allset", name),
            SetValue::Copy(from) => {
                self.put_words(out, b"copyset", name)?;
                put_word(out, self.name(from.name))
            }
            SetValue::Filter(from, index) => {
                self.put_words(out, b"filter", name)?;
                put_word(out, self.name(from.name))?;
                put_word(out, self.function(&self.program.filters, index))
            }
        }
    }

    /// A word and a name.
    fn put_words(self, out: &mut Vec<u8>, word: &[u8], name: usize) -> Result<(), AllocError>
        ensures { OnOk result (out.new.items ≡ out.old.items ++ spaced (word.now ∷ program_name_at (program_tree self.entry.program.now) name ∷ [])) }
    {
        put_word(out, word)?;
        put_word(out, self.name(name))
    }

    /// `addvertex s [e]`
    fn put_add_vertex(
        self,
        out: &mut Vec<u8>,
        name: usize,
        e: &IntExpression,
    ) -> Result<(), AllocError>
        ensures { OnOk result (out.new.items ≡ out.old.items
            ++ spaced (codes "addvertex" ∷ program_name_at (program_tree self.entry.program.now) name
            ∷ bracketed (integer_words (program_tree self.entry.program.now) (int_expression_tree e.now)) ∷ [])) }
    {
        self.put_words(out, b"addvertex", name)?;
        self.put_bracketed(out, e)
    }

    /// `print [e]`
    fn put_print(self, out: &mut Vec<u8>, e: &IntExpression) -> Result<(), AllocError>
        ensures { OnOk result (out.new.items ≡ out.old.items
            ++ spaced (codes "print" ∷ bracketed (integer_words (program_tree self.entry.program.now) (int_expression_tree e.now)) ∷ [])) }
    {
        put_word(out, b"print")?;
        self.put_bracketed(out, e)
    }

    /// A word and a test.
    fn put_condition_after(
        self,
        out: &mut Vec<u8>,
        word: &[u8],
        c: &BoolExpression,
    ) -> Result<(), AllocError>
        ensures { OnOk result (out.new.items ≡ out.old.items
            ++ spaced (word.now ∷ bracketed (condition_words (program_tree self.entry.program.now) (bool_expression_tree c.now)) ∷ [])) }
    {
        put_word(out, word)?;
        self.put_bracketed_condition(out, c)
    }

    /// `[e]`
    fn put_bracketed(self, out: &mut Vec<u8>, e: &IntExpression) -> Result<(), AllocError>
        ensures { OnOk result (out.new.items ≡ out.old.items
            ++ spaced (bracketed (integer_words (program_tree self.entry.program.now) (int_expression_tree e.now)) ∷ [])) }
    {
        open_bracket(out)?;
        put_integer(out, self, e)?;
        close_bracket(out)
    }

    /// `[c]`
    fn put_bracketed_condition(
        self,
        out: &mut Vec<u8>,
        c: &BoolExpression,
    ) -> Result<(), AllocError>
        ensures { OnOk result (out.new.items ≡ out.old.items
            ++ spaced (bracketed (condition_words (program_tree self.entry.program.now) (bool_expression_tree c.now)) ∷ [])) }
    {
        open_bracket(out)?;
        put_condition(out, self, c)?;
        close_bracket(out)
    }

    /// Puts the words of a vertex apply, of one function or of two that are done together. The only error is out of memory.
    pub fn put_vertices(
        self,
        out: &mut Vec<u8>,
        set: VarRef,
        first: usize,
        second: Option<usize>,
    ) -> Result<(), AllocError>
        ensures { OnOk result (out.new.items ≡ out.old.items ++ spaced (vertices_words (program_tree self.entry.program.now) set first second)) }
    {
        let functions = &self.program.vertex_functions;
        self.put_words(out, b"vapply", set.name)?;
        put_word(out, self.function(functions, first))?;
        match second {
            None => Ok(()),
            Some(second) => put_word(out, self.function(functions, second)),
        }
    }
}

/// How a reduction of an entry is spelled.
fn reduction_text(reduction: Reduction) -> &'static [u8]
    ensures { result.now ≡ reduction_word reduction }
{
    match reduction {
        Reduction::Min => b"min=",
        Reduction::Max => b"max=",
        Reduction::Plus => b"+=",
    }
}

/// The operator that a reduction is.
fn reducing_text(reduction: Reduction) -> &'static [u8]
    ensures { result.now ≡ reducing_word reduction }
{
    match reduction {
        Reduction::Min => b"min",
        Reduction::Max => b"max",
        Reduction::Plus => b"+",
    }
}
