//! Statements as instructions.
ghost use Rattle.std.specs.Prelude.{◌≡◌, ℕ, IfOk, OnOk, Option, false, length};
ghost use Rattle.typed_tree.specs.BlockTree.{For, If, IfElse, While, statement_kind_tree, block_tree};
ghost use Rattle.typed_tree.specs.BoolExpressionTree.{bool_expression_tree};
ghost use Rattle.typed_tree.specs.IntExpressionTree.{int_expression_tree};
ghost use Rattle.typed_tree.specs.ProgramTree.{program_tree};
ghost use Rattle.plans.specs.Fusing.{fusion_role_of, takes_next};
ghost use Rattle.plans.specs.Plan.{depth_after, depth_after_all, plan, plan_all, plan_in};
ghost use Rattle.lowering.specs.inside.Putting.{Puts};
ghost use Rattle.lowering.specs.inside.Visible.{depth_of};

use crate::fusing::pair_at;
use crate::leaves::{ForRange, InstructionHead};
use crate::visible::Visible;
use plans::Instruction;
use schedule::Schedule;
use std::alloc::{AllocError, Global};
use typed_tree::{BoolExpression, MainStatement, StatementKind, Typed};

/// Lowers the statements of a program under a schedule.
#[derive(Clone, Copy)]
pub(crate) struct Lowering<'a> {
    pub(crate) alloc: Global,
    pub(crate) program: &'a Typed,
    pub(crate) schedule: &'a Schedule,
}

/// The blocks of a choice: that which is done where its test holds, and that which is done where it fails.
#[derive(Clone, Copy)]
pub(crate) struct Branches<'a> {
    pub(crate) body: &'a [MainStatement],
    pub(crate) other: &'a [MainStatement],
}

impl Lowering<'_> {
    /// Puts the instructions of a block after the others.
    #[cycle(lower)]
    pub(crate) fn put_all(
        self,
        statements: &[MainStatement],
        visible: &mut Visible,
        code: &mut Vec<Instruction>,
    ) -> Result<(), AllocError>
        ensures code { OnOk result (Puts (program_tree self.entry.program.now) code.old.items code.new.items
            (plan_all (program_tree self.entry.program.now) self.entry.schedule.now (length code.old.items) (depth_of visible.old) false
            (block_tree statements.now))) }
        ensures visible { OnOk result (depth_of visible.new ≡ depth_after_all (block_tree statements.now) (depth_of visible.old)) }
    {
        let mut left = statements;
        let mut is_done = false;
        'statements: while let Some((statement, rest)) = left.split_first() {
            is_done = self.put_next(statement, rest, is_done, visible, code)?;
            left = rest;
        }
        Ok(())
    }

    /// Puts those of a statement before others, which may be done already or be done with the next. Answers whether the
    /// next one is done with it.
    #[cycle(lower)]
    fn put_next(
        self,
        statement: &MainStatement,
        rest: &[MainStatement],
        is_done: bool,
        visible: &mut Visible,
        code: &mut Vec<Instruction>,
    ) -> Result<bool, AllocError>
        ensures next { IfOk result (λ next. next ≡ takes_next
            (fusion_role_of (program_tree self.entry.program.now) self.entry.schedule.now (depth_of visible.old) is_done statement.now.label
            (statement_kind_tree statement.now.action) (block_tree rest.now))) }
        ensures code { OnOk result (Puts (program_tree self.entry.program.now) code.old.items code.new.items
            (plan_in (fusion_role_of (program_tree self.entry.program.now) self.entry.schedule.now (depth_of visible.old) is_done statement.now.label
            (statement_kind_tree statement.now.action) (block_tree rest.now))
            self.entry.schedule.now statement.now.number statement.now.label (depth_of visible.old)
            (plan (program_tree self.entry.program.now) self.entry.schedule.now (length code.old.items) (depth_of visible.old) statement.now.number
            statement.now.label (statement_kind_tree statement.now.action)))) }
        ensures visible { OnOk result (depth_of visible.new ≡ depth_after (statement_kind_tree statement.now.action) (depth_of visible.old)) }
    {
        if is_done {
            visible.declare(&statement.action)?;
            return Ok(false);
        }
        let depth = visible.depth();
        let pair = pair_at(
            self.alloc,
            self.program,
            self.schedule,
            depth,
            statement,
            rest,
        )?;
        match pair {
            None => self.put_statement(statement, visible, code)?,
            Some(pair) => {
                self.put_pair(statement, pair, depth, code)?;
                visible.declare(&statement.action)?;
            }
        }
        Ok(pair.is_some())
    }

    /// Puts those of a statement that is done alone.
    #[cycle(lower)]
    fn put_statement(
        self,
        statement: &MainStatement,
        visible: &mut Visible,
        code: &mut Vec<Instruction>,
    ) -> Result<(), AllocError>
        ensures code { OnOk result (Puts (program_tree self.entry.program.now) code.old.items code.new.items
            (plan (program_tree self.entry.program.now) self.entry.schedule.now (length code.old.items) (depth_of visible.old) statement.now.number
            statement.now.label (statement_kind_tree statement.now.action))) }
        ensures visible { OnOk result (depth_of visible.new ≡ depth_after (statement_kind_tree statement.now.action) (depth_of visible.old)) }
    {
        let number = statement.number;
        match &statement.action {
            StatementKind::Simple(simple) => {
                self.put_simple(number, statement.label, simple, visible.depth(), code)?;
                visible.declare_simple(simple)
            }
            StatementKind::If(c, body) => self.put_if(number, c, body, visible, code),
            StatementKind::IfElse(c, body, other) => {
                let branches = Branches { body, other };
                self.put_apply_schedule(number, c, branches, visible, code)
            }
            StatementKind::While(c, body) => self.put_while(number, c, body, visible, code),
            StatementKind::For(name, first, end, body) => {
                let range = ForRange {
                    name: *name,
                    first,
                    end,
                };
                self.put_for(number, range, body, visible, code)
            }
        }
    }

    /// `if`: a test, the body, and after it the index that the test goes to.
    #[cycle(lower)]
    fn put_if(
        self,
        number: u64,
        c: &BoolExpression,
        body: &[MainStatement],
        visible: &mut Visible,
        code: &mut Vec<Instruction>,
    ) -> Result<(), AllocError>
        ensures code { (label : Option ℕ) → OnOk result (Puts (program_tree self.entry.program.now) code.old.items code.new.items
            (plan (program_tree self.entry.program.now) self.entry.schedule.now (length code.old.items) (depth_of visible.old) number label
            (If (bool_expression_tree c.now) (block_tree body.now)))) }
        ensures visible { OnOk result (depth_of visible.new ≡ depth_of visible.old) }
    {
        let depth = visible.depth();
        let head = InstructionHead {
            number,
            keep: depth,
            shown: depth,
        };
        let test = self.keep_index(head, code)?;
        self.put_inside(body, visible, code)?;
        self.fill_unless(head, c, code.len(), test, code)
    }

    /// `if` and `else`: between the two blocks stands a jump after the second.
    #[cycle(lower)]
    fn put_apply_schedule(
        self,
        number: u64,
        c: &BoolExpression,
        branches: Branches<'_>,
        visible: &mut Visible,
        code: &mut Vec<Instruction>,
    ) -> Result<(), AllocError>
        ensures code { (label : Option ℕ) → OnOk result (Puts (program_tree self.entry.program.now) code.old.items code.new.items
            (plan (program_tree self.entry.program.now) self.entry.schedule.now (length code.old.items) (depth_of visible.old) number label
            (IfElse (bool_expression_tree c.now) (block_tree branches.entry.body.now) (block_tree branches.entry.other.now)))) }
        ensures visible { OnOk result (depth_of visible.new ≡ depth_of visible.old) }
    {
        let depth = visible.depth();
        let head = InstructionHead {
            number,
            keep: depth,
            shown: depth,
        };
        let test = self.keep_index(head, code)?;
        self.put_inside(branches.body, visible, code)?;
        self.fill_unless(head, c, code.len() + 1, test, code)?;
        let jump = self.keep_index(head, code)?;
        self.put_inside(branches.other, visible, code)?;
        self.fill_jump(head, jump, code)
    }

    /// `while`: a test, a turn, the body, and a jump back.
    #[cycle(lower)]
    fn put_while(
        self,
        number: u64,
        c: &BoolExpression,
        body: &[MainStatement],
        visible: &mut Visible,
        code: &mut Vec<Instruction>,
    ) -> Result<(), AllocError>
        ensures code { (label : Option ℕ) → OnOk result (Puts (program_tree self.entry.program.now) code.old.items code.new.items
            (plan (program_tree self.entry.program.now) self.entry.schedule.now (length code.old.items) (depth_of visible.old) number label
            (While (bool_expression_tree c.now) (block_tree body.now)))) }
        ensures visible { OnOk result (depth_of visible.new ≡ depth_of visible.old) }
    {
        let depth = visible.depth();
        let head = InstructionHead {
            number,
            keep: depth,
            shown: depth,
        };
        let test = self.begin_loop(head, code)?;
        self.put_inside(body, visible, code)?;
        self.put_jump(head, test, code)?;
        self.fill_unless(head, c, code.len(), test, code)
    }

    /// `for`: the name and the bound get their values; then a test, a turn, the body, the next value and a jump back.
    #[cycle(lower)]
    fn put_for(
        self,
        number: u64,
        range: ForRange<'_>,
        body: &[MainStatement],
        visible: &mut Visible,
        code: &mut Vec<Instruction>,
    ) -> Result<(), AllocError>
        ensures code { (label : Option ℕ) → OnOk result (Puts (program_tree self.entry.program.now) code.old.items code.new.items
            (plan (program_tree self.entry.program.now) self.entry.schedule.now (length code.old.items) (depth_of visible.old) number label
            (For range.entry.name (int_expression_tree range.entry.first.now) (int_expression_tree range.entry.end.now) (block_tree body.now)))) }
        ensures visible { OnOk result (depth_of visible.new ≡ depth_of visible.old) }
    {
        let depth = visible.depth();
        self.put_bounds(number, range, visible, code)?;
        let inside = visible.depth();
        let head = InstructionHead {
            number,
            keep: inside,
            shown: depth,
        };
        let test = self.begin_loop(head, code)?;
        self.put_inside(body, visible, code)?;
        self.put_back(head, range.name, test, code)?;
        self.fill_unless_below(head, range.name, test, code)?;
        visible.cut(depth);
        Ok(())
    }

    /// Puts the instructions of a block inside a statement, after which nothing of it is visible.
    #[cycle(lower)]
    fn put_inside(
        self,
        body: &[MainStatement],
        visible: &mut Visible,
        code: &mut Vec<Instruction>,
    ) -> Result<(), AllocError>
        ensures code { OnOk result (Puts (program_tree self.entry.program.now) code.old.items code.new.items
            (plan_all (program_tree self.entry.program.now) self.entry.schedule.now (length code.old.items) (depth_of visible.old) false
            (block_tree body.now))) }
        ensures visible { OnOk result (depth_of visible.new ≡ depth_of visible.old) }
    {
        let depth = visible.depth();
        self.put_all(body, visible, code)?;
        visible.cut(depth);
        Ok(())
    }
}
