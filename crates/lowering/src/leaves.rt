//! Statements without blocks: one instruction each.
ghost use Rattle.std.specs.Prelude.{◌≡◌, ◌++◌, ◌∷◌, [], IfOk, OnOk, length, slice_set, vec_len};
ghost use Rattle.typed_tree.specs.BlockTree.{DeclareInt, simple_statement_tree};
ghost use Rattle.typed_tree.specs.BoolExpressionTree.{bool_expression_tree};
ghost use Rattle.typed_tree.specs.IntExpressionTree.{int_expression_tree};
ghost use Rattle.typed_tree.specs.ProgramTree.{program_tree};
ghost use Rattle.apply_options.specs.ScheduleTree.{no_apply_schedule};
ghost use Rattle.plans.specs.Instruction.{Advance, Do, Enter, Jump, Turn, Unless, UnlessBelow};
ghost use Rattle.plans.specs.Plan.{chosen, depth_in_loop, loop_step, plain as plain_tree, depth_with_integer};
ghost use Rattle.plan_text.specs.Expressions.{spaced};
ghost use Rattle.plans.specs.Operation.{part_tree, IsOperation};
ghost use Rattle.plans.specs.inside.Parts.{fused_pair_tree};
ghost use Rattle.lowering.specs.inside.Putting.{BeginsLoop, Fills, KeepsIndex, Puts};
ghost use Rattle.lowering.specs.Text.{IsWritten, operation_words, shown_part};
ghost use Rattle.lowering.specs.inside.Visible.{depth_of};

use crate::blocks::Lowering;
use crate::operations::{bool_kernel, int_kernel, int_operation, operation_of};
use crate::visible::Visible;
use algorithm_meaning::Depth;
use apply_options::ApplySchedule;
use plan_text::{AppliedFunction, ChangedSet, Lines};
use plans::{
    ApplyOperation, ControlOperation, EdgePart, FusedPair, Instruction, IntUse, PartResult,
    PlanOperation,
};
use std::alloc::AllocError;
use typed_tree::{BoolExpression, IntExpression, MainStatement, SimpleStatement};

/// The head of an instruction: the statement that it comes from, what stays visible, and what a run shows that ends there.
#[derive(Clone, Copy)]
pub(crate) struct InstructionHead {
    pub(crate) number: u64,
    pub(crate) keep: Depth,
    pub(crate) shown: Depth,
}

/// What a `for` goes over: its name, its first value, and the bound that it stays below.
#[derive(Clone, Copy)]
pub(crate) struct ForRange<'a> {
    pub(crate) name: usize,
    pub(crate) first: &'a IntExpression,
    pub(crate) end: &'a IntExpression,
}

/// An instruction at what is visible.
pub(crate) fn plain(
    number: u64,
    depth: Depth,
    operation: PlanOperation,
    words: Vec<u8>,
) -> Instruction
    ensures operation { result.operation ≡ operation }
    ensures number { result.number ≡ number }
    ensures keep { result.keep ≡ depth }
    ensures shown { result.shown ≡ depth }
    ensures apply_schedule { result.apply_schedule ≡ no_apply_schedule }
    ensures words { result.words ≡ words }
{
    let head = InstructionHead {
        number,
        keep: depth,
        shown: depth,
    };
    instruction_of(head, operation, words)
}

/// An instruction of which a schedule says nothing.
fn instruction_of(head: InstructionHead, operation: PlanOperation, words: Vec<u8>) -> Instruction
    ensures operation { result.operation ≡ operation }
    ensures number { result.number ≡ head.number }
    ensures keep { result.keep ≡ head.keep }
    ensures shown { result.shown ≡ head.shown }
    ensures apply_schedule { result.apply_schedule ≡ no_apply_schedule }
    ensures words { result.words ≡ words }
{
    Instruction {
        number: head.number,
        keep: head.keep,
        shown: head.shown,
        apply_schedule: ApplySchedule::none(),
        operation,
        words,
    }
}

/// Puts an instruction in the place of one that is there.
fn replace(code: &mut Vec<Instruction>, index: usize, instruction: Instruction)
    ensures { code.new.items ≡ slice_set code.old.items index instruction }
{
    if index < code.len() {
        code[index] = instruction;
    }
}

impl Lowering<'_> {
    /// `unless [c] X`
    fn unless(
        self,
        head: InstructionHead,
        c: &BoolExpression,
        to: usize,
    ) -> Result<Instruction, AllocError>
        ensures { IfOk result (λ i. IsWritten (program_tree self.entry.program.now) i
            (loop_step head.number head.keep head.shown (Unless (bool_expression_tree c.now) to))) }
    {
        let mut words = Vec::new(self.alloc);
        Lines {
            program: self.program,
        }
        .put_unless(&mut words, c)?;
        let test = bool_kernel(self.alloc, c, head.keep)?;
        Ok(instruction_of(
            head,
            PlanOperation::Control(ControlOperation::Unless { test, to }),
            words,
        ))
    }

    /// `turn`
    fn turn(self, head: InstructionHead) -> Result<Instruction, AllocError>
        ensures { IfOk result (λ i. IsWritten (program_tree self.entry.program.now) i (loop_step head.number head.keep head.shown Turn)) }
    {
        let mut words = Vec::new(self.alloc);
        words.extend_from_slice(b"turn ")?;
        Ok(instruction_of(head, PlanOperation::Control(ControlOperation::Turn), words))
    }

    /// `jump X`
    fn jump(self, head: InstructionHead, to: usize) -> Result<Instruction, AllocError>
        ensures { IfOk result (λ i. IsWritten (program_tree self.entry.program.now) i (loop_step head.number head.keep head.shown (Jump to))) }
    {
        let mut words = Vec::new(self.alloc);
        words.extend_from_slice(b"jump ")?;
        Ok(instruction_of(
            head,
            PlanOperation::Control(ControlOperation::Jump { to }),
            words,
        ))
    }

    /// `set i [i 1 +]`
    fn advance(self, number: u64, depth: Depth, name: usize) -> Result<Instruction, AllocError>
        ensures { IfOk result (λ i. IsWritten (program_tree self.entry.program.now) i (plain_tree number depth (Advance name))) }
    {
        let mut words = Vec::new(self.alloc);
        Lines {
            program: self.program,
        }
        .put_advance(&mut words, name)?;
        Ok(plain(
            number,
            depth,
            PlanOperation::Control(ControlOperation::Advance { name }),
            words,
        ))
    }

    /// `unless [i i.end <] X`
    fn unless_below(
        self,
        head: InstructionHead,
        name: usize,
        to: usize,
    ) -> Result<Instruction, AllocError>
        ensures { IfOk result (λ i. IsWritten (program_tree self.entry.program.now) i (loop_step head.number head.keep head.shown (UnlessBelow name to))) }
    {
        let mut words = Vec::new(self.alloc);
        Lines {
            program: self.program,
        }
        .put_below(&mut words, name)?;
        Ok(instruction_of(
            head,
            PlanOperation::Control(ControlOperation::UnlessBelow { name, to }),
            words,
        ))
    }

    /// Puts that a `for`'s name gets its first value.
    fn put_first(
        self,
        number: u64,
        depth: Depth,
        name: usize,
        e: &IntExpression,
        code: &mut Vec<Instruction>,
    ) -> Result<(), AllocError>
        ensures { OnOk result (Puts (program_tree self.entry.program.now) code.old.items code.new.items
            (plain_tree number depth (Do (DeclareInt name (int_expression_tree e.now))) ∷ [])) }
    {
        code.push(self.first(number, depth, name, e)?)?;
        Ok(())
    }

    /// `set i [a]`
    fn first(
        self,
        number: u64,
        depth: Depth,
        name: usize,
        e: &IntExpression,
    ) -> Result<Instruction, AllocError>
        ensures { IfOk result (λ i. IsWritten (program_tree self.entry.program.now) i
            (plain_tree number depth (Do (DeclareInt name (int_expression_tree e.now))))) }
    {
        let mut words = Vec::new(self.alloc);
        Lines {
            program: self.program,
        }
        .put_set_integer(&mut words, name, e)?;
        let operation = int_operation(self.alloc, e, IntUse::Declare { name }, depth)?;
        Ok(plain(number, depth, PlanOperation::Value(operation), words))
    }

    /// Puts that a `for`'s bound gets its value.
    fn put_enter(
        self,
        head: InstructionHead,
        name: usize,
        e: &IntExpression,
        code: &mut Vec<Instruction>,
    ) -> Result<(), AllocError>
        ensures { OnOk result (Puts (program_tree self.entry.program.now) code.old.items code.new.items
            (loop_step head.number head.keep head.shown (Enter name (int_expression_tree e.now)) ∷ [])) }
    {
        code.push(self.enter(head, name, e)?)?;
        Ok(())
    }

    /// `set i.end [b]`
    fn enter(
        self,
        head: InstructionHead,
        name: usize,
        e: &IntExpression,
    ) -> Result<Instruction, AllocError>
        ensures { IfOk result (λ i. IsWritten (program_tree self.entry.program.now) i
            (loop_step head.number head.keep head.shown (Enter name (int_expression_tree e.now)))) }
    {
        let mut words = Vec::new(self.alloc);
        Lines {
            program: self.program,
        }
        .put_bound(&mut words, name, e)?;
        let end = int_kernel(self.alloc, e, head.shown)?;
        Ok(instruction_of(
            head,
            PlanOperation::Control(ControlOperation::Enter { name, end }),
            words,
        ))
    }

    /// Keeps an index for an instruction that is known when the block after it stands. Answers the index.
    pub(crate) fn keep_index(
        self,
        head: InstructionHead,
        code: &mut Vec<Instruction>,
    ) -> Result<usize, AllocError>
        ensures { IfOk result (λ index. KeepsIndex code.old.items code.new.items index) }
    {
        let index = code.len();
        code.push(plain(
            head.number,
            head.shown,
            PlanOperation::Control(ControlOperation::End),
            Vec::new(self.alloc),
        ))?;
        Ok(index)
    }

    /// Keeps an index for the test of a loop, and puts the turn. Answers the index.
    pub(crate) fn begin_loop(
        self,
        head: InstructionHead,
        code: &mut Vec<Instruction>,
    ) -> Result<usize, AllocError>
        ensures { IfOk result (λ index. BeginsLoop (program_tree self.entry.program.now) code.old.items code.new.items index
            (loop_step head.number head.keep head.shown Turn)) }
    {
        let index = self.keep_index(head, code)?;
        code.push(self.turn(head)?)?;
        Ok(index)
    }

    /// Puts a jump.
    pub(crate) fn put_jump(
        self,
        head: InstructionHead,
        to: usize,
        code: &mut Vec<Instruction>,
    ) -> Result<(), AllocError>
        ensures { OnOk result (Puts (program_tree self.entry.program.now) code.old.items code.new.items
            (loop_step head.number head.keep head.shown (Jump to) ∷ [])) }
    {
        code.push(self.jump(head, to)?)?;
        Ok(())
    }

    /// Puts that the name of a `for` gets its next value, and the jump to the test.
    pub(crate) fn put_back(
        self,
        head: InstructionHead,
        name: usize,
        test: usize,
        code: &mut Vec<Instruction>,
    ) -> Result<(), AllocError>
        ensures { OnOk result (Puts (program_tree self.entry.program.now) code.old.items code.new.items
            (plain_tree head.number head.shown (Advance name) ∷ loop_step head.number head.keep head.shown (Jump test) ∷ [])) }
    {
        code.push(self.advance(head.number, head.shown, name)?)?;
        self.put_jump(head, test, code)
    }

    /// Puts a test at the index that was kept for it.
    pub(crate) fn fill_unless(
        self,
        head: InstructionHead,
        c: &BoolExpression,
        to: usize,
        index: usize,
        code: &mut Vec<Instruction>,
    ) -> Result<(), AllocError>
        ensures { OnOk result (Fills (program_tree self.entry.program.now) code.old.items code.new.items index
            (loop_step head.number head.keep head.shown (Unless (bool_expression_tree c.now) to))) }
    {
        let unless = self.unless(head, c, to)?;
        replace(code, index, unless);
        Ok(())
    }

    /// Puts the test of a `for`, which goes after the code, at the index that was kept for it.
    pub(crate) fn fill_unless_below(
        self,
        head: InstructionHead,
        name: usize,
        index: usize,
        code: &mut Vec<Instruction>,
    ) -> Result<(), AllocError>
        ensures { OnOk result (Fills (program_tree self.entry.program.now) code.old.items code.new.items index
            (loop_step head.number head.keep head.shown (UnlessBelow name (length code.old.items)))) }
    {
        let below = self.unless_below(head, name, code.len())?;
        replace(code, index, below);
        Ok(())
    }

    /// Puts a jump after the code at the index that was kept for it.
    pub(crate) fn fill_jump(
        self,
        head: InstructionHead,
        index: usize,
        code: &mut Vec<Instruction>,
    ) -> Result<(), AllocError>
        ensures { OnOk result (Fills (program_tree self.entry.program.now) code.old.items code.new.items index
            (loop_step head.number head.keep head.shown (Jump (length code.old.items)))) }
    {
        let jump = self.jump(head, code.len())?;
        replace(code, index, jump);
        Ok(())
    }

    /// Puts that a `for`'s name and bound get their values; after them both are visible.
    pub(crate) fn put_bounds(
        self,
        number: u64,
        range: ForRange<'_>,
        visible: &mut Visible,
        code: &mut Vec<Instruction>,
    ) -> Result<(), AllocError>
        ensures code { OnOk result (Puts (program_tree self.entry.program.now) code.old.items code.new.items
            (plain_tree number (depth_of visible.old) (Do (DeclareInt range.entry.name (int_expression_tree range.entry.first.now)))
            ∷ loop_step number (depth_with_integer (depth_of visible.old)) (depth_of visible.old) (Enter range.entry.name (int_expression_tree range.entry.end.now)) ∷ [])) }
        ensures visible { OnOk result (depth_of visible.new ≡ depth_in_loop (depth_of visible.old)) }
    {
        let ForRange { name, first, end } = range;
        let depth = visible.depth();
        self.put_first(number, depth, name, first, code)?;
        visible.declare_int(name)?;
        let head = InstructionHead {
            number,
            keep: visible.depth(),
            shown: depth,
        };
        self.put_enter(head, name, end, code)?;
        visible.declare_int(name)
    }

    /// Puts the instruction of a statement without a block, which has this number and this label.
    pub(crate) fn put_simple(
        self,
        number: u64,
        label: Option<usize>,
        statement: &SimpleStatement,
        depth: Depth,
        code: &mut Vec<Instruction>,
    ) -> Result<(), AllocError>
        ensures { OnOk result (Puts (program_tree self.entry.program.now) code.old.items code.new.items
            (chosen self.entry.schedule.now number label depth (Do (simple_statement_tree statement.now)) ∷ [])) }
    {
        let apply_schedule = self.schedule.apply_schedule_at(label);
        let mut words = Vec::new(self.alloc);
        Lines {
            program: self.program,
        }
        .put_simple(&mut words, statement, apply_schedule)?;
        let operation = operation_of(self.alloc, statement, depth)?;
        code.push(Instruction {
            number,
            keep: depth,
            shown: depth,
            apply_schedule,
            operation,
            words,
        })?;
        Ok(())
    }

    /// Puts the instruction of two applies that are done together.
    pub(crate) fn put_pair(
        self,
        statement: &MainStatement,
        pair: FusedPair,
        depth: Depth,
        code: &mut Vec<Instruction>,
    ) -> Result<(), AllocError>
        ensures { OnOk result (Puts (program_tree self.entry.program.now) code.old.items code.new.items
            (chosen self.entry.schedule.now statement.now.number statement.now.label depth (fused_pair_tree pair) ∷ [])) }
    {
        let apply_schedule = self.schedule.apply_schedule_at(statement.label);
        let mut words = Vec::new(self.alloc);
        self.put_pair_words(&mut words, pair, apply_schedule)?;
        code.push(Instruction {
            number: statement.number,
            keep: depth,
            shown: depth,
            apply_schedule,
            operation: operation_of_pair(pair),
            words,
        })?;
        Ok(())
    }

    fn put_pair_words(
        self,
        words: &mut Vec<u8>,
        pair: FusedPair,
        apply_schedule: ApplySchedule,
    ) -> Result<(), AllocError>
        ensures { OnOk result (words.new.items ≡ words.old.items
            ++ spaced (operation_words (program_tree self.entry.program.now) apply_schedule (fused_pair_tree pair))) }
    {
        let lines = Lines {
            program: self.program,
        };
        match pair {
            FusedPair::Edges {
                ends,
                first,
                second,
            } => {
                lines.put_edges(
                    words,
                    ends,
                    part_of(first),
                    Some(part_of(second)),
                    apply_schedule,
                )
            }
            FusedPair::Vertices { set, first, second } => {
                lines.put_vertices(words, set, first, Some(second))
            }
        }
    }
}

/// What two applies that are done together do.
fn operation_of_pair(pair: FusedPair) -> PlanOperation
    ensures { (keep shown : Depth) → IsOperation keep shown result (fused_pair_tree pair) }
{
    match pair {
        FusedPair::Edges {
            ends,
            first,
            second,
        } => PlanOperation::Apply(ApplyOperation::ApplyEdges {
            ends,
            first,
            second: Some(second),
        }),
        FusedPair::Vertices { set, first, second } => PlanOperation::Apply(
            ApplyOperation::ApplyVertices {
                set,
                first,
                second: Some(second),
            },
        ),
    }
}

/// An edge function as the plan's text names it.
fn part_of(part: EdgePart) -> AppliedFunction
    ensures { result ≡ shown_part (part_tree part) }
{
    let changed = match part.result {
        PartResult::Dropped => None,
        PartResult::Declared { name, vector } => Some(ChangedSet { name, vector }),
        PartResult::Assigned { set, vector } => Some(ChangedSet {
            name: set.name,
            vector,
        }),
    };
    AppliedFunction {
        function: part.function,
        changed,
    }
}
