//! Run state: the variables, sets and vectors of a run, and the calls on them.
ghost use Rattle.std.specs.Prelude.{◌≡◌, ℕ, pos, ◌+◌, ◌<◌, ◌≤◌, Bool, length, slice_get, slice_index_or, IfOk, IfSome, IsSomeAnd, IsTrue, MatchBool, OnErr, OnOk, None, option_and_then};
ghost use Rattle.std.specs.Option.{ForSome};
ghost use Rattle.typed_tree.specs.IntExpressionTree.{IntExpressionTree};
ghost use Rattle.typed_tree.specs.BoolExpressionTree.{BoolExpressionTree};
ghost use Rattle.typed_tree.specs.ProgramTree.{ProgramTree};
ghost use Rattle.typed_tree.specs.FunctionStatementTree.{FunctionStatementsTree};
ghost use Rattle.algorithm_meaning.specs.Statements.{with_vectors, condition_line, integer_line, with_text, new_condition, reduce_int, set_bool, set_int, with_new_integer, with_scope};
ghost use Rattle.algorithm_meaning.specs.Meaning.{shown};
ghost use Rattle.algorithm_meaning.specs.Stand.{bool_value_in, int_value_in, vertex_in, vertex_number};
ghost use Rattle.algorithm_meaning.specs.State.{GraphValue, StateValue};
ghost use Rattle.algorithm_meaning.specs.Value.{members_of, reduce_at, with_entry};
ghost use Rattle.algorithm_meaning.specs.VertexSets.{after_vertices, after_assign_set, after_declare_set, inserted, members_for, with_members, with_new_set};
ghost use Rattle.kernels.specs.Meaning.{IsVertexCode};
ghost use Rattle.kernels.specs.Kernels.{IsBoolKernel, IsIntKernel, IsMainState, HasRegisters, IsFilterKernel};
ghost use Rattle.kernels.specs.RegisterCounts.{RegisterCounts};
ghost use Rattle.algorithm_meaning.specs.Loop.{depth_of, forget_beyond};
ghost use Rattle.vectors.specs.Changes.{with_all_changes};
ghost use Rattle.plans.specs.Operation.{AreFunctionKernels, set_value, IsFor};
ghost use Rattle.run_state.specs.View.{HasEntryForEach, IsViewOf};
ghost use Rattle.run_state.specs.State.{AreGroups, IsRunState, RunState, opened, opened_vectors, with_state};
ghost use Rattle.run_state.specs.SetUpdate.{IsUpdateOf, with_update};
ghost use Rattle.run_state.specs.VertexKernels.{IsVertexKernel};

use crate::filtering::filtered;
use crate::initial_vectors::open_vectors;
use crate::named_sets::NamedSets;
use crate::outcome::{first, name_vectors};
use crate::printed_text::{push_condition_line, push_integer_line};
use crate::run_end::RunEnd;
use crate::run_view::RunView;
use crate::set_update::SetUpdate;
use crate::vertices::run_for_all;
use algorithm_meaning::{Depth, Outcome, reduce};
use apply_options::Reduction;
use flat_snapshot::Flat;
use kernels::{Block, ExpressionKernel, FilterKernel, MainState, Registers, VertexKernel};
use plans::{FunctionKernels, SetExpression};
use std::alloc::{AllocError, Global};
use std::marker::Model;
use typed_tree::{Name, Sequence, Vector};
use vectors::{Changes, Vectors};
use vertex_sets::{Form, VertexSet};

/// What a run keeps: vectors, vertex sets with their names, the variables of `main`, what was printed, and how many turns
/// are left. A contract sees the state of `main`, how many vertices there are, and the groups of vectors that stand side by
/// side.
pub struct State {
    vectors: Vectors,
    vector_count: usize,
    sets: NamedSets,
    integers: Vec<i64>,
    conditions: Vec<bool>,
    text: Vec<u8>,
    turns: u64,
}

// By hand: a derived drop would be written out, and proved again, in each function that lets a state go.
impl Drop for State {
    fn drop(self) {
        let State {
            vectors: _,
            vector_count: _,
            sets: _,
            integers: _,
            conditions: _,
            text: _,
            turns: _,
        } = self;
    }
}

impl Model for State {
    ghost use Rattle.run_state.specs.State.{RunState};
    ghost use Rattle.run_state.specs.inside.NamedSets.{HaveLength, run_state};

    ghost Value = { RunState };

    ghost view = { λ s. run_state s.vectors s.sets s.integers.items s.conditions.items s.text.items s.turns };

    ghost invariant = { λ s. HaveLength s.vector_count s.sets.vertices s.vectors.vectors };
}

impl State {
    /// The state before the first statement, on a graph, with n turns: these vectors, of which those of a group
    /// stand together where the groups fit them, and constant sets of these names. The only error is out of memory.
    pub fn open(
        alloc: Global,
        vectors: &[Vector],
        sets: &[usize],
        groups: &[Sequence<usize>],
        graph: &Flat,
        turns: u64,
    ) -> Result<State, AllocError>
        ensures vertices { IfOk result (λ r. r.vertices ≡ graph.now.vertices) }
        ensures groups { IfOk result (λ r. AreGroups (opened_vectors graph.now vectors.now) groups.now r.groups) }
        ensures state { IfOk result (λ r. r.state ≡ opened graph.now vectors.now sets.now turns) }
    {
        let sets = NamedSets::open(alloc, graph.vertices(), sets)?;
        let opened = open_vectors(alloc, vectors, groups, graph)?;
        Ok(State {
            vectors: opened,
            vector_count: vectors.len(),
            sets,
            integers: Vec::new(alloc),
            conditions: Vec::new(alloc),
            text: Vec::new(alloc),
            turns,
        })
    }

    /// How many vertices there are.
    pub fn vertices(&self) -> u32
        ensures vertices { result ≡ self.now.vertices }
        ensures valid { IsRunState self.now }
    {
        // A proof reads the invariant here.
        let _vectors = &self.vectors;
        self.sets.vertices()
    }

    /// How many turns are left.
    pub fn turns(&self) -> u64
        ensures { result ≡ self.now.state.turns }
    {
        self.turns
    }

    /// How many variables and sets are visible.
    pub fn depth(&self) -> Depth
        ensures { result ≡ depth_of self.now.state }
    {
        Depth {
            integers: self.integers.len(),
            conditions: self.conditions.len(),
            sets: self.sets.len(),
        }
    }

    /// The `int` variable at an index, 0 where there is none.
    pub fn integer(&self, index: usize) -> i64
        ensures { result ≡ slice_index_or self.now.state.scope.integers index (pos 0) }
    {
        match self.integers.get(index) {
            Some(n) => *n,
            None => 0,
        }
    }

    /// How many vectors there are.
    pub fn vector_count(&self) -> usize
        ensures { result ≡ length self.now.state.vectors }
    {
        self.vector_count
    }

    /// Forgets the variables and sets that are beyond this. It takes no memory.
    pub fn forget_beyond(&mut self, depth: Depth)
        ensures { self.new ≡ with_state self.old (forget_beyond depth self.old.state) }
    {
        self.sets.truncate(depth.sets);
        self.integers.truncate(depth.integers);
        self.conditions.truncate(depth.conditions);
    }

    /// The value of an expression of type `int` where so much is visible, or `None` where an index in it is no vertex. The
    /// only error is out of memory.
    pub fn eval_int(
        &self,
        kernel: &ExpressionKernel,
        depth: Depth,
        registers: &mut Registers,
    ) -> Result<Option<i64>, AllocError>
        requires { IsFor depth kernel.now }
        ensures { IfOk result (λ n. (e : IntExpressionTree) → IsIntKernel kernel.now e
            → n ≡ int_value_in self.now.vertices e (forget_beyond depth self.now.state)) }
    {
        kernel.eval_int(self.main_state(depth), registers)
    }

    /// The value of an expression of type `bool`, in the same way.
    pub fn eval_bool(
        &self,
        kernel: &ExpressionKernel,
        depth: Depth,
        registers: &mut Registers,
    ) -> Result<Option<bool>, AllocError>
        requires { IsFor depth kernel.now }
        ensures { IfOk result (λ b. (c : BoolExpressionTree) → IsBoolKernel kernel.now c
            → b ≡ bool_value_in self.now.vertices c (forget_beyond depth self.now.state)) }
    {
        kernel.eval_bool(self.main_state(depth), registers)
    }

    /// The vertex that an expression of type `int` is, or `None` where it or an index in it is no vertex. The only error
    /// is out of memory.
    pub fn vertex(
        &self,
        kernel: &ExpressionKernel,
        depth: Depth,
        registers: &mut Registers,
    ) -> Result<Option<u32>, AllocError>
        requires { IsFor depth kernel.now }
        ensures vertex { IfOk result (λ v. (e : IntExpressionTree) → IsIntKernel kernel.now e
            → v ≡ vertex_in self.now.vertices e (forget_beyond depth self.now.state)) }
        ensures below { IfOk result (λ v. IfSome v (λ v. v < self.now.vertices)) }
    {
        let number = self.eval_int(kernel, depth, registers)?;
        Ok(vertex_below(number, self.sets.vertices()))
    }

    /// What expressions read where so much is visible.
    fn main_state(&self, depth: Depth) -> MainState<'_>
        ensures main { IsMainState result (forget_beyond depth self.now.state) }
        ensures vertices { result.vertices ≡ self.now.vertices }
        ensures integers { length result.integers.now ≤ depth.integers }
        ensures conditions { length result.conditions.now ≤ depth.conditions }
    {
        let sizes = first(self.sets.sizes(), depth.sets);
        let integers = first(&self.integers, depth.integers);
        let conditions = first(&self.conditions, depth.conditions);
        MainState {
            vectors: &self.vectors,
            sizes,
            vertices: self.sets.vertices(),
            integers,
            conditions,
        }
    }

    /// A new `int` variable. The only error is out of memory, and then nothing is changed.
    pub fn declare_int(&mut self, n: i64) -> Result<(), AllocError>
        ensures ok { OnOk result (self.new ≡ with_state self.old (with_new_integer self.old.state n)) }
        ensures err { OnErr result (self.new ≡ self.old) }
    {
        self.integers.push(n)?;
        Ok(())
    }

    /// Two new `int` variables. The only error is out of memory, and then nothing is changed.
    pub fn declare_two(&mut self, a: i64, b: i64) -> Result<(), AllocError>
        ensures ok { OnOk result (self.new ≡ with_state self.old (with_new_integer (with_new_integer self.old.state a) b)) }
        ensures err { OnErr result (self.new ≡ self.old) }
    {
        self.integers.reserve(2)?;
        self.integers.push_reserved(a);
        self.integers.push_reserved(b);
        Ok(())
    }

    /// A new `bool` variable. The only error is out of memory, and then nothing is changed.
    pub fn declare_bool(&mut self, b: bool) -> Result<(), AllocError>
        ensures ok { OnOk result (self.new ≡ with_state self.old (with_scope self.old.state (new_condition self.old.state.scope b))) }
        ensures err { OnErr result (self.new ≡ self.old) }
    {
        self.conditions.push(b)?;
        Ok(())
    }

    /// Sets the `int` variable at an index; where there is none nothing is changed.
    pub fn set_int(&mut self, index: usize, n: i64)
        ensures { self.new ≡ with_state self.old (with_scope self.old.state (set_int self.old.state.scope index n)) }
    {
        if index < self.integers.len() {
            self.integers[index] = n;
        }
    }

    /// Sets the `bool` variable at an index; where there is none nothing is changed.
    pub fn set_bool(&mut self, index: usize, b: bool)
        ensures { self.new ≡ with_state self.old (with_scope self.old.state (set_bool self.old.state.scope index b)) }
    {
        if index < self.conditions.len() {
            self.conditions[index] = b;
        }
    }

    /// Reduces the `int` variable at an index with a number; where there is none nothing is changed.
    pub fn reduce_int(&mut self, index: usize, reduction: Reduction, n: i64)
        ensures { self.new ≡ with_state self.old (with_scope self.old.state (reduce_int self.old.state.scope index reduction n)) }
    {
        if index < self.integers.len() {
            self.integers[index] = reduce(reduction, self.integers[index], n);
        }
    }

    /// Sets the entry of a vector at a vertex; where there is none nothing is changed.
    pub fn set_entry(&mut self, vector: usize, vertex: u32, n: i64)
        ensures { self.new ≡ with_state self.old (with_vectors self.old.state (with_entry self.old.state.vectors vector vertex n)) }
    {
        self.vectors.set(vector, vertex, n);
    }

    /// Reduces the entry of a vector at a vertex with a number; where there is none nothing is changed.
    pub fn reduce_entry(&mut self, vector: usize, vertex: u32, reduction: Reduction, n: i64)
        ensures { self.new ≡ with_state self.old (with_vectors self.old.state (reduce_at self.old.state.vectors vector vertex reduction n)) }
    {
        let before = self.vectors.lane(vector).get(vertex as usize);
        self.vectors
            .set(vector, vertex, reduce(reduction, before, n));
    }

    /// Prints a number. The only error is out of memory, and then nothing is changed.
    pub fn print_int(&mut self, n: i64) -> Result<(), AllocError>
        ensures ok { OnOk result (self.new ≡ with_state self.old (with_text self.old.state (integer_line n))) }
        ensures err { OnErr result (self.new ≡ self.old) }
    {
        push_integer_line(&mut self.text, n)
    }

    /// Prints a truth value. The only error is out of memory, and then nothing is changed.
    pub fn print_bool(&mut self, b: bool) -> Result<(), AllocError>
        ensures ok { OnOk result (self.new ≡ with_state self.old (with_text self.old.state (condition_line b))) }
        ensures err { OnErr result (self.new ≡ self.old) }
    {
        push_condition_line(&mut self.text, b)
    }

    /// Takes a turn, or says false where none is left, and then nothing is changed.
    pub fn take_turn(&mut self) -> bool
        ensures turn { MatchBool result (self.old.state.turns ≡ self.new.state.turns + 1) ((self.old.state.turns ≡ 0) × (self.new.state.turns ≡ 0)) }
        ensures state { self.new ≡ with_state self.old (record self.old.state { turns = self.new.state.turns }) }
    {
        if self.turns == 0 {
            return false;
        }
        self.turns -= 1;
        true
    }

    /// A new set variable of this name, with these members; an index without a set has none. The only error is out of
    /// memory, and then nothing is changed.
    pub fn declare_set(
        &mut self,
        alloc: Global,
        name: usize,
        members: SetExpression,
        functions: &FunctionKernels,
        block: &mut Block,
    ) -> Result<(), AllocError>
        ensures ok { OnOk result ((p : ProgramTree) (g : GraphValue) → AreFunctionKernels functions.now p → g.vertices ≡ self.old.vertices
            → self.new ≡ with_state self.old (after_declare_set p g name (set_value members) self.old.state)) }
        ensures vectors { self.new.state.vectors ≡ self.old.state.vectors }
        ensures turns { self.new.state.turns ≡ self.old.state.turns }
        ensures vertices { self.new.vertices ≡ self.old.vertices }
        ensures groups { self.new.groups ≡ self.old.groups }
        ensures err { OnErr result (self.new ≡ self.old) }
    {
        let set = self.set_of(alloc, members, functions, block)?;
        self.sets.push(name, set)
    }

    /// The set variable at an index gets these members; where there is none nothing is changed. The only error is out of
    /// memory, and then nothing is changed.
    pub fn assign_set(
        &mut self,
        alloc: Global,
        index: usize,
        members: SetExpression,
        functions: &FunctionKernels,
        block: &mut Block,
    ) -> Result<(), AllocError>
        ensures ok { OnOk result ((p : ProgramTree) (g : GraphValue) → AreFunctionKernels functions.now p → g.vertices ≡ self.old.vertices
            → self.new ≡ with_state self.old (after_assign_set p g index (set_value members) self.old.state)) }
        ensures vectors { self.new.state.vectors ≡ self.old.state.vectors }
        ensures turns { self.new.state.turns ≡ self.old.state.turns }
        ensures vertices { self.new.vertices ≡ self.old.vertices }
        ensures groups { self.new.groups ≡ self.old.groups }
        ensures err { OnErr result (self.new ≡ self.old) }
    {
        let set = self.set_of(alloc, members, functions, block)?;
        self.sets.replace(index, set);
        Ok(())
    }

    /// A set with these members.
    fn set_of(
        &self,
        alloc: Global,
        members: SetExpression,
        functions: &FunctionKernels,
        block: &mut Block,
    ) -> Result<VertexSet, AllocError>
        ensures vertices { IfOk result (λ s. s.vertices ≡ self.now.vertices) }
        ensures members { IfOk result (λ s. (p : ProgramTree) (g : GraphValue) → AreFunctionKernels functions.now p → g.vertices ≡ self.now.vertices
            → s.members ≡ members_for p g (set_value members) self.now.state) }
    {
        let vertices = self.sets.vertices();
        match members {
            SetExpression::Nothing => VertexSet::empty(alloc, vertices, Form::List),
            SetExpression::All => VertexSet::full(alloc, vertices, Form::Bits),
            SetExpression::Copy(slot) => match self.sets.get(slot.index) {
                Some(set) => set.to_form(alloc, set.form()),
                None => VertexSet::empty(alloc, vertices, Form::List),
            },
            SetExpression::Filter(slot, function) => {
                let filter = functions.filter.get(function);
                match self.sets.get(slot.index) {
                    Some(set) => {
                        filtered(alloc, filter, set, self.sets.sizes(), &self.vectors, block)
                    }
                    None => VertexSet::empty(alloc, vertices, Form::List),
                }
            }
        }
    }

    /// Gives the set at an index a vertex; where there is no set nothing is changed. The only error is out of memory, and
    /// then nothing is changed.
    pub fn add_vertex(&mut self, index: usize, vertex: u32) -> Result<(), AllocError>
        requires { vertex < self.old.vertices }
        ensures ok { OnOk result (self.new ≡ with_state self.old
            (with_members self.old.state index (inserted vertex (members_of (slice_get self.old.state.sets index))))) }
        ensures err { OnErr result (self.new ≡ self.old) }
    {
        self.sets.insert(index, vertex)
    }

    /// Runs a vertex function for each member of a set, and then the second, where there is one, in the same way. An index
    /// without a set has no members. The only error is out of memory, and then nothing is changed.
    pub fn apply_vertices(
        &mut self,
        set: usize,
        first: &VertexKernel,
        second: Option<&VertexKernel>,
        block: &mut Block,
    ) -> Result<(), AllocError>
        requires first { ∥ IsVertexKernel first.now ∥₁ }
        requires second { ForSome second (λ k. ∥ IsVertexKernel k.now ∥₁) }
        ensures one { OnOk result ((steps : FunctionStatementsTree) → IsVertexCode first.now.code.items steps → second.entry ≡ None
            → self.new ≡ with_state self.old (with_vectors self.old.state
            (after_vertices steps self.old.state.sets (members_of (slice_get self.old.state.sets set)) self.old.state.vectors))) }
        ensures two { OnOk result ((a b : FunctionStatementsTree) → IsVertexCode first.now.code.items a → IsSomeAnd second.entry (λ k. IsVertexCode k.now.code.items b)
            → self.new ≡ with_state self.old (with_vectors self.old.state
            (after_vertices b self.old.state.sets (members_of (slice_get self.old.state.sets set))
            (after_vertices a self.old.state.sets (members_of (slice_get self.old.state.sets set)) self.old.state.vectors)))) }
        ensures turns { self.new.state.turns ≡ self.old.state.turns }
        ensures vertices { self.new.vertices ≡ self.old.vertices }
        ensures groups { self.new.groups ≡ self.old.groups }
        ensures err { OnErr result (self.new ≡ self.old) }
    {
        block.make_room(first.room())?;
        match second {
            None => {
                self.apply(set, first, block);
                Ok(())
            }
            Some(second) => {
                block.make_room(second.room())?;
                self.apply(set, first, block);
                self.apply(set, second, block);
                Ok(())
            }
        }
    }

    /// Applies one function, for which the block has room, to the vertices of a set.
    fn apply(&mut self, set: usize, kernel: &VertexKernel, block: &mut Block)
        requires known { ∥ IsVertexKernel kernel.now ∥₁ }
        requires room { HasRegisters block.old kernel.now.room }
        ensures applied { (steps : FunctionStatementsTree) → IsVertexCode kernel.now.code.items steps
            → self.new ≡ with_state self.old (with_vectors self.old.state
            (after_vertices steps self.old.state.sets (members_of (slice_get self.old.state.sets set)) self.old.state.vectors)) }
        ensures turns { self.new.state.turns ≡ self.old.state.turns }
        ensures vertices { self.new.vertices ≡ self.old.vertices }
        ensures groups { self.new.groups ≡ self.old.groups }
        ensures keeps { (other : RegisterCounts) → HasRegisters block.old other → HasRegisters block.new other }
    {
        if let Some(members) = self.sets.get(set) {
            run_for_all(
                kernel,
                members.iter(),
                self.sets.sizes(),
                &mut self.vectors,
                block,
            );
        }
    }

    /// Lends what an edge apply reads, beside the functions and the graph.
    pub fn view<'a>(&'a self, functions: &'a FunctionKernels, graph: &'a Flat) -> RunView<'a>
        ensures seen { (p : ProgramTree) (g : GraphValue) → AreFunctionKernels functions.now p → graph.now.vertices ≡ g.vertices → graph.now.edges ≡ g.edges
            → IsViewOf result p self.now.state g }
        ensures functions { result.functions.now ≡ functions.now }
        ensures vectors { result.vectors.now.vectors ≡ self.now.state.vectors }
        ensures graph { result.graph.now ≡ graph.now }
        ensures entries { HasEntryForEach self.now.vertices self.now.state.vectors }
        ensures valid { IsRunState self.now }
    {
        // A proof reads the invariant here.
        let _ = self.vertices();
        RunView {
            functions,
            sets: self.sets.members(),
            sizes: self.sets.sizes(),
            vectors: &self.vectors,
            graph,
        }
    }

    /// Writes what an edge apply changes.
    pub fn write(&mut self, changes: &Changes)
        ensures { self.new ≡ with_state self.old (with_vectors self.old.state (with_all_changes changes.now.vectors.items self.old.state.vectors)) }
    {
        self.vectors.write(changes);
    }

    /// Does two updates of sets, one after the other. The only error is out of memory, and then nothing is changed.
    pub fn update_sets(&mut self, first: SetUpdate, second: SetUpdate) -> Result<(), AllocError>
        requires first { IsUpdateOf self.old.vertices first }
        requires second { IsUpdateOf self.old.vertices second }
        ensures ok { OnOk result (self.new ≡ with_state self.old (with_update (with_update self.old.state first) second)) }
        ensures err { OnErr result (self.new ≡ self.old) }
    {
        self.sets.update_sets(first, second)
    }

    /// What a run shows that ended so: its vectors by these names, and the sets that are visible. All that it shows is
    /// copied. The only error is out of memory.
    pub fn show(
        &self,
        alloc: Global,
        names: &[Name],
        vectors: &[Vector],
        run_end: RunEnd,
    ) -> Result<Outcome, AllocError>
        ensures { IfOk result (λ o. (p : ProgramTree) → p.names ≡ names.now → p.vectors ≡ vectors.now
            → o ≡ shown p run_end.turns (forget_beyond run_end.visible self.now.state) run_end.end) }
    {
        let RunEnd {
            turns,
            end,
            visible,
        } = run_end;
        let arrays = self.vectors.to_arrays(alloc)?;
        let shown = name_vectors(alloc, names, vectors, arrays)?;
        let sets = self.sets.shown(alloc, names, visible.sets)?;
        let text = Vec::from_slice(alloc, &self.text)?;
        Ok(Outcome {
            end,
            turns: turns.saturating_sub(self.turns),
            vectors: Sequence::new(shown),
            sets: Sequence::new(sets),
            text: Sequence::new(text),
        })
    }

    /// What a run that is over shows. What was printed and the vectors of no group are moved, not copied.
    pub fn into_outcome(
        self,
        alloc: Global,
        names: &[Name],
        vectors: &[Vector],
        run_end: RunEnd,
    ) -> Result<Outcome, AllocError>
        ensures { IfOk result (λ o. (p : ProgramTree) → p.names ≡ names.now → p.vectors ≡ vectors.now
            → o ≡ shown p run_end.turns (forget_beyond run_end.visible self.state) run_end.end) }
    {
        let RunEnd {
            turns,
            end,
            visible,
        } = run_end;
        let visible_sets = self.sets.shown(alloc, names, visible.sets)?;
        let State {
            vectors: kept,
            vector_count: _,
            sets: _,
            integers: _,
            conditions: _,
            text,
            turns: left,
        } = self;
        let arrays = kept.into_arrays(alloc)?;
        let shown = name_vectors(alloc, names, vectors, arrays)?;
        Ok(Outcome {
            end,
            turns: turns.saturating_sub(left),
            vectors: Sequence::new(shown),
            sets: Sequence::new(visible_sets),
            text: Sequence::new(text),
        })
    }
}

/// The vertex that a number is, if it is one of so many.
fn vertex_below(number: Option<i64>, vertices: u32) -> Option<u32>
    ensures vertex { result ≡ option_and_then (vertex_number vertices) number }
    ensures below { IfSome result (λ v. v < vertices) }
{
    let vertex = u32::try_from(number?).ok()?;
    if vertex < vertices {
        Some(vertex)
    } else {
        None
    }
}
