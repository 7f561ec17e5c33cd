//! Scopes: which names are visible at a point of a source, and what each is.
ghost use Rattle.std.specs.Prelude.{◌≡◌, ◌≤◌, ◌+◌, ◌*◌, ◌^◌, OnErr, length};
ghost use Rattle.expression_types.specs.ScopeTree.{found, KeepsNames, conditions_of, declared, empty_scope, entered, integers_of, left, mark_of, sets_of};
ghost use Rattle.expression_types.specs.Faults.{ReportsFaults};

use crate::fault::{Fault, TypeRule, note};
use crate::names::Names;
use std::alloc::{AllocError, Global};
use std::marker::Model;
use syntax::Name;
use typed_tree::{Endpoint, VarRef};

/// What a visible name is.
#[derive(Clone, Copy, Debug, PartialEq, Eq)]
pub enum Entity {
    /// The constant edgeset, and whether the weights of its edges are seen.
    Edges(bool),
    /// The constant vector at this index.
    Vector(usize),
    /// A constant vertex set.
    ConstantSet(VarRef),
    /// A constant int: the index of its name in the program's names, and its value.
    IntConstant(usize, i64),
    /// A constant bool, in the same way.
    BoolConstant(usize, bool),
    /// A variable of type int.
    IntVariable(VarRef),
    /// A variable of type bool, or a filter's result.
    BoolVariable(VarRef),
    /// A variable that is a vertex set.
    SetVariable(VarRef),
    /// The name of a `for`.
    LoopVariable(VarRef),
    /// A parameter of the function: a vertex that it works on.
    Parameter(Endpoint),
    /// The third parameter of an edge function: the weight of the edge that it works on.
    Weight,
    /// The edge function at this index, and whether it has the weight as its third parameter.
    EdgeFunction(usize, bool),
    /// The vertex function at this index.
    VertexFunction(usize),
    /// The filter at this index.
    Filter(usize),
    /// The function that is run.
    Main,
    /// Its declaration is faulty, so that its uses cause no fault.
    Error,
}

/// Where expressions and statements stand.
#[derive(Clone, Copy, Debug, PartialEq, Eq)]
pub enum Inside {
    /// In `main`, or outside of functions.
    Main,
    EdgeFunction,
    VertexFunction,
    Filter,
}

/// The names that are visible at a point of a source.
pub struct Scope {
    names: Names<Entity>,
    inside: Inside,
    integers: usize,
    conditions: usize,
    sets: usize,
}

impl Drop for Scope {
    fn drop(self) {
        let Scope {
            names: _,
            inside: _,
            integers: _,
            conditions: _,
            sets: _,
        } = self;
    }
}

impl Model for Scope {
    ghost use Rattle.std.specs.Prelude.{◌≤◌, ◌*◌, ◌+◌, ◌^◌, length};
    ghost use Rattle.expression_types.specs.ScopeTree.{ScopeTree};

    ghost Value = { ScopeTree };

    ghost view = { λ s. record {
      visible = s.names;
      inside = s.inside;
      integers = s.integers;
      conditions = s.conditions;
      sets = s.sets;
    } };

    ghost invariant = { λ s. (s.integers ≤ 2 * length s.names) × (s.conditions ≤ length s.names) × (s.sets ≤ length s.names + 2 ^ 63) };
}

/// What has to be known of a scope in order to come back to it.
#[derive(Clone, Copy, Debug)]
pub struct Mark {
    visible: usize,
    inside: Inside,
    integers: usize,
    conditions: usize,
    sets: usize,
}

impl Entity {
    /// How many indices of integers it takes; a `for` has its bound after its name.
    fn integers(self) -> usize
        ensures indices { result ≡ integers_of self }
        ensures few { result ≤ 2 }
    {
        match self {
            Entity::IntVariable(_) => 1,
            Entity::LoopVariable(_) => 2,
            _ => 0,
        }
    }

    /// How many indices of conditions it takes.
    fn conditions(self) -> usize
        ensures indices { result ≡ conditions_of self }
        ensures few { result ≤ 1 }
    {
        match self {
            Entity::BoolVariable(_) => 1,
            _ => 0,
        }
    }

    /// How many indices of vertex sets it takes.
    fn sets(self) -> usize
        ensures indices { result ≡ sets_of self }
        ensures few { result ≤ 1 }
    {
        match self {
            Entity::SetVariable(_) => 1,
            _ => 0,
        }
    }
}

impl Scope {
    /// Where no name is visible yet, in a program with n constant vertex sets.
    pub fn new(alloc: Global, sets: usize) -> Scope
        requires { sets ≤ 2 ^ 63 }
        ensures { result ≡ empty_scope sets }
    {
        Scope {
            names: Names::new(alloc),
            inside: Inside::Main,
            integers: 0,
            conditions: 0,
            sets,
        }
    }

    /// What the name is, or `None` where it is not visible.
    pub fn look_up(&self, name: &[u8]) -> Option<Entity>
        ensures { result ≡ found name.now self.now.visible }
    {
        self.names.get(name)
    }

    /// Where expressions and statements stand.
    pub fn inside(&self) -> Inside
        ensures { result ≡ self.now.inside }
    {
        self.inside
    }

    /// How many indices of integers are taken: the index of the next integer.
    pub fn integers(&self) -> usize
        ensures { result ≡ self.now.integers }
    {
        self.integers
    }

    /// How many indices of conditions are taken.
    pub fn conditions(&self) -> usize
        ensures { result ≡ self.now.conditions }
    {
        self.conditions
    }

    /// How many indices of vertex sets are taken, those of all constant ones among them.
    pub fn sets(&self) -> usize
        ensures { result ≡ self.now.sets }
    {
        self.sets
    }

    /// Makes a name visible, and takes the places that it needs. A name that is visible already stays what it
    /// was, and the fault is noted. After out of memory nothing is changed.
    pub fn declare(
        &mut self,
        alloc: Global,
        name: &Name,
        entity: Entity,
        first_fault: &mut Option<Fault>,
    ) -> Result<(), AllocError>
        ensures declared { ReportsFaults (λ _. self.new) first_fault.old first_fault.new result (declared name.now entity self.old) }
        ensures kept { KeepsNames self.old self.new }
        ensures err { OnErr result (self.new ≡ self.old) }
    {
        if self.names.get(name.bytes()).is_some() {
            note(first_fault, name.at(), TypeRule::Redeclared);
            return Ok(());
        }
        self.names.push(alloc, name.bytes(), entity)?;
        let _names = self.names.len();
        self.integers += entity.integers();
        self.conditions += entity.conditions();
        self.sets += entity.sets();
        Ok(())
    }

    /// Goes into a function, before its parameters.
    pub fn enter(&mut self, inside: Inside)
        ensures { self.new ≡ entered inside self.old }
    {
        self.inside = inside;
    }

    /// What has to be known in order to come back to this point.
    pub fn mark(&self) -> Mark
        ensures mark { result ≡ mark_of self.now }
        ensures integers { result.integers ≤ 2 * result.visible }
        ensures conditions { result.conditions ≤ result.visible }
        ensures sets { result.sets ≤ result.visible + 2 ^ 63 }
    {
        Mark {
            visible: self.names.len(),
            inside: self.inside,
            integers: self.integers,
            conditions: self.conditions,
            sets: self.sets,
        }
    }

    /// Forgets the names that became visible since the mark was taken.
    pub fn leave(&mut self, mark: Mark)
        requires visible { mark.visible ≤ length self.old.visible }
        requires integers { mark.integers ≤ 2 * mark.visible }
        requires conditions { mark.conditions ≤ mark.visible }
        requires sets { mark.sets ≤ mark.visible + 2 ^ 63 }
        ensures { self.new ≡ left mark self.old }
    {
        self.names.truncate(mark.visible);
        self.inside = mark.inside;
        self.integers = mark.integers;
        self.conditions = mark.conditions;
        self.sets = mark.sets;
    }
}
