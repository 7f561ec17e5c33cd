//! Kernels by the indices of their functions.
ghost use Rattle.std.specs.Prelude.{◌≡◌, ℕ, IfOk, map, slice_get};
ghost use Rattle.algorithm_meaning.specs.Function.{steps_of};
ghost use Rattle.typed_tree.specs.FunctionStatementTree.{FunctionStatementsTree, function_tree};
ghost use Rattle.kernels.specs.Meaning.{IsVertexCode};
ghost use Rattle.kernels.specs.Kernels.{IsEdgeKernel, IsFilterKernel};
ghost use Rattle.plans.specs.Operation.{ArePairwise, kernel_at};

use kernels::{EdgeKernel, FilterKernel, VertexKernel};
use std::alloc::{AllocError, Global};
use typed_tree::Function;

/// A kind of kernels.
pub trait Kernel: Drop + Sized {
    ghost is_of: { Self → FunctionStatementsTree → Type 0 };

    /// The kernel of a function. The only error is out of memory.
    fn of_function(alloc: Global, function: &Function) -> Result<Self, AllocError>
        ensures { IfOk result (λ k. is_of k (function_tree function.now).steps) };
}

impl Kernel for EdgeKernel {
    ghost is_of = { IsEdgeKernel };

    fn of_function(alloc: Global, function: &Function) -> Result<EdgeKernel, AllocError> {
        EdgeKernel::of_function(alloc, function)
    }
}

impl Kernel for VertexKernel {
    ghost is_of = { λ k steps. IsVertexCode k.code.items steps };

    fn of_function(alloc: Global, function: &Function) -> Result<VertexKernel, AllocError> {
        VertexKernel::of_function(alloc, function)
    }
}

impl Kernel for FilterKernel {
    ghost is_of = { IsFilterKernel };

    fn of_function(alloc: Global, function: &Function) -> Result<FilterKernel, AllocError> {
        FilterKernel::of_function(alloc, function)
    }
}

/// Kernels of one kind by the indices of their functions, and one that does nothing.
pub struct Kernels<K> {
    pub(crate) at: Vec<K>,
    pub(crate) nothing: K,
}

impl<K: Drop> Drop for Kernels<K> {
    fn drop(self) {
        let Kernels { at: _, nothing: _ } = self;
    }
}

impl<K: Kernel> Kernels<K> {
    /// The kernels of these functions. The only error is out of memory.
    pub fn of(alloc: Global, functions: &[Function]) -> Result<Kernels<K>, AllocError>
        ensures { IfOk result (λ ks. (index : ℕ) → K.is_of (kernel_at ks index) (steps_of (slice_get (map function_tree functions.now) index))) }
    {
        let no_step = Function {
            name: 0,
            steps: Vec::new(alloc),
        };
        let at = kernels_of(alloc, functions)?;
        let nothing = K::of_function(alloc, &no_step)?;
        Ok(Kernels { at, nothing })
    }
}

impl<K> Kernels<K> {
    /// That of the function at this index, and the one that does nothing where there is none.
    pub fn get(&self, index: usize) -> &K
        ensures { result.now ≡ kernel_at self.now index }
    {
        match self.at.get(index) {
            Some(kernel) => kernel,
            None => &self.nothing,
        }
    }
}

fn kernels_of<K: Kernel>(alloc: Global, functions: &[Function]) -> Result<Vec<K>, AllocError>
    ensures { IfOk result (λ ks. ArePairwise (λ k f. K.is_of k f.steps) ks.items (map function_tree functions.now)) }
{
    let mut kernels = Vec::new(alloc);
    'functions: for function in functions {
        kernels.push(K::of_function(alloc, function)?)?;
    }
    Ok(kernels)
}
