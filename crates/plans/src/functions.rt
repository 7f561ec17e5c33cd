//! Function kernels: the kernels of a program's functions.
ghost use Rattle.std.specs.Prelude.{◌≡◌, ℕ, IfOk, map, slice_get};
ghost use Rattle.algorithm_meaning.specs.Function.{steps_of};
ghost use Rattle.typed_tree.specs.ProgramTree.{program_tree};
ghost use Rattle.typed_tree.specs.FunctionStatementTree.{function_tree};
ghost use Rattle.plans.specs.Operation.{AreFunctionKernels};

use crate::kernels_at::Kernels;
use kernels::{EdgeKernel, FilterKernel, VertexKernel};
use std::alloc::{AllocError, Global};
use typed_tree::{Function, Typed};

/// The kernels of a program's functions, by the indices of the functions.
pub struct FunctionKernels {
    pub edge: Kernels<EdgeKernel>,
    pub vertex: Kernels<VertexKernel>,
    pub filter: Kernels<FilterKernel>,
}

impl Drop for FunctionKernels {
    fn drop(self) {
        let FunctionKernels {
            edge: _,
            vertex: _,
            filter: _,
        } = self;
    }
}

impl FunctionKernels {
    /// Those of a program. The only error is out of memory.
    pub fn of(alloc: Global, program: &Typed) -> Result<FunctionKernels, AllocError>
        ensures { IfOk result (λ f. AreFunctionKernels f (program_tree program.now)) }
    {
        let edge = Kernels::of(alloc, &program.edge_functions)?;
        let vertex = Kernels::of(alloc, &program.vertex_functions)?;
        let filter = Kernels::of(alloc, &program.filters)?;
        Ok(FunctionKernels {
            edge,
            vertex,
            filter,
        })
    }
}
