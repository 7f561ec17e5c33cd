//! The ends of recorded applies.
ghost use Rattle.std.specs.Prelude.{◌≡◌, [], IfOk};
ghost use Rattle.run_records.specs.inside.Ends.{IsKeptSet, IsRecordedEnd};

use kernels::EndpointFilter;
use plans::FunctionKernels;
use std::alloc::{AllocError, Global};
use typed_tree::VertexFilter;
use vertex_sets::VertexSet;

/// A copy of the set at an end, if the end is a set. The only error is out of memory.
pub(crate) fn kept_set(
    alloc: Global,
    end: Option<EndpointFilter<'_>>,
) -> Result<Option<VertexSet>, AllocError>
    ensures { IfOk result (IsKeptSet end.entry) }
{
    match end {
        None => Ok(None),
        Some(EndpointFilter::Members(set)) => {
            let copy = set.to_form(alloc, set.form())?;
            Ok(Some(copy))
        }
        Some(EndpointFilter::Filter(_)) => Ok(None),
    }
}

/// The end of a recorded apply, as the engines take it. If no set was kept of an end that is one, it has the members of
/// `no_members`, which has none.
pub(crate) fn recorded_end<'a>(
    end: Option<VertexFilter>,
    kept: &'a Option<VertexSet>,
    functions: &'a FunctionKernels,
    no_members: &'a VertexSet,
) -> Option<EndpointFilter<'a>>
    requires { no_members.now.members ≡ [] }
    ensures { IsRecordedEnd functions.now end kept.now result }
{
    match end {
        None => None,
        Some(VertexFilter::Members(_)) => {
            let set = kept.as_ref().unwrap_or(no_members);
            Some(EndpointFilter::Members(set))
        }
        Some(VertexFilter::Function(index)) => {
            Some(EndpointFilter::Filter(functions.filter.get(index)))
        }
    }
}
