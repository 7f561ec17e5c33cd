//! All vertices of a graph, in a list.
ghost use Rattle.std.specs.Prelude.{◌≡◌, ◌-◌, ◌≤◌, IfOk, OnOk};
ghost use Rattle.std.specs.List.{range_with_len};
ghost use Rattle.flat_snapshot.specs.Digraph.{IsDigraph};

use flat_snapshot::Flat;
use std::alloc::{AllocError, Global};

/// All vertices of a graph. The only error is out of memory.
pub fn all_vertices(alloc: Global, flat: &Flat) -> Result<Vec<u32>, AllocError>
    ensures list { IfOk result (λ us. us.items ≡ range_with_len 0 flat.now.vertices) }
    ensures graph { IsDigraph flat.now }
{
    let mut found = Vec::new(alloc);
    number_between(0, flat.vertices(), &mut found)?;
    Ok(found)
}

/// The numbers from one on up to another, in place of what the part has. The only error is out of memory.
pub fn number_between(first: u32, stop: u32, part: &mut Vec<u32>) -> Result<(), AllocError>
    requires { first ≤ stop }
    ensures { OnOk result (part.new.items ≡ range_with_len first (stop - first)) }
{
    part.clear();
    'vertices: for vertex in first..stop {
        part.push(vertex)?;
    }
    Ok(())
}
