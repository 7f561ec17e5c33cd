//! Parts of the vertices that have edges.
ghost use Rattle.std.specs.Prelude.{◌≡◌, ◌+◌, ◌++◌, [], length, vec_len, OnOk};
ghost use Rattle.edge_fold.specs.Between.{firsts};

use flat_snapshot::Degrees;
use kernels::PAIRS;
use std::alloc::AllocError;

/// Takes the next vertices, at most `PAIRS`, in place of what the part has, and none where none is left. The only error
/// is out of memory.
pub fn take_part(vertices: &mut Degrees<'_>, part: &mut Vec<u32>) -> Result<(), AllocError>
    ensures taken { OnOk result (part.new.items ++ firsts vertices.new ≡ firsts vertices.old) }
    ensures none { OnOk result (part.new.items ≡ [] → vertices.new ≡ []) }
    ensures fewer { OnOk result (length vertices.new + vec_len part.new ≡ length vertices.old) }
{
    part.clear();
    'indices: for _index in 0..PAIRS {
        let Some((vertex, _)) = vertices.next() else {
            return Ok(());
        };
        part.push(vertex)?;
    }
    Ok(())
}
