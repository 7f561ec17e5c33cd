//! Graphs whose writer is apart from their readers.
ghost use Rattle.std.specs.Prelude.{◌≡◌};

use shared_graph::{Naming, Opening, SharedGraph};
use std::alloc::Global;
use std::marker::Brand;
use std::sync::Wait;
use std::test::Fail;
use std::thread::Threads;
use tree_batch::Batch;

// Those that read beside a writer, by their names.
#[derive(Clone, Copy)]
struct NamedPlans {
    plans: &'static [&'static str],
}

// How many readers a graph has beside its writer, and the version that the writer makes.
fn counts_apart<J: Naming, T: Threads + Wait + Sync>(
    rt: &T,
    alloc: Global,
    opening: Opening,
    vertices: u32,
    chunk_size: u32,
    programs: NamedPlans,
) -> Result<(usize, u64), Fail>
    requires book { opening ≡ J.book }
    requires vertices { J.vertices ≡ vertices }
    requires room { J.room ≡ 16777216 }
{
    let (graph, readers, writer) = SharedGraph::<J, &T>::open_with_writer(
        rt,
        alloc,
        opening,
        vertices,
        chunk_size,
        programs.plans.len(),
    )?;
    let mut writer = writer;
    let made = graph.commit(rt, alloc, &mut writer, Batch::new(alloc))?;
    Ok((readers.len(), made))
}

#[test]
fn a_writer_is_apart_from_its_readers(rt: HostRuntime) -> Result<(), Fail> {
    let programs = NamedPlans {
        plans: &["search", "labels"],
    };
    let (readers, made) = counts_apart::<Brand, HostRuntime>(
        &rt,
        rt.alloc(),
        Opening::new(),
        3,
        64,
        programs,
    )?;
    assert!(rt; readers == 2, "{readers} readers");
    assert!(rt; made == 1, "version {made}");
    Ok(())
}
