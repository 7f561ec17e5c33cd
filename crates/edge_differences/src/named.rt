//! The edges that batches name, and the law that no other edge differs.
ghost use Rattle.std.specs.Prelude.{◌≡◌, ◌++◌, ℕ, true, false, List, IfOk, OnOk};
ghost use Rattle.tree_batch.specs.declared.batch.Entry.{Entry};
ghost use Rattle.tree_batch.specs.Edge.{Ends, weight_in};
ghost use Rattle.tree_batch.specs.Digraph.{Digraph, IsDigraph, graph_through};
ghost use Rattle.edge_differences.specs.Listed.{AreAscending, AreSameBut, is_listed};
ghost use Rattle.edge_differences.specs.Named.{EachFits, named_in, named_in_all};

use crate::distinct::sorted_ends;
use std::alloc::{AllocError, Global};
use tree_batch::Batch;

/// The ends of the edges that batches name, source and destination, ascending by source and then by destination, each once.
/// For any graph that the batches fit, one after another, no other edge differs between that graph and the graph after all
/// batches: neither in whether it is there nor in its weight. It takes the time of a sort of all entries.
///
/// The only error is out of memory.
pub fn named_edges(alloc: Global, batches: &[Batch]) -> Result<Vec<(u32, u32)>, AllocError>
    ensures ascending { IfOk result (λ ends. AreAscending ends.items) }
    ensures named { IfOk result (λ ends. (u v : ℕ) → is_listed ends.items u v ≡ is_listed (named_in_all batches.now) u v) }
    ensures others { IfOk result (λ ends. (g : Digraph) → IsDigraph g → EachFits g batches.now
        → AreSameBut ends.items (graph_through g batches.now).edges g.edges) }
{
    let mut ends = Vec::new(alloc);
    'batches: for batch in batches {
        push_named(batch, &mut ends)?;
    }
    sorted_ends(alloc, &ends)
}

/// Appends the ends of the edges that the entries of a batch name, in the order of the entries. The only error is out of
/// memory.
pub fn push_named(batch: &Batch, ends: &mut Vec<(u32, u32)>) -> Result<(), AllocError>
    ensures { OnOk result (ends.new.items ≡ ends.old.items ++ named_in batch.now) }
{
    'entries: for index in 0..batch.len() {
        match batch.entry(index).ends() {
            Some(named) => ends.push(named)?,
            None => {}
        }
    }
    Ok(())
}

/// The law of named edges: between a graph and the graph after batches that fit it, an edge that none of the batches names is
/// as it was, with the weight that it had. So the edges of both are the same but for any list of ends that has the named
/// ones. The call does nothing.
pub fn others_stay()
    ensures weights { (g : Digraph) (batches : List (List Entry)) (p : Ends) → IsDigraph g → EachFits g batches
        → is_listed (named_in_all batches) p.0 p.1 ≡ false → weight_in p (graph_through g batches).edges ≡ weight_in p g.edges }
    ensures edges { (g : Digraph) (batches : List (List Entry)) (listed : List Ends) → IsDigraph g → EachFits g batches
        → ((u v : ℕ) → is_listed (named_in_all batches) u v ≡ true → is_listed listed u v ≡ true)
        → AreSameBut listed (graph_through g batches).edges g.edges }
{}
