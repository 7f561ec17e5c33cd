//! Random graphs.

use crate::random::Random;
use std::alloc::{AllocError, Global};
use std::io;
use std::io::Error;
use tree_batch::{Batch, Entry, Graph, GraphError};

const CHUNK_SIZE: u32 = 64;

const SEED: u64 = 2026;

const RMAT_SEED: u64 = 20_240_601;

// How many edges a batch adds.
const BATCH: u32 = 1 << 20;

/// A graph of n vertices and about so many edges, made by batches.
pub fn random_graph(alloc: Global, vertices: u32, edges: u32) -> io::Result<Graph> {
    let mut random = Random::new(SEED);
    let mut graph = Graph::new(vertices, CHUNK_SIZE).map_err(told)?;
    let mut left = edges;
    for _ in 0..=edges / BATCH {
        let count = left.min(BATCH);
        let batch = random_batch(alloc, &mut random, vertices, count)?;
        graph = graph.apply(alloc, &batch).map_err(told)?;
        left = left.wrapping_sub(count);
    }
    Ok(graph)
}

/// The RMAT graph (Chakrabarti, Zhan, Faloutsos, SDM 2004) with probabilities of 0.57, 0.19, 0.19 and 0.05 to 16 bits:
/// 2 to the power of `vertices` vertices and 2 to the power of `edges` edges, the first that are drawn. No power is above 24.
pub fn rmat_graph(alloc: Global, vertices: u32, edges: u32) -> io::Result<Graph> {
    let (scale, count) = (vertices.min(24), 1usize << edges.min(24));
    let mut random = Random::new(RMAT_SEED);
    let mut graph = Graph::new(1 << scale, CHUNK_SIZE).map_err(told)?;
    for _ in 0..64u32 {
        let left = count.saturating_sub(graph.edge_count());
        let mut batch = Batch::new(alloc);
        for _ in 0..left.min(BATCH as usize) {
            let (source, destination) = rmat_edge(&mut random, scale);
            batch
                .push(Entry::Add(source, destination, 1))
                .map_err(told)?;
        }
        graph = graph.apply(alloc, &batch).map_err(told)?;
    }
    Ok(graph)
}

/// An edge of an RMAT graph of 2 to the power of `scale` vertices, where the scale is at most 32. Four levels take 64
/// random bits.
pub fn rmat_edge(random: &mut Random, scale: u32) -> (u32, u32) {
    let (mut source, mut destination, mut bits) = (0u32, 0u32, 0u64);
    for level in 0..scale {
        if level % 4 == 0 {
            bits = random.next();
        }
        let part = bits % (1 << 16);
        bits >>= 16;
        let (down, right) = (
            part >= 49_807,
            part >= 62_259 || (37_356..49_807).contains(&part),
        );
        source = source.wrapping_mul(2) + u32::from(down);
        destination = destination.wrapping_mul(2) + u32::from(right);
    }
    (source, destination)
}

/// A batch that adds so many edges between so many vertices.
pub fn random_batch(
    alloc: Global,
    random: &mut Random,
    vertices: u32,
    count: u32,
) -> Result<Batch, AllocError> {
    let bound = u64::from(vertices).max(1);
    let mut batch = Batch::new(alloc);
    for _ in 0..count {
        let (from, to) = (random.below(bound), random.below(bound));
        if batch.push(Entry::Add(from as u32, to as u32, 1)).is_err() {
            return Err(AllocError);
        }
    }
    Ok(batch)
}

/// As [`random_batch`], with random weights.
pub fn random_weighted_batch(
    alloc: Global,
    random: &mut Random,
    vertices: u32,
    count: u32,
) -> Result<Batch, AllocError> {
    let bound = u64::from(vertices).max(1);
    let mut batch = Batch::new(alloc);
    for _ in 0..count {
        let (from, to) = (random.below(bound), random.below(bound));
        let weight = random_weight(random);
        if batch
            .push(Entry::Add(from as u32, to as u32, weight))
            .is_err()
        {
            return Err(AllocError);
        }
    }
    Ok(batch)
}

/// The weight of an edge: most often from -50 to 149, else 1, the least, the greatest, or one of 33 bits.
pub fn random_weight(random: &mut Random) -> i64 {
    match random.below(16) {
        0 => i64::MIN,
        1 => i64::MAX,
        2 => random.below(1 << 33) as i64,
        3..=6 => 1,
        _ => random.below(200) as i64 - 50,
    }
}

/// The error as one of a device.
pub fn told(error: GraphError) -> Error {
    match error {
        GraphError::NoMemory => Error::other("out of memory"),
        GraphError::VertexRange | GraphError::BadChunkSize => Error::other("a batch was refused"),
    }
}
