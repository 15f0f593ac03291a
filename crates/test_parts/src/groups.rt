//! The groups of a large graph.

use hm_graph::Digraph;
use std::alloc::{AllocError, Global};

/// Returns a graph with an edge from each node to the next, and from the last to the first.
fn ring(alloc: Global, count: usize) -> Result<Digraph, AllocError> {
    let mut graph = Digraph::new(alloc, count)?;
    for node in 0..count {
        if !graph.is_empty() {
            graph.add(node % graph.len(), (node + 1) % graph.len())?;
        }
    }
    Ok(graph)
}

/// Returns the number of groups of a graph.
fn group_count(graph: &Digraph) -> Result<usize, AllocError> {
    Ok(graph.groups()?.len())
}

// Visiting all pairs of nodes would take ten thousand times as long.
#[test]
fn one_long_ring(rt: HostRuntime) -> Result<(), AllocError> {
    let graph = ring(rt.alloc(), 200_000)?;
    assert!(rt; group_count(&graph)? == 1);
    Ok(())
}
