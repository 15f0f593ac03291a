//! The declarations of each node's binding.

ghost use Rattle.std.specs.Prelude.{◌≡◌, ℕ, ◌<◌, [], IfOk, OnOk, Some, length, replicate};
ghost use Rattle.hm_graph_components.specs.Digraph.{lists};
ghost use Rattle.hm_syntax.specs.Lists.{declarations};
ghost use Rattle.hm_infer_dependencies.specs.Members.{AreRows};
ghost use Rattle.hm_infer_dependencies.specs.Nodes.{AddsEdges, list_nodes, owners};

use hm_syntax::Decl;
use std::alloc::{AllocError, Global};

/// Returns empty rows.
fn empty_rows(alloc: Global, count: usize) -> Result<Vec<Vec<usize>>, AllocError>
    ensures { IfOk result (λ rows. lists rows.items ≡ replicate count []) }
{
    let mut rows = Vec::with_capacity(alloc, count)?;
    for _ in 0..count {
        rows.push(Vec::new(alloc))?;
    }
    Ok(rows)
}

/// Adds a place to the row of its node, if it has one.
fn add_place(
    rows: &mut Vec<Vec<usize>>,
    owner: Option<usize>,
    place: usize,
) -> Result<(), AllocError>
    requires { (own : ℕ) → owner ≡ Some own → own < length rows.old.items }
    ensures size { OnOk result (length rows.new.items ≡ length rows.old.items) }
    ensures added { OnOk result (AddsEdges (lists rows.old.items) (lists rows.new.items) (λ x y. (owner ≡ Some x) × (y ≡ place))) }
{
    let Some(own) = owner else {
        return Ok(());
    };
    let row = &mut rows[own];
    row.push(place)?;
    Ok(())
}

/// Returns for each node the places of the declarations of its binding. `nodes` has the node of each declaration, the last one first.
pub fn rows_of(
    alloc: Global,
    nodes: &[Option<usize>],
    count: usize,
    decls: &[Decl],
) -> Result<Vec<Vec<usize>>, AllocError>
    requires nodes { nodes.now ≡ owners (declarations decls.now) (declarations decls.now) }
    requires count { count ≡ length (list_nodes (declarations decls.now) (declarations decls.now)) }
    ensures { IfOk result (λ rows. AreRows decls.now count (lists rows.items)) }
{
    let mut rows = empty_rows(alloc, count)?;
    for behind in 0..decls.len() {
        let place = decls.len() - 1 - behind;
        let owner = nodes[behind];
        add_place(&mut rows, owner, place)?;
    }
    Ok(rows)
}
