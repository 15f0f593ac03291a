//! The declarations of a binding group.

ghost use Rattle.std.specs.Prelude.{◌≡◌, ℕ, ◌<◌, All, IfOk, OnOk, length};
ghost use Rattle.hm_graph_components.specs.Digraph.{lists};
ghost use Rattle.hm_infer_dependencies.specs.GroupMembers.{AreMembersOf, AddsRow};

use std::alloc::{AllocError, Global};

/// A declaration of a group: its place in the list, and the node of its binding.
#[derive(Clone, Copy, Drop)]
pub struct Member {
    pub place: usize,
    pub node: usize,
}

/// Adds the declarations of a node.
fn add_row(members: &mut Vec<Member>, row: &[usize], node: usize) -> Result<(), AllocError>
    ensures { OnOk result (AddsRow node row.now members.old.items members.new.items) }
{
    for place in row {
        members.push(Member {
            place: *place,
            node,
        })?;
    }
    Ok(())
}

/// Returns the declarations of a group of nodes, from the rows of all nodes.
pub fn group_members(
    alloc: Global,
    rows: &[Vec<usize>],
    group: &[usize],
) -> Result<Vec<Member>, AllocError>
    requires { All (λ j. j < length rows.now) group.now }
    ensures { IfOk result (λ members. AreMembersOf (lists rows.now) group.now members.items) }
{
    let mut members = Vec::with_capacity(alloc, group.len())?;
    for node in group {
        add_row(&mut members, &rows[*node], *node)?;
    }
    Ok(members)
}
