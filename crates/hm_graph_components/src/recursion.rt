//! Finds the nodes of a graph that reach themselves, and an order of its nodes.

ghost use Rattle.std.specs.Prelude.{◌≡◌, ℕ, ◌<◌, ◌↔◌, length, IsTrue, IfOk};
ghost use Rattle.std.specs.List.{concat};
ghost use Rattle.hm_graph_components.specs.Digraph.{Reaches, lists};
ghost use Rattle.hm_graph_components.specs.Marks.{IsClosed, IsMarked, IsShared};

use crate::groups::{groups_of, place};
use std::alloc::{AllocError, Global};

/// Returns the marks of the nodes that reach another node and are reached by it: the members of groups with two
/// nodes or more.
fn shared_marks(alloc: Global, rows: &[Vec<usize>]) -> Result<Vec<bool>, AllocError>
    requires { IsClosed (lists rows.now) }
    ensures len { IfOk result (λ marks. length marks.items ≡ length rows.now) }
    ensures shared { IfOk result (λ marks. (x : ℕ) → IsMarked marks.items x ↔ IsShared (lists rows.now) x) }
{
    let groups = groups_of(alloc, rows)?;
    let mut marks = vec![in alloc; false; rows.len()]?;
    for number in 0..groups.len() {
        if groups[number].len() > 1 {
            place(&groups[number], &mut marks);
        }
    }
    Ok(marks)
}

/// Returns whether a node reaches itself: it shares its group with another node, or has an edge to itself.
fn is_in_cycle(rows: &[Vec<usize>], shared: &[bool], number: usize) -> bool
    requires number { number < length rows.now }
    requires len { length shared.now ≡ length rows.now }
    requires shared { (x : ℕ) → IsMarked shared.now x ↔ IsShared (lists rows.now) x }
    ensures { IsTrue result ↔ Reaches (lists rows.now) number number }
{
    shared[number] || rows[number].contains(&number)
}

/// Returns for each node whether it reaches itself.
pub fn recursive_marks(alloc: Global, rows: &[Vec<usize>]) -> Result<Vec<bool>, AllocError>
    requires { IsClosed (lists rows.now) }
    ensures nodes { IfOk result (λ marks. length marks.items ≡ length (lists rows.now)) }
    ensures marks { IfOk result (λ marks. (x : ℕ) → x < length (lists rows.now) → IsMarked marks.items x ↔ Reaches (lists rows.now) x x) }
{
    let shared = shared_marks(alloc, rows)?;
    let mut marks = Vec::new(alloc);
    'rows: for number in 0..rows.len() {
        marks.push(is_in_cycle(rows, &shared, number))?;
    }
    Ok(marks)
}

/// Joins groups to one row.
pub fn joined(alloc: Global, groups: &[Vec<usize>]) -> Result<Vec<usize>, AllocError>
    ensures { IfOk result (λ all. all.items ≡ concat (lists groups.now)) }
{
    let mut all = Vec::new(alloc);
    'groups: for group in groups {
        all.extend_from_slice(group)?;
    }
    Ok(all)
}
