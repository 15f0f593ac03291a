//! Spreads marks along the edges of a graph.

ghost use Rattle.std.specs.Prelude.{◌≡◌, ◌↔◌, ℕ, Contains, length, IfOk, OnOk};
ghost use Rattle.hm_graph_components.specs.Digraph.{lists};
ghost use Rattle.hm_graph_components.specs.Marks.{IsMarked, IsClosed, Spreads};

use crate::groups::mark_row;
use std::alloc::{AllocError, Global};

/// Returns the numbers with a mark.
fn marked_numbers(alloc: Global, marks: &[bool]) -> Result<Vec<usize>, AllocError>
    ensures { IfOk result (λ numbers. (k : ℕ) → Contains numbers.items k ↔ IsMarked marks.now k) }
{
    let mut numbers = Vec::new(alloc);
    'marks: for number in 0..marks.len() {
        if marks[number] {
            numbers.push(number)?;
        }
    }
    Ok(numbers)
}

/// Marks the nodes that a node with a mark reaches.
pub fn spread(alloc: Global, rows: &[Vec<usize>], marks: &mut [bool]) -> Result<(), AllocError>
    requires closed { IsClosed (lists rows.now) }
    requires nodes { length marks.old ≡ length (lists rows.now) }
    ensures { OnOk result (Spreads (lists rows.now) marks.old marks.new) }
{
    let mut waiting = marked_numbers(alloc, marks)?;
    while let Some(x) = waiting.pop() {
        mark_row(&rows[x], marks, &mut waiting)?;
    }
    Ok(())
}
