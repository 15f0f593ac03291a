//! The rows of a graph with its edges reversed.

ghost use Rattle.std.specs.Prelude.{◌≡◌, ℕ, ◌<◌, ◌⊎◌, [], length, IfOk, OnOk, All, Contains, vec_len, slice_index_or};
ghost use Rattle.hm_graph_components.specs.Digraph.{Edge, lists};
ghost use Rattle.hm_graph_components.specs.Marks.{IsClosed};
ghost use Rattle.hm_graph_components.specs.Reversed.{ReversesRow};

use crate::groups::empty_rows;
use std::alloc::{AllocError, Global};

/// Adds the edges of a row of the node `from`, reversed.
fn reverse_row(back: &mut Vec<Vec<usize>>, row: &[usize], from: usize) -> Result<(), AllocError>
    requires { All (λ y. y < vec_len back.old) row.now }
    ensures { OnOk result (ReversesRow (lists back.old.items) (lists back.new.items) row.now from) }
{
    for y in row {
        let list = &mut back[*y];
        list.push(from)?;
    }
    Ok(())
}

/// Returns the rows of the graph with its edges reversed.
pub(crate) fn reversed_rows(
    alloc: Global,
    rows: &[Vec<usize>],
) -> Result<Vec<Vec<usize>>, AllocError>
    requires { IsClosed (lists rows.now) }
    ensures len { IfOk result (λ back. length back.items ≡ length rows.now) }
    ensures closed { IfOk result (λ back. IsClosed (lists back.items)) }
    ensures edges { IfOk result (λ back. (x y : ℕ) → Edge (lists back.items) y x → Edge (lists rows.now) x y) }
{
    let mut back = empty_rows(alloc, rows.len())?;
    for x in 0..rows.len() {
        reverse_row(&mut back, &rows[x], x)?;
    }
    Ok(back)
}
