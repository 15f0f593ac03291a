//! Finds the groups of nodes that reach each other, in their order, and the nodes that a node reaches.

ghost use Rattle.std.specs.Prelude.{◌≡◌, ℕ, ◌+◌, ◌<◌, ◌≤◌, ◌↔◌, [], length, IsTrue, IfOk, OnOk, IfSome, IfNone, All, vec_len, replicate};
ghost use Rattle.std.specs.Vec.{vec_capacity};
ghost use Rattle.hm_graph_components.specs.Digraph.{Graph, Reaches, AreGroups, lists};
ghost use Rattle.hm_graph_components.specs.Marks.{IsMarked, IsClosed, work_left, MarksRow, MarksReached, IsTable, IsSquare, Blocks, AreLimits, IsReady, IsHeld, IsMember, IsRowOf, PlacesGroup};

use crate::checking::are_groups;
use crate::components::candidate_groups;
use crate::reversal::reversed_rows;
use std::alloc::{AllocError, Global};

/// Returns `count` empty rows.
pub fn empty_rows(alloc: Global, count: usize) -> Result<Vec<Vec<usize>>, AllocError>
    ensures { IfOk result (λ rows. lists rows.items ≡ replicate count []) }
{
    let mut rows = Vec::with_capacity(alloc, count)?;
    for _ in 0..count {
        rows.push(Vec::new(alloc))?;
    }
    Ok(rows)
}

/// Marks the numbers of a row. Those without a mark before are added to `waiting`.
pub(crate) fn mark_row(
    row: &[usize],
    marks: &mut [bool],
    waiting: &mut Vec<usize>,
) -> Result<(), AllocError>
    requires { All (λ y. y < length marks.old) row.now }
    ensures { OnOk result (MarksRow row.now marks.old marks.new waiting.old.items waiting.new.items) }
{
    for y in row {
        if !marks[*y] {
            marks[*y] = true;
            waiting.push(*y)?;
        }
    }
    Ok(())
}

/// Marks the numbers of a row. Those without a mark before are added to `waiting`, which must have room.
fn mark_in_room(row: &[usize], marks: &mut [bool], waiting: &mut Vec<usize>)
    requires within { All (λ y. y < length marks.old) row.now }
    requires room { work_left marks.old waiting.old.items ≤ vec_capacity waiting.old }
    ensures row { MarksRow row.now marks.old marks.new waiting.old.items waiting.new.items }
    ensures capacity { vec_capacity waiting.new ≡ vec_capacity waiting.old }
{
    for y in row {
        if !marks[*y] {
            marks[*y] = true;
            waiting.push_reserved(*y);
        }
    }
}

/// Marks the nodes that `from` reaches. No node may have a mark or wait before. Allocates nothing.
pub fn mark_reached(rows: &[Vec<usize>], from: usize, marks: &mut [bool], waiting: &mut Vec<usize>)
    requires from { from < length rows.now }
    requires closed { IsClosed (lists rows.now) }
    requires nodes { length marks.old ≡ length rows.now }
    requires clear { (k : ℕ) → ¬ IsMarked marks.old k }
    requires empty { waiting.old.items ≡ [] }
    requires room { length rows.now < vec_capacity waiting.old }
    ensures reached { MarksReached (lists rows.now) from marks.new }
    ensures empty { waiting.new.items ≡ [] }
    ensures capacity { vec_capacity waiting.new ≡ vec_capacity waiting.old }
{
    waiting.push_reserved(from);
    while let Some(x) = waiting.pop() {
        mark_in_room(&rows[x], marks, waiting);
    }
}

/// Returns the marks of the nodes that `from` reaches.
pub fn reached_from(
    alloc: Global,
    rows: &[Vec<usize>],
    from: usize,
) -> Result<Vec<bool>, AllocError>
    requires from { from < length rows.now }
    requires closed { IsClosed (lists rows.now) }
    ensures { IfOk result (λ marks. MarksReached (lists rows.now) from marks.items) }
{
    let mut marks = vec![in alloc; false; rows.len()]?;
    let mut waiting = Vec::with_capacity(alloc, rows.len() + 1)?;
    mark_reached(rows, from, &mut marks, &mut waiting);
    Ok(marks)
}

/// Returns for each node the marks of the nodes that it reaches.
fn closure_table(alloc: Global, rows: &[Vec<usize>]) -> Result<Vec<Vec<bool>>, AllocError>
    requires { IsClosed (lists rows.now) }
    ensures { IfOk result (λ table. IsTable (lists rows.now) table.items) }
{
    let mut table = Vec::new(alloc);
    for x in 0..rows.len() {
        table.push(reached_from(alloc, rows, x)?)?;
    }
    Ok(table)
}

/// Returns the first node from `start` on that blocks `x`, or the number of nodes.
fn first_blocker(table: &[Vec<bool>], placed: &[bool], x: usize, start: usize) -> usize
    requires square { IsSquare table.now (length placed.now) }
    requires x { x < length placed.now }
    requires start { start ≤ length placed.now }
    ensures from { start ≤ result }
    ensures to { result ≤ length placed.now }
    ensures skipped { (y : ℕ) → start ≤ y → y < result → ¬ Blocks table.now placed.now x y }
    ensures found { result < length placed.now → Blocks table.now placed.now x result }
{
    for y in start..placed.len() {
        if table[x][y] && !table[y][x] && !placed[y] {
            return y;
        }
    }
    placed.len()
}

/// Returns the least node that isn't placed and that no node blocks. Raises the limits on the way.
fn next_ready(table: &[Vec<bool>], placed: &[bool], limits: &mut [usize]) -> Option<usize>
    requires square { IsSquare table.now (length placed.now) }
    requires len { length limits.old ≡ length placed.now }
    requires within { All (λ limit. limit ≤ length placed.now) limits.old }
    requires limits { AreLimits table.now placed.now limits.old }
    ensures within { All (λ limit. limit ≤ length placed.now) limits.new }
    ensures limits { AreLimits table.now placed.now limits.new }
    ensures ready { IfSome result (IsReady table.now placed.now) }
    ensures least { IfSome result (λ x. (z : ℕ) → z < x → IsHeld table.now placed.now z) }
    ensures none { IfNone result ((z : ℕ) → z < length placed.now → IsHeld table.now placed.now z) }
{
    for x in 0..placed.len() {
        if !placed[x] {
            let blocker = first_blocker(table, placed, x, limits[x]);
            limits[x] = blocker;
            if blocker == placed.len() {
                return Some(x);
            }
        }
    }
    None
}

/// Returns whether two nodes are in one group.
fn is_together(table: &[Vec<bool>], x: usize, y: usize) -> bool
    requires square { IsSquare table.now (length table.now) }
    requires x { x < length table.now }
    requires y { y < length table.now }
    ensures { IsTrue result ↔ IsMember table.now x y }
{
    x == y || (table[x][y] && table[y][x])
}

/// Returns the group of `x`, ascending.
fn group_of(alloc: Global, table: &[Vec<bool>], x: usize) -> Result<Vec<usize>, AllocError>
    requires square { IsSquare table.now (length table.now) }
    requires x { x < length table.now }
    ensures { IfOk result (λ group. IsRowOf table.now x group.items) }
{
    let mut group = Vec::new(alloc);
    for y in 0..table.len() {
        if is_together(table, x, y) {
            group.push(y)?;
        }
    }
    Ok(group)
}

/// Marks the members of a group.
pub(crate) fn place(group: &[usize], placed: &mut [bool])
    requires { All (λ y. y < length placed.old) group.now }
    ensures { PlacesGroup group.now placed.old placed.new }
{
    for y in group {
        placed[*y] = true;
    }
}

// Why: docs/DECISIONS.md, "The fallback".
/// Returns the groups in their order, by the table of the nodes that each node reaches.
fn groups_by_closure(alloc: Global, rows: &[Vec<usize>]) -> Result<Vec<Vec<usize>>, AllocError>
    requires { IsClosed (lists rows.now) }
    ensures { IfOk result (λ groups. AreGroups (lists rows.now) (lists groups.items)) }
{
    let table = closure_table(alloc, rows)?;
    ordered_groups(alloc, &table)
}

/// Returns the groups in their order.
fn ordered_groups(alloc: Global, table: &[Vec<bool>]) -> Result<Vec<Vec<usize>>, AllocError>
    requires { IsSquare table.now (length table.now) }
    ensures { IfOk result (λ groups. (graph : Graph) → IsTable graph table.now → AreGroups graph (lists groups.items)) }
{
    let mut placed = vec![in alloc; false; table.len()]?;
    let mut limits = vec![in alloc; 0; table.len()]?;
    let mut groups = Vec::new(alloc);
    while let Some(x) = next_ready(table, &placed, &mut limits) {
        let group = group_of(alloc, table, x)?;
        place(&group, &mut placed);
        groups.push(group)?;
    }
    Ok(groups)
}

/// Returns the groups in their order as two searches find them, or `None` if the test refuses them. No graph is known for which it does.
fn groups_by_search(
    alloc: Global,
    rows: &[Vec<usize>],
) -> Result<Option<Vec<Vec<usize>>>, AllocError>
    requires { IsClosed (lists rows.now) }
    ensures { IfOk result (λ found. IfSome found (λ groups. AreGroups (lists rows.now) (lists groups.items))) }
{
    let back = reversed_rows(alloc, rows)?;
    let groups = candidate_groups(alloc, rows, &back)?;
    if are_groups(alloc, rows, &back, &groups)? {
        return Ok(Some(groups));
    }
    Ok(None)
}

// Why: docs/DECISIONS.md, "One node".
/// Returns the groups of a graph with one node.
fn lone_group(alloc: Global, rows: &[Vec<usize>]) -> Result<Vec<Vec<usize>>, AllocError>
    requires closed { IsClosed (lists rows.now) }
    requires one { length rows.now ≡ 1 }
    ensures { IfOk result (λ groups. AreGroups (lists rows.now) (lists groups.items)) }
{
    let mut group = Vec::new(alloc);
    group.push(0)?;
    let mut groups = Vec::new(alloc);
    groups.push(group)?;
    Ok(groups)
}

// Why: docs/DECISIONS.md, "Certified groups".
/// Returns the groups in their order. Takes linear time up to a logarithm; if the test refuses that result, quadratic time and memory.
pub fn groups_of(alloc: Global, rows: &[Vec<usize>]) -> Result<Vec<Vec<usize>>, AllocError>
    requires { IsClosed (lists rows.now) }
    ensures { IfOk result (λ groups. AreGroups (lists rows.now) (lists groups.items)) }
{
    if rows.len() == 1 {
        return lone_group(alloc, rows);
    }
    match groups_by_search(alloc, rows)? {
        Some(groups) => Ok(groups),
        None => groups_by_closure(alloc, rows),
    }
}
