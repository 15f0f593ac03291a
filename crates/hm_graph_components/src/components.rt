//! Finds the strong components of a graph by two depth-first searches (Kosaraju). Finds their order by counting
//! for each the edges to components without a place (Kahn).
//!
//! Only safety is proved here. `checking` decides whether the results are the groups.

ghost use Rattle.std.specs.Prelude.{◌≡◌, ℕ, ◌+◌, ◌<◌, ◌≤◌, [], length, IfOk, OnOk, All, vec_len};
ghost use Rattle.hm_graph_components.specs.Digraph.{lists};
ghost use Rattle.hm_graph_components.specs.Marks.{IsClosed};

use crate::groups::mark_row;
use std::alloc::{AllocError, Global};
use std::cmp::Reverse;
use std::collections::BinaryHeap;

/// Returns the most steps of a depth-first search over these rows: two for each node and one for each
/// edge.
fn step_limit(rows: &[Vec<usize>]) -> usize {
    let mut limit = rows.len().saturating_add(rows.len());
    for row in rows {
        limit = limit.saturating_add(row.len());
    }
    limit
}

// Why: docs/DECISIONS.md, "Paths in vectors".
/// Takes one step of a depth-first search: along the next edge of the last node of the path, or back.
fn step_on(
    rows: &[Vec<usize>],
    next: &mut [usize],
    seen: &mut [bool],
    path: &mut Vec<usize>,
    order: &mut Vec<usize>,
) -> Result<(), AllocError>
    requires closed { IsClosed (lists rows.now) }
    requires next { length next.old ≡ length rows.now }
    requires seen { length seen.old ≡ length rows.now }
    requires path { All (λ x. x < length rows.now) path.old.items }
    requires order { All (λ x. x < length rows.now) order.old.items }
    ensures path { OnOk result (All (λ x. x < length rows.now) path.new.items) }
    ensures order { OnOk result (All (λ x. x < length rows.now) order.new.items) }
{
    let Some(x) = path.pop() else {
        return Ok(());
    };
    let row = rows[x].as_slice();
    let k = next[x];
    if k >= row.len() {
        order.push(x)?;
        return Ok(());
    }
    next[x] = k + 1;
    path.push(x)?;
    let y = row[k];
    if !seen[y] {
        seen[y] = true;
        path.push(y)?;
    }
    Ok(())
}

/// Starts a depth-first search at each node that wasn't visited before.
fn visit_all(
    rows: &[Vec<usize>],
    next: &mut [usize],
    seen: &mut [bool],
    path: &mut Vec<usize>,
    order: &mut Vec<usize>,
) -> Result<(), AllocError>
    requires closed { IsClosed (lists rows.now) }
    requires next { length next.old ≡ length rows.now }
    requires seen { length seen.old ≡ length rows.now }
    requires path { All (λ x. x < length rows.now) path.old.items }
    requires order { All (λ x. x < length rows.now) order.old.items }
    ensures { OnOk result (All (λ x. x < length rows.now) order.new.items) }
{
    let limit = step_limit(rows);
    for start in 0..rows.len() {
        if !seen[start] {
            seen[start] = true;
            path.push(start)?;
        }
        'steps: for _ in 0..limit {
            if path.is_empty() {
                break;
            }
            step_on(rows, next, seen, path, order)?;
        }
    }
    Ok(())
}

/// Returns the nodes in the order in which a depth-first search leaves them.
fn finish_order(alloc: Global, rows: &[Vec<usize>]) -> Result<Vec<usize>, AllocError>
    requires { IsClosed (lists rows.now) }
    ensures { IfOk result (λ order. All (λ x. x < length rows.now) order.items) }
{
    let mut seen = vec![in alloc; false; rows.len()]?;
    let mut next = vec![in alloc; 0; rows.len()]?;
    let mut path = Vec::new(alloc);
    let mut order = Vec::new(alloc);
    visit_all(rows, &mut next, &mut seen, &mut path, &mut order)?;
    Ok(order)
}

/// Gives the number `start` to the node `start` and to the nodes that it reaches through
/// nodes without a mark, and marks them.
fn number_component(
    alloc: Global,
    rows: &[Vec<usize>],
    start: usize,
    marks: &mut [bool],
    numbers: &mut [usize],
) -> Result<(), AllocError>
    requires closed { IsClosed (lists rows.now) }
    requires start { start < length rows.now }
    requires marks { length marks.old ≡ length rows.now }
    requires len { length numbers.old ≡ length rows.now }
    requires numbers { All (λ x. x < length rows.now) numbers.old }
    ensures { OnOk result (All (λ x. x < length rows.now) numbers.new) }
{
    let mut waiting = Vec::new(alloc);
    marks[start] = true;
    waiting.push(start)?;
    while let Some(x) = waiting.pop() {
        numbers[x] = start;
        mark_row(&rows[x], marks, &mut waiting)?;
    }
    Ok(())
}

/// Returns a number for each node, the same for all nodes of a strong component. `order` is that in which a
/// search leaves the nodes, and `back` has the edges reversed.
fn component_numbers(
    alloc: Global,
    back: &[Vec<usize>],
    order: &[usize],
) -> Result<Vec<usize>, AllocError>
    requires closed { IsClosed (lists back.now) }
    requires order { All (λ x. x < length back.now) order.now }
    ensures len { IfOk result (λ numbers. length numbers.items ≡ length back.now) }
    ensures below { IfOk result (λ numbers. All (λ x. x < length back.now) numbers.items) }
{
    let mut marks = vec![in alloc; false; back.len()]?;
    let mut numbers = vec![in alloc; 0; back.len()]?;
    for place in (0..order.len()).rev() {
        let start = order[place];
        if !marks[start] {
            number_component(alloc, back, start, &mut marks, &mut numbers)?;
        }
    }
    Ok(numbers)
}

/// Adds a component with only this node.
fn add_component(
    alloc: Global,
    components: &mut Vec<Vec<usize>>,
    node: usize,
) -> Result<(), AllocError> {
    let component = vec![in alloc; node]?;
    components.push(component)?;
    Ok(())
}

/// Returns the nodes by their numbers: each list ascending, the lists ordered by their least members.
fn lists_by_number(alloc: Global, numbers: &[usize]) -> Result<Vec<Vec<usize>>, AllocError>
    requires { All (λ x. x < length numbers.now) numbers.now }
{
    let none = numbers.len();
    let mut places = vec![in alloc; none; numbers.len()]?;
    let mut components = Vec::new(alloc);
    for x in 0..numbers.len() {
        let number = numbers[x];
        let place = places[number];
        if place < components.len() {
            let component: &mut Vec<usize> = &mut components[place];
            component.push(x)?;
        } else {
            places[number] = components.len();
            add_component(alloc, &mut components, x)?;
        }
    }
    Ok(components)
}

/// Returns for each node the number of its component.
fn numbers_of_components(
    alloc: Global,
    components: &[Vec<usize>],
    nodes: usize,
) -> Result<Vec<usize>, AllocError>
    ensures { IfOk result (λ numbers. length numbers.items ≡ nodes) }
{
    let mut numbers = vec![in alloc; 0; nodes]?;
    for number in 0..components.len() {
        for x in &components[number] {
            if *x < numbers.len() {
                numbers[*x] = number;
            }
        }
    }
    Ok(numbers)
}

/// Counts the edges of a row that lead to another component.
fn count_edges_out(row: &[usize], number: usize, numbers: &[usize], degrees: &mut [usize])
    requires { All (λ y. y < length numbers.now) row.now }
{
    for y in row {
        if number < degrees.len() && numbers[*y] != number {
            degrees[number] = degrees[number].saturating_add(1);
        }
    }
}

/// Returns for each component the number of edges that lead from it to others.
fn out_degrees(
    alloc: Global,
    rows: &[Vec<usize>],
    numbers: &[usize],
) -> Result<Vec<usize>, AllocError>
    requires closed { IsClosed (lists rows.now) }
    requires len { length numbers.now ≡ length rows.now }
    ensures { IfOk result (λ counts. length counts.items ≡ length rows.now) }
{
    let mut degrees = vec![in alloc; 0usize; rows.len()]?;
    for x in 0..rows.len() {
        count_edges_out(&rows[x], numbers[x], numbers, &mut degrees);
    }
    Ok(degrees)
}

/// For each component, the number of edges to others without a place; and the ready components, which
/// have no such edge.
#[derive(Drop)]
struct EdgesLeft {
    degrees: Vec<usize>,
    ready: BinaryHeap<Reverse<usize>>,
}

/// Removes the edges that lead to the node with this row of `back`. Components that then have no
/// edge to another become ready.
fn lower_degrees(
    row: &[usize],
    number: usize,
    numbers: &[usize],
    left: &mut EdgesLeft,
) -> Result<(), AllocError>
    requires { All (λ y. y < length numbers.now) row.now }
{
    for w in row {
        let other = numbers[*w];
        if other != number && other < left.degrees.len() {
            left.degrees[other] = left.degrees[other].saturating_sub(1);
            if left.degrees[other] == 0 {
                left.ready.push(Reverse(other))?;
            }
        }
    }
    Ok(())
}

/// Removes the edges that lead to the members of a component.
fn place_component(
    component: &[usize],
    number: usize,
    back: &[Vec<usize>],
    numbers: &[usize],
    left: &mut EdgesLeft,
) -> Result<(), AllocError>
    requires closed { IsClosed (lists back.now) }
    requires len { length numbers.now ≡ length back.now }
{
    for x in component {
        if *x < back.len() {
            lower_degrees(&back[*x], number, numbers, left)?;
        }
    }
    Ok(())
}

/// Returns the edges between components, before any has a place.
fn edges_left(
    alloc: Global,
    rows: &[Vec<usize>],
    numbers: &[usize],
    components: usize,
) -> Result<EdgesLeft, AllocError>
    requires closed { IsClosed (lists rows.now) }
    requires len { length numbers.now ≡ length rows.now }
{
    let degrees = out_degrees(alloc, rows, numbers)?;
    let mut ready = BinaryHeap::new(alloc);
    for number in 0..components {
        if number < degrees.len() && degrees[number] == 0 {
            ready.push(Reverse(number))?;
        }
    }
    Ok(EdgesLeft { degrees, ready })
}

/// Returns the components in the order in which they become ready, the first of several ready ones first.
fn placed_when_ready(
    alloc: Global,
    back: &[Vec<usize>],
    components: &[Vec<usize>],
    numbers: &[usize],
    left: &mut EdgesLeft,
) -> Result<Vec<Vec<usize>>, AllocError>
    requires closed { IsClosed (lists back.now) }
    requires len { length numbers.now ≡ length back.now }
{
    let mut groups = Vec::new(alloc);
    for _ in 0..components.len() {
        let Some(Reverse(number)) = left.ready.pop() else {
            break;
        };
        if number >= components.len() {
            break;
        }
        place_component(&components[number], number, back, numbers, left)?;
        groups.push(components[number].clone()?)?;
    }
    Ok(groups)
}

/// Returns the components, each after all others to which it has edges. If several may come
/// next, the first does.
fn sorted_by_reach(
    alloc: Global,
    rows: &[Vec<usize>],
    back: &[Vec<usize>],
    components: &[Vec<usize>],
) -> Result<Vec<Vec<usize>>, AllocError>
    requires closed { IsClosed (lists rows.now) }
    requires back_closed { IsClosed (lists back.now) }
    requires len { length back.now ≡ length rows.now }
{
    let numbers = numbers_of_components(alloc, components, rows.len())?;
    let mut left = edges_left(alloc, rows, &numbers, components.len())?;
    placed_when_ready(alloc, back, components, &numbers, &mut left)
}

/// Returns whether no edge of a row leads to a node after this one.
fn leads_back(row: &[usize], node: usize) -> bool {
    for to in row {
        if *to > node {
            return false;
        }
    }
    true
}

/// Returns whether no edge leads to a later node.
fn all_lead_back(rows: &[Vec<usize>]) -> bool {
    for node in 0..rows.len() {
        if !leads_back(&rows[node], node) {
            return false;
        }
    }
    true
}

/// Returns a list with only this node for each node, in their order.
fn lone_nodes(alloc: Global, count: usize) -> Result<Vec<Vec<usize>>, AllocError> {
    let mut components = Vec::with_capacity(alloc, count)?;
    for node in 0..count {
        add_component(alloc, &mut components, node)?;
    }
    Ok(components)
}

// Why: docs/DECISIONS.md, "Edges that lead back".
/// Returns the likely groups of a graph in their order. `back` has its edges reversed.
pub(crate) fn candidate_groups(
    alloc: Global,
    rows: &[Vec<usize>],
    back: &[Vec<usize>],
) -> Result<Vec<Vec<usize>>, AllocError>
    requires closed { IsClosed (lists rows.now) }
    requires back_closed { IsClosed (lists back.now) }
    requires len { length back.now ≡ length rows.now }
{
    if all_lead_back(rows) {
        return Ok(lone_nodes(alloc, rows.len())?);
    }
    let order = finish_order(alloc, rows)?;
    let numbers = component_numbers(alloc, back, &order)?;
    let components = lists_by_number(alloc, &numbers)?;
    sorted_by_reach(alloc, rows, back, &components)
}
