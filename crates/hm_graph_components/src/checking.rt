//! Tests whether lists of nodes are the groups of a graph in their order, in time and memory linear in
//! its nodes and edges.
//!
//! The lists are the strong components if three things hold. Each node is in exactly one list. The first
//! member of a list and each other member reach each other inside the list. No edge leads to a later list.
//!
//! They are in the order of `specs/Digraph` if this holds for each list: every list between it and the
//! last one to which it has an edge has a smaller first member.

ghost use Rattle.std.specs.Prelude.{◌≡◌, ℕ, ◌+◌, ◌<◌, ◌≤◌, ◌⊎◌, [], length, IsTrue, IfOk, OnOk, IfSome, All, Contains, vec_len, slice_index_or};
ghost use Rattle.hm_graph_components.specs.Digraph.{Edge, Reaches, AreGroups, lists};
ghost use Rattle.hm_graph_components.specs.Marks.{IsClosed, IsMarked};
ghost use Rattle.hm_graph_components.specs.Checks.{number_of, least_of, IsCovered, AreMembers, AllAscending, AreLeasts, NoEdgeAhead, IsReachedWithin, MarksWithin, AreEarliestPlaces, ArePlaces, IsLeastFirst, IsOrdered};
ghost use Rattle.std.specs.List.Sorted.{IsStrictlyIncreasing};

use std::alloc::{AllocError, Global};

/// Returns the number of each node's list, or `None` if a node is in no list.
fn list_numbers(
    alloc: Global,
    groups: &[Vec<usize>],
    nodes: usize,
) -> Result<Option<Vec<usize>>, AllocError>
    ensures { IfOk result (λ found. IfSome found (λ numbers. IsCovered (lists groups.now) nodes numbers.items)) }
{
    let mut numbers = vec![in alloc; 0; nodes]?;
    let mut places = vec![in alloc; 0; nodes]?;
    for number in 0..groups.len() {
        for place in 0..groups[number].len() {
            let x = groups[number][place];
            if x >= nodes {
                return Ok(None);
            }
            numbers[x] = number;
            places[x] = place;
        }
    }
    if !is_covered(groups, &numbers, &places) {
        return Ok(None);
    }
    Ok(Some(numbers))
}

/// Returns whether each node is at its place in the list with its number.
fn is_covered(groups: &[Vec<usize>], numbers: &[usize], places: &[usize]) -> bool
    requires { length places.now ≡ length numbers.now }
    ensures { IsTrue result → IsCovered (lists groups.now) (length numbers.now) numbers.now }
{
    for x in 0..numbers.len() {
        if numbers[x] >= groups.len() {
            return false;
        }
        let group = groups[numbers[x]].as_slice();
        if places[x] >= group.len() || group[places[x]] != x {
            return false;
        }
    }
    true
}

/// Returns whether each member of the list is a node with the list's number.
fn has_number(group: &[usize], number: usize, numbers: &[usize]) -> bool
    ensures { IsTrue result → All (λ x. (x < length numbers.now) × (number_of numbers.now x ≡ number)) group.now }
{
    for x in group {
        if *x >= numbers.len() || numbers[*x] != number {
            return false;
        }
    }
    true
}

/// Returns whether each member of each list is a node with that list's number.
fn are_members(groups: &[Vec<usize>], numbers: &[usize]) -> bool
    ensures { IsTrue result → AreMembers (lists groups.now) numbers.now }
{
    for number in 0..groups.len() {
        if !has_number(&groups[number], number, numbers) {
            return false;
        }
    }
    true
}

/// Returns whether the list ascends.
fn is_ascending(group: &[usize]) -> bool
    ensures { IsTrue result → IsStrictlyIncreasing group.now }
{
    for k in 1..group.len() {
        if group[k - 1] >= group[k] {
            return false;
        }
    }
    true
}

/// Returns whether each list ascends.
fn all_ascend(groups: &[Vec<usize>]) -> bool
    ensures { IsTrue result → AllAscending (lists groups.now) }
{
    for number in 0..groups.len() {
        if !is_ascending(&groups[number]) {
            return false;
        }
    }
    true
}

/// Returns the first member of each list, or `None` if a list is empty.
fn first_members(alloc: Global, groups: &[Vec<usize>]) -> Result<Option<Vec<usize>>, AllocError>
    ensures { IfOk result (λ found. IfSome found (λ leasts. AreLeasts (lists groups.now) leasts.items)) }
{
    let mut leasts = Vec::with_capacity(alloc, groups.len())?;
    for number in 0..groups.len() {
        let group = groups[number].as_slice();
        if group.is_empty() {
            return Ok(None);
        }
        leasts.push(group[0])?;
    }
    Ok(Some(leasts))
}

/// Returns whether no node of the row is in a list after the one with this number.
fn is_not_ahead(row: &[usize], number: usize, numbers: &[usize]) -> bool
    requires { All (λ y. y < length numbers.now) row.now }
    ensures { IsTrue result → All (λ y. number_of numbers.now y ≤ number) row.now }
{
    for y in row {
        if numbers[*y] > number {
            return false;
        }
    }
    true
}

/// Returns whether no edge leads to a later list.
fn no_edge_ahead(rows: &[Vec<usize>], numbers: &[usize]) -> bool
    requires closed { IsClosed (lists rows.now) }
    requires len { length numbers.now ≡ length rows.now }
    ensures { IsTrue result → NoEdgeAhead (lists rows.now) numbers.now }
{
    for x in 0..rows.len() {
        if !is_not_ahead(&rows[x], numbers[x], numbers) {
            return false;
        }
    }
    true
}

/// Marks the nodes of a row that are in the list with this number. Those without a mark before are added to `waiting`.
fn mark_within(
    row: &[usize],
    number: usize,
    numbers: &[usize],
    marks: &mut [bool],
    waiting: &mut Vec<usize>,
) -> Result<(), AllocError>
    requires numbers { All (λ y. y < length numbers.now) row.now }
    requires marks { length marks.old ≡ length numbers.now }
    ensures { OnOk result (MarksWithin row.now number numbers.now marks.old marks.new waiting.old.items waiting.new.items) }
{
    for y in row {
        if numbers[*y] == number && !marks[*y] {
            marks[*y] = true;
            waiting.push(*y)?;
        }
    }
    Ok(())
}

/// Returns the marks of the nodes that the first member of their list reaches inside the list.
fn reached_within(
    alloc: Global,
    rows: &[Vec<usize>],
    numbers: &[usize],
    leasts: &[usize],
) -> Result<Vec<bool>, AllocError>
    requires closed { IsClosed (lists rows.now) }
    requires len { length numbers.now ≡ length rows.now }
    requires leasts { (i : ℕ) → i < length leasts.now → (least_of leasts.now i < length rows.now) × (number_of numbers.now (least_of leasts.now i) ≡ i) }
    ensures len { IfOk result (λ marks. length marks.items ≡ length rows.now) }
    ensures near { IfOk result (λ marks. (x : ℕ) → IsMarked marks.items x → Reaches (lists rows.now) (least_of leasts.now (number_of numbers.now x)) x) }
{
    let mut marks = vec![in alloc; false; rows.len()]?;
    let mut waiting = Vec::with_capacity(alloc, leasts.len())?;
    for least in leasts {
        waiting.push(*least)?;
    }
    while let Some(x) = waiting.pop() {
        mark_within(&rows[x], numbers[x], numbers, &mut marks, &mut waiting)?;
    }
    Ok(marks)
}

/// Returns whether each node is the first of its list or is reached from it, by these rows.
fn all_reached_within(
    alloc: Global,
    rows: &[Vec<usize>],
    numbers: &[usize],
    leasts: &[usize],
) -> Result<bool, AllocError>
    requires closed { IsClosed (lists rows.now) }
    requires len { length numbers.now ≡ length rows.now }
    requires numbers { All (λ i. i < length leasts.now) numbers.now }
    requires leasts { (i : ℕ) → i < length leasts.now → (least_of leasts.now i < length rows.now) × (number_of numbers.now (least_of leasts.now i) ≡ i) }
    ensures { IfOk result (λ near. IsTrue near → (x : ℕ) → x < length rows.now → IsReachedWithin (lists rows.now) numbers.now leasts.now x) }
{
    let marks = reached_within(alloc, rows, numbers, leasts)?;
    for x in 0..rows.len() {
        if !marks[x] && leasts[numbers[x]] != x {
            return Ok(false);
        }
    }
    Ok(true)
}

/// Returns the earliest place of a list after the edges of this row: after each list to which one of them leads.
fn raised_place(row: &[usize], number: usize, numbers: &[usize], earliest: usize) -> usize
    requires { All (λ y. y < length numbers.now) row.now }
    ensures { (result ≡ earliest) ⊎ ((y : ℕ) × Contains row.now y × (number_of numbers.now y < number) × (result ≡ number_of numbers.now y + 1)) }
{
    let mut raised = earliest;
    for y in row {
        let other = numbers[*y];
        if other < number && raised <= other {
            raised = other + 1;
        }
    }
    raised
}

/// Returns for each list the earliest place that its edges allow: after the last list to which it has an edge, or 0.
fn earliest_places(
    alloc: Global,
    rows: &[Vec<usize>],
    numbers: &[usize],
    count: usize,
) -> Result<Vec<usize>, AllocError>
    requires closed { IsClosed (lists rows.now) }
    requires len { length numbers.now ≡ length rows.now }
    requires numbers { All (λ i. i < count) numbers.now }
    ensures { IfOk result (λ earliest. AreEarliestPlaces (lists rows.now) numbers.now earliest.items count) }
{
    let mut earliest = vec![in alloc; 0; count]?;
    for x in 0..rows.len() {
        let number = numbers[x];
        earliest[number] = raised_place(&rows[x], number, numbers, earliest[number]);
    }
    Ok(earliest)
}

/// Returns the least place such that no member from there to `start` is greater than the one at `start`.
fn place_before(leasts: &[usize], places: &[usize], start: usize) -> usize
    requires start { start < length leasts.now }
    requires len { length places.now ≡ start }
    requires places { ArePlaces leasts.now places.now }
    ensures to { result ≤ start }
    ensures below { (i : ℕ) → result ≤ i → i < start → least_of leasts.now i < least_of leasts.now start }
{
    let mut place = start;
    while place > 0 && leasts[place - 1] < leasts[start] {
        place = places[place - 1];
    }
    place
}

/// Returns whether each list is directly after one to which it has an edge, or as early as its first member allows.
fn is_least_first(alloc: Global, leasts: &[usize], earliest: &[usize]) -> Result<bool, AllocError>
    requires { length earliest.now ≡ length leasts.now }
    ensures { IfOk result (λ first. IsTrue first → IsLeastFirst leasts.now earliest.now) }
{
    let mut places = Vec::with_capacity(alloc, leasts.len())?;
    for number in 0..leasts.len() {
        let place = place_before(leasts, &places, number);
        if place > earliest[number] {
            return Ok(false);
        }
        places.push(place)?;
    }
    Ok(true)
}

/// Lists of nodes, with the number of each node's list and the first member of each list.
#[derive(Clone, Copy)]
struct NumberedLists<'a> {
    groups: &'a [Vec<usize>],
    numbers: &'a [usize],
    leasts: &'a [usize],
}

/// Returns whether each node is the first of its list, or reaches it and is reached from it inside the list.
/// `back` has the edges reversed.
fn are_joined(
    alloc: Global,
    rows: &[Vec<usize>],
    back: &[Vec<usize>],
    list: &NumberedLists<'_>,
) -> Result<bool, AllocError>
    requires closed { IsClosed (lists rows.now) }
    requires back_closed { IsClosed (lists back.now) }
    requires len { length back.now ≡ length rows.now }
    requires covered { IsCovered (lists list.now.groups.now) (length rows.now) list.now.numbers.now }
    requires members { AreMembers (lists list.now.groups.now) list.now.numbers.now }
    requires leasts { AreLeasts (lists list.now.groups.now) list.now.leasts.now }
    ensures near { IfOk result (λ are. IsTrue are → (x : ℕ) → x < length rows.now
        → IsReachedWithin (lists rows.now) list.now.numbers.now list.now.leasts.now x) }
    ensures near_back { IfOk result (λ are. IsTrue are → (x : ℕ) → x < length back.now
        → IsReachedWithin (lists back.now) list.now.numbers.now list.now.leasts.now x) }
{
    if !all_reached_within(alloc, rows, list.numbers, list.leasts)? {
        return Ok(false);
    }
    Ok(all_reached_within(alloc, back, list.numbers, list.leasts)?)
}

/// Returns whether each list is directly after one to which it has an edge, or as early as its first member allows.
fn are_in_order(
    alloc: Global,
    rows: &[Vec<usize>],
    list: &NumberedLists<'_>,
) -> Result<bool, AllocError>
    requires closed { IsClosed (lists rows.now) }
    requires covered { IsCovered (lists list.now.groups.now) (length rows.now) list.now.numbers.now }
    requires leasts { AreLeasts (lists list.now.groups.now) list.now.leasts.now }
    ensures { IfOk result (λ are. IsTrue are → IsOrdered (lists rows.now) list.now.numbers.now list.now.leasts.now) }
{
    let earliest = earliest_places(alloc, rows, list.numbers, list.leasts.len())?;
    Ok(is_least_first(alloc, list.leasts, &earliest)?)
}

/// Returns whether these lists are the groups in their order, by the number of each node and the first members.
/// `back` has the edges reversed.
fn are_numbered_groups(
    alloc: Global,
    rows: &[Vec<usize>],
    back: &[Vec<usize>],
    list: &NumberedLists<'_>,
) -> Result<bool, AllocError>
    requires closed { IsClosed (lists rows.now) }
    requires back_closed { IsClosed (lists back.now) }
    requires len { length back.now ≡ length rows.now }
    requires back { (x y : ℕ) → Edge (lists back.now) y x → Edge (lists rows.now) x y }
    requires covered { IsCovered (lists list.now.groups.now) (length rows.now) list.now.numbers.now }
    requires leasts { AreLeasts (lists list.now.groups.now) list.now.leasts.now }
    ensures { IfOk result (λ are. IsTrue are → AreGroups (lists rows.now) (lists list.now.groups.now)) }
{
    if !are_members(list.groups, list.numbers) {
        return Ok(false);
    }
    if !all_ascend(list.groups) {
        return Ok(false);
    }
    if !no_edge_ahead(rows, list.numbers) {
        return Ok(false);
    }
    if !are_joined(alloc, rows, back, list)? {
        return Ok(false);
    }
    Ok(are_in_order(alloc, rows, list)?)
}

/// Returns whether the lists are the groups in their order. `back` has the edges reversed.
pub(crate) fn are_groups(
    alloc: Global,
    rows: &[Vec<usize>],
    back: &[Vec<usize>],
    groups: &[Vec<usize>],
) -> Result<bool, AllocError>
    requires closed { IsClosed (lists rows.now) }
    requires back_closed { IsClosed (lists back.now) }
    requires len { length back.now ≡ length rows.now }
    requires back { (x y : ℕ) → Edge (lists back.now) y x → Edge (lists rows.now) x y }
    ensures { IfOk result (λ are. IsTrue are → AreGroups (lists rows.now) (lists groups.now)) }
{
    let Some(numbers) = list_numbers(alloc, groups, rows.len())? else {
        return Ok(false);
    };
    let Some(leasts) = first_members(alloc, groups)? else {
        return Ok(false);
    };
    let list = NumberedLists {
        groups,
        numbers: &numbers,
        leasts: &leasts,
    };
    Ok(are_numbered_groups(alloc, rows, back, &list)?)
}
