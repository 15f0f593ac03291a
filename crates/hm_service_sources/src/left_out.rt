//! The sources of a set that can be checked.
ghost use Rattle.std.specs.Prelude.{◌≡◌, ◌↔◌, ◌⊎◌, ◌<◌, ℕ, All, Bool, Contains, IfOk, IsTrue, OnOk, length, map, true};
ghost use Rattle.std.specs.List.Sorted.{IsStrictlyIncreasing};
ghost use Rattle.hm_graph_components.specs.Closure.{Closure};
ghost use Rattle.hm_graph_components.specs.Digraph.{lists};
ghost use Rattle.hm_graph_components.specs.Marks.{IsMarked};
ghost use Rattle.hm_service_sources.specs.HeldSets.{AreAll};
ghost use Rattle.hm_service_sources.specs.LeftOut.{ImportsFirst, IsInTheWay, IsLeftOut, outlines_of, source_at};
ghost use Rattle.hm_service_sources.specs.Steps.{AddsRow, AreFirsts, AreImportRows, AreOwnMarks, AreSourceEdges, AreWayMarks};

use crate::imports::{has_missing, import_rows};
use crate::names::{first_numbers, is_taken};
use hm_graph::Digraph;
use hm_graph_components::recursive_marks;
use hm_run_sources::Located;
use indexmap::IndexMap;
use std::alloc::{AllocError, Global};

/// The largest number of modules in a set.
const MODULE_LIMIT: usize = 4096;

/// Returns whether a module is in the way. `recursive` marks the modules that reach themselves.
fn is_in_the_way(
    numbers: &IndexMap<&str, usize>,
    located: &[Located],
    recursive: &[bool],
    number: usize,
) -> bool
    requires numbers { AreFirsts (outlines_of located.now) (length located.now) numbers.now }
    requires number { number < length located.now }
    requires len { length recursive.now ≡ length located.now }
    requires recursive { IsMarked recursive.now number ↔ Closure (ImportsFirst (outlines_of located.now)) number number }
    ensures { IsTrue result ↔ IsInTheWay (outlines_of located.now) number }
{
    if located.len() > MODULE_LIMIT {
        return true;
    }
    if recursive[number] {
        return true;
    }
    if is_taken(numbers, located, number) {
        return true;
    }
    has_missing(numbers, located, number)
}

/// Returns for each module whether it is in the way.
fn way_marks(
    alloc: Global,
    numbers: &IndexMap<&str, usize>,
    located: &[Located],
    rows: &[Vec<usize>],
) -> Result<Vec<bool>, AllocError>
    requires numbers { AreFirsts (outlines_of located.now) (length located.now) numbers.now }
    requires rows { AreImportRows (outlines_of located.now) (length located.now) (lists rows.now) }
    ensures { IfOk result (λ marks. AreWayMarks (outlines_of located.now) (length located.now) marks.items) }
{
    let recursive = recursive_marks(alloc, rows)?;
    let mut marks = Vec::new(alloc);
    'modules: for number in 0..located.len() {
        marks.push(is_in_the_way(numbers, located, recursive.as_slice(), number))?;
    }
    Ok(marks)
}

/// Sets a mark if `mark` holds.
fn set(marks: &mut [bool], at: usize, mark: bool)
    requires { at < length marks.old }
    ensures len { length marks.new ≡ length marks.old }
    ensures marks { (k : ℕ) → IsMarked marks.new k ↔ (IsMarked marks.old k ⊎ ((k ≡ at) × (mark ≡ true))) }
{
    if mark {
        marks[at] = true;
    }
}

/// Returns for each source whether one of its modules has a mark.
fn own_marks(
    alloc: Global,
    located: &[Located],
    ways: &[bool],
    sources: usize,
) -> Result<Vec<bool>, AllocError>
    requires len { length ways.now ≡ length located.now }
    requires sources { All (λ l. l.source < sources) located.now }
    ensures { IfOk result (λ marks. AreOwnMarks located.now ways.now sources marks.items) }
{
    let mut marks = vec![in alloc; false; sources]?;
    'modules: for number in 0..located.len() {
        set(&mut marks, located[number].source, ways[number]);
    }
    Ok(marks)
}

/// Adds an edge to the source of a module from that of each module that it imports.
fn add_row(
    graph: &mut Digraph,
    located: &[Located],
    row: &[usize],
    number: usize,
) -> Result<(), AllocError>
    requires row { All (λ k. k < length located.now) row.now }
    requires number { number < length located.now }
    requires sources { All (λ l. l.source < length graph.old) located.now }
    ensures { OnOk result (AddsRow located.now row.now number graph.old graph.new) }
{
    'row: for target in row {
        graph.add(located[*target].source, located[number].source)?;
    }
    Ok(())
}

/// Returns the graph of the sources. An edge leads from one source to another if a module of the second imports one of the first.
fn source_graph(
    alloc: Global,
    located: &[Located],
    rows: &[Vec<usize>],
    sources: usize,
) -> Result<Digraph, AllocError>
    requires rows { AreImportRows (outlines_of located.now) (length located.now) (lists rows.now) }
    requires sources { All (λ l. l.source < sources) located.now }
    ensures { IfOk result (AreSourceEdges located.now sources) }
{
    let mut graph = Digraph::new(alloc, sources)?;
    'modules: for number in 0..located.len() {
        add_row(&mut graph, located, rows[number].as_slice(), number)?;
    }
    Ok(graph)
}

/// Returns for each source whether it is left out.
fn left_out_marks(
    alloc: Global,
    located: &[Located],
    sources: usize,
) -> Result<Vec<bool>, AllocError>
    requires { All (λ l. l.source < sources) located.now }
    ensures len { IfOk result (λ marks. length marks.items ≡ sources) }
    ensures marks { IfOk result (λ marks. (s : ℕ) → IsMarked marks.items s ↔ IsLeftOut located.now s) }
{
    let numbers = first_numbers(alloc, located)?;
    let rows = import_rows(alloc, &numbers, located)?;
    let ways = way_marks(alloc, &numbers, located, rows.as_slice())?;
    let mut marks = own_marks(alloc, located, ways.as_slice(), sources)?;
    let graph = source_graph(alloc, located, rows.as_slice(), sources)?;
    graph.spread(&mut marks)?;
    Ok(marks)
}

/// Returns the numbers without a mark, ascending.
pub(crate) fn unmarked(alloc: Global, marks: &[bool]) -> Result<Vec<usize>, AllocError>
    ensures ascending { IfOk result (λ numbers. IsStrictlyIncreasing numbers.items) }
    ensures members { IfOk result (λ numbers. (k : ℕ) → Contains numbers.items k ↔ ((k < length marks.now) × ¬ (IsMarked marks.now k))) }
{
    let mut numbers = Vec::new(alloc);
    'marks: for number in 0..marks.len() {
        if !marks[number] {
            numbers.push(number)?;
        }
    }
    Ok(numbers)
}

/// Returns the numbers below this one, in order.
pub fn all_numbers(alloc: Global, count: usize) -> Result<Vec<usize>, AllocError>
    ensures { IfOk result (λ numbers. AreAll count numbers.items) }
{
    let mut numbers = Vec::new(alloc);
    'numbers: for number in 0..count {
        numbers.push(number)?;
    }
    Ok(numbers)
}

// Why: docs/DECISIONS.md, "The checkable part".
/// Returns the numbers of the sources that aren't left out, ascending. `located` has the headers of all modules of the sources.
///
/// Takes time in proportion to the names and imports of the modules; this is measured, not proved.
pub fn checkable(
    alloc: Global,
    located: &[Located],
    sources: usize,
) -> Result<Vec<usize>, AllocError>
    requires { All (λ l. l.source < sources) located.now }
    ensures ascending { IfOk result (λ part. IsStrictlyIncreasing part.items) }
    ensures members { IfOk result (λ part. (s : ℕ) → Contains part.items s ↔ ((s < sources) × ¬ (IsLeftOut located.now s))) }
{
    let marks = left_out_marks(alloc, located, sources)?;
    let part = unmarked(alloc, marks.as_slice())?;
    Ok(part)
}
