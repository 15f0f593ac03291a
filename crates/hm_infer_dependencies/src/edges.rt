//! The graph of a list.

ghost use Rattle.std.specs.Prelude.{◌≡◌, ℕ, [], ◌<◌, ◌⊎◌, IfOk, OnOk, Some, length, Contains, All};
ghost use Rattle.hm_graph_components.specs.Digraph.{Edge};
ghost use Rattle.hm_syntax.specs.Lists.{declarations};
ghost use Rattle.hm_infer_dependencies.specs.Nodes.{AllShown, AddsEdges, DeclarationEdge, IsGraphOf, Star, list_nodes, owners};

use crate::hiding::{hide_pattern, show};
use crate::nodes::NodeList;
use crate::numbers::Numbers;
use crate::references::find_in_decl;
use hm_graph::Digraph;
use hm_syntax::{Decl, DeclKind};
use std::alloc::{AllocError, Global};

/// Adds the edges from a node to the nodes of a row.
fn add_row(graph: &mut Digraph, from: usize, row: &[usize]) -> Result<(), AllocError>
    requires from { from < length graph.old }
    requires row { All (λ y. y < length graph.old) row.now }
    ensures len { OnOk result (length graph.new ≡ length graph.old) }
    ensures edges { OnOk result (AddsEdges graph.old graph.new (λ x y. (x ≡ from) × Contains row.now y)) }
{
    for to in row {
        graph.add(from, *to)?;
    }
    Ok(())
}

/// Adds the edges to a node from the nodes of a row.
fn add_column(graph: &mut Digraph, row: &[usize], to: usize) -> Result<(), AllocError>
    requires to { to < length graph.old }
    requires row { All (λ y. y < length graph.old) row.now }
    ensures len { OnOk result (length graph.new ≡ length graph.old) }
    ensures edges { OnOk result (AddsEdges graph.old graph.new (λ x y. (y ≡ to) × Contains row.now x)) }
{
    for from in row {
        graph.add(*from, to)?;
    }
    Ok(())
}

/// A declaration of a list, with the numbers of the list's nodes.
#[derive(Clone, Copy)]
struct NumberedDecl<'r, 'a> {
    numbers: &'r Numbers<'a>,
    decl: &'r Decl,
}

/// Adds the edges between a pattern binding's own node and those of its variables.
fn add_star(
    alloc: Global,
    graph: &mut Digraph,
    shown: &mut [bool],
    own: usize,
    numbered: &NumberedDecl<'_, '_>,
) -> Result<(), AllocError>
    requires size { length graph.old ≡ length numbered.now.numbers.now }
    requires shown { AllShown shown.old (length numbered.now.numbers.now) }
    requires own { own < length graph.old }
    ensures len { OnOk result (length graph.new ≡ length graph.old) }
    ensures shown { OnOk result (shown.new ≡ shown.old) }
    ensures edges { OnOk result (AddsEdges graph.old graph.new (Star numbered.now.numbers.now numbered.now.decl.now own)) }
{
    let decl = numbered.decl;
    let DeclKind::Pattern {
        place: _,
        pat,
        rhs: _,
    } = &decl.kind
    else {
        return Ok(());
    };
    let mut noted = Vec::new(alloc);
    hide_pattern(numbered.numbers, pat, shown, &mut noted)?;
    show(&noted, shown);
    add_row(graph, own, &noted)?;
    add_column(graph, &noted, own)?;
    Ok(())
}

/// Adds the edges from a node to those to which a declaration refers.
fn add_references(
    alloc: Global,
    graph: &mut Digraph,
    shown: &mut [bool],
    own: usize,
    numbered: &NumberedDecl<'_, '_>,
) -> Result<(), AllocError>
    requires size { length graph.old ≡ length numbered.now.numbers.now }
    requires shown { AllShown shown.old (length numbered.now.numbers.now) }
    requires own { own < length graph.old }
    ensures len { OnOk result (length graph.new ≡ length graph.old) }
    ensures shown { OnOk result (shown.new ≡ shown.old) }
    ensures edges { OnOk result (AddsEdges graph.old graph.new (DeclarationEdge numbered.now.numbers.now numbered.now.decl.now own)) }
{
    let mut found = Vec::new(alloc);
    find_in_decl(alloc, numbered.numbers, shown, &mut found, numbered.decl)?;
    add_row(graph, own, &found)?;
    add_star(alloc, graph, shown, own, numbered)?;
    Ok(())
}

/// Adds the edges of a declaration, if it belongs to a node.
fn add_owned(
    alloc: Global,
    graph: &mut Digraph,
    shown: &mut [bool],
    owner: Option<usize>,
    numbered: &NumberedDecl<'_, '_>,
) -> Result<(), AllocError>
    requires size { length graph.old ≡ length numbered.now.numbers.now }
    requires shown { AllShown shown.old (length numbered.now.numbers.now) }
    requires own { (own : ℕ) → owner ≡ Some own → own < length graph.old }
    ensures len { OnOk result (length graph.new ≡ length graph.old) }
    ensures shown { OnOk result (shown.new ≡ shown.old) }
    ensures edges { OnOk result (AddsEdges graph.old graph.new (λ x y. (own : ℕ) × (owner ≡ Some own)
        × DeclarationEdge numbered.now.numbers.now numbered.now.decl.now own x y)) }
{
    match owner {
        Some(own) => Ok(add_references(alloc, graph, shown, own, numbered)?),
        None => Ok(()),
    }
}

/// Adds the edges of all declarations.
fn add_all(
    alloc: Global,
    graph: &mut Digraph,
    shown: &mut [bool],
    list: &NodeList,
    decls: &[Decl],
) -> Result<(), AllocError>
    requires nodes { list.now.numbers ≡ list_nodes (declarations decls.now) (declarations decls.now) }
    requires owners { list.now.owners.items ≡ owners (declarations decls.now) (declarations decls.now) }
    requires size { length graph.old ≡ length list.now.numbers }
    requires shown { AllShown shown.old (length list.now.numbers) }
    requires empty { (x y : ℕ) → ¬ Edge graph.old x y }
    ensures { OnOk result (IsGraphOf (declarations decls.now) graph.new) }
{
    for behind in 0..decls.len() {
        let place = decls.len() - 1 - behind;
        let owner = list.owners[behind];
        let numbered = NumberedDecl {
            numbers: &list.numbers,
            decl: &decls[place],
        };
        add_owned(alloc, graph, shown, owner, &numbered)?;
    }
    Ok(())
}

/// Returns the graph of a list with these nodes.
pub fn graph_of(alloc: Global, list: &NodeList, decls: &[Decl]) -> Result<Digraph, AllocError>
    requires nodes { list.now.numbers ≡ list_nodes (declarations decls.now) (declarations decls.now) }
    requires owners { list.now.owners.items ≡ owners (declarations decls.now) (declarations decls.now) }
    ensures { IfOk result (IsGraphOf (declarations decls.now)) }
{
    let count = list.numbers.len();
    let mut graph = Digraph::new(alloc, count)?;
    let mut shown = vec![in alloc; true; count]?;
    add_all(alloc, &mut graph, &mut shown, list, decls)?;
    Ok(graph)
}
