//! The units of a declaration list (Haskell 98 Report, section 4.5.1). Each comes after those that it depends on.

ghost use Rattle.std.specs.Prelude.{◌≡◌, ℕ, [], ◌∷◌, IfOk, Err, length};
ghost use Rattle.hm_graph_components.specs.Digraph.{AreGroups, Graph, lists};
ghost use Rattle.hm_syntax.specs.Lists.{declarations};
ghost use Rattle.hm_infer_dependencies.specs.Nodes.{AreSigned, IsGraphOf, list_nodes, owners};
ghost use Rattle.hm_infer_dependencies.specs.Members.{AreRows};
ghost use Rattle.hm_typing.specs.Names.{IsDistinct};
ghost use Rattle.hm_typing.specs.Syntax.{names};
ghost use Rattle.hm_typing.specs.Orders.{AreNumberedGroups};
ghost use Rattle.hm_names.specs.Syntax.{Known, bindings_of};
ghost use Rattle.hm_infer_dependencies.specs.Groups.{node_name};

use hm_infer_dependencies::{
    GroupFault, NodeList, Numbers, graph_of, node_list, rows_of, signed_texts,
};
use hm_syntax::Decl;
use indexmap::IndexSet;
use std::alloc::{AllocError, Global};

/// The units of a list without signatures.
pub struct BindingGroups<'a> {
    /// The nodes: the variables and pattern bindings without signatures.
    pub numbers: Numbers<'a>,
    /// For each node, the places of the declarations of its binding.
    pub rows: Vec<Vec<usize>>,
    /// The groups of nodes, in order.
    pub groups: Vec<Vec<usize>>,
}

impl Drop for BindingGroups<'_> {
    fn drop(self) {
        let BindingGroups {
            numbers: _numbers,
            rows: _rows,
            groups: _groups,
        } = self;
    }
}

/// Returns `Repeated` if a name of a list is bound twice. Includes names with signatures.
fn check_distinct(alloc: Global, decls: &[Decl]) -> Result<(), GroupFault>
    ensures distinct { IfOk result (λ _. (k : Known) → IsDistinct (names (bindings_of k (declarations decls.now) (declarations decls.now)))) }
    ensures repeated { result ≡ Err GroupFault.Repeated → (k : Known)
        → ¬ (IsDistinct (names (bindings_of k (declarations decls.now) (declarations decls.now)))) }
{
    let unsigned = IndexSet::new(alloc);
    let list = node_list(alloc, &unsigned, decls)?;
    list.numbers.has_each_once();
    Ok(())
}

/// Returns the nodes of a list, or `Repeated` if a name is bound twice. If no name has a signature, all names are nodes, and one pass over the
/// list is enough.
fn distinct_nodes<'a>(
    alloc: Global,
    signed: &IndexSet<&str>,
    decls: &'a [Decl],
) -> Result<NodeList<'a>, GroupFault>
    requires { AreSigned (declarations decls.now) signed.now }
    ensures nodes { IfOk result (λ list. list.numbers ≡ list_nodes (declarations decls.now) (declarations decls.now)) }
    ensures owners { IfOk result (λ list. list.owners.items ≡ owners (declarations decls.now) (declarations decls.now)) }
    ensures distinct { IfOk result (λ _. (k : Known) → IsDistinct (names (bindings_of k (declarations decls.now) (declarations decls.now)))) }
    ensures repeated { result ≡ Err GroupFault.Repeated → (k : Known)
        → ¬ (IsDistinct (names (bindings_of k (declarations decls.now) (declarations decls.now)))) }
{
    if !signed.is_empty() {
        check_distinct(alloc, decls)?;
        return Ok(node_list(alloc, signed, decls)?);
    }
    let list = node_list(alloc, signed, decls)?;
    list.numbers.has_each_once();
    Ok(list)
}

/// Returns the group of a single node.
fn one_group(alloc: Global) -> Result<Vec<Vec<usize>>, AllocError>
    ensures { IfOk result (λ groups. lists groups.items ≡ (0 ∷ []) ∷ []) }
{
    let mut group = Vec::with_capacity(alloc, 1)?;
    group.push(0)?;
    let mut groups = Vec::with_capacity(alloc, 1)?;
    groups.push(group)?;
    Ok(groups)
}

/// Returns the groups of a list's graph, in order.
fn graph_groups(
    alloc: Global,
    list: &NodeList<'_>,
    decls: &[Decl],
) -> Result<Vec<Vec<usize>>, AllocError>
    requires nodes { list.now.numbers ≡ list_nodes (declarations decls.now) (declarations decls.now) }
    requires owners { list.now.owners.items ≡ owners (declarations decls.now) (declarations decls.now) }
    ensures { IfOk result (λ groups. (graph : Graph) × IsGraphOf (declarations decls.now) graph × AreGroups graph (lists groups.items)) }
{
    graph_of(alloc, list, decls)?.groups()
}

/// Returns the groups of a list, in order. A single node needs no graph.
fn groups_of(
    alloc: Global,
    list: &NodeList<'_>,
    decls: &[Decl],
) -> Result<Vec<Vec<usize>>, AllocError>
    requires nodes { list.now.numbers ≡ list_nodes (declarations decls.now) (declarations decls.now) }
    requires owners { list.now.owners.items ≡ owners (declarations decls.now) (declarations decls.now) }
    requires distinct { (k : Known) → IsDistinct (names (bindings_of k (declarations decls.now) (declarations decls.now))) }
    ensures { IfOk result (λ groups. (k : Known)
        → AreNumberedGroups (bindings_of k (declarations decls.now) (declarations decls.now)) (node_name k (declarations decls.now))
        (length list.now.numbers) (lists groups.items)) }
{
    list.numbers.has_each_once();
    if list.numbers.len() == 1 {
        return Ok(one_group(alloc)?);
    }
    Ok(graph_groups(alloc, list, decls)?)
}

/// Returns the units of a list, or `Repeated` if a name is bound twice: then the list has no typing.
pub fn binding_groups<'a>(alloc: Global, decls: &'a [Decl]) -> Result<BindingGroups<'a>, GroupFault>
    ensures nodes { IfOk result (λ found. found.numbers ≡ list_nodes (declarations decls.now) (declarations decls.now)) }
    ensures rows { IfOk result (λ found. AreRows decls.now (length found.numbers) (lists found.rows.items)) }
    ensures distinct { IfOk result (λ found. (k : Known) → IsDistinct (names (bindings_of k (declarations decls.now) (declarations decls.now)))) }
    ensures groups { IfOk result (λ found. (k : Known)
        → AreNumberedGroups (bindings_of k (declarations decls.now) (declarations decls.now)) (node_name k (declarations decls.now))
        (length found.numbers) (lists found.groups.items)) }
    ensures repeated { result ≡ Err GroupFault.Repeated → (k : Known)
        → ¬ (IsDistinct (names (bindings_of k (declarations decls.now) (declarations decls.now)))) }
{
    let list = distinct_nodes(alloc, &signed_texts(alloc, decls)?, decls)?;
    let groups = groups_of(alloc, &list, decls)?;
    let NodeList { numbers, owners } = list;
    let rows = rows_of(alloc, &owners, numbers.len(), decls)?;
    Ok(BindingGroups {
        numbers,
        rows,
        groups,
    })
}
