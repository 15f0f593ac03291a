//! The binding groups of a declaration list, with the error type of inference.

ghost use Rattle.std.specs.Prelude.{◌≡◌, IfOk, Err, length};
ghost use Rattle.hm_graph_components.specs.Digraph.{lists};
ghost use Rattle.hm_syntax.specs.Lists.{declarations};
ghost use Rattle.hm_infer_dependencies.specs.Nodes.{list_nodes};
ghost use Rattle.hm_infer_dependencies.specs.Members.{AreRows};
ghost use Rattle.hm_infer_dependencies.specs.Groups.{node_name};
ghost use Rattle.hm_typing.specs.Names.{IsDistinct};
ghost use Rattle.hm_typing.specs.Syntax.{names};
ghost use Rattle.hm_typing.specs.Orders.{AreNumberedGroups};
ghost use Rattle.hm_names.specs.Syntax.{Known, bindings_of};

use hm_infer_binding_groups::{BindingGroups, binding_groups};
use hm_infer_dependencies::GroupFault;
use hm_syntax::Decl;
use hm_unify::UnifyFault;
use std::alloc::Global;

/// Returns the binding groups of a list, or `Clash` if a name is bound twice: then the list has no typing.
pub fn listed_groups<'a>(alloc: Global, decls: &'a [Decl]) -> Result<BindingGroups<'a>, UnifyFault>
    ensures nodes { IfOk result (λ found. found.numbers ≡ list_nodes (declarations decls.now) (declarations decls.now)) }
    ensures rows { IfOk result (λ found. AreRows decls.now (length found.numbers) (lists found.rows.items)) }
    ensures distinct { IfOk result (λ found. (k : Known) → IsDistinct (names (bindings_of k (declarations decls.now) (declarations decls.now)))) }
    ensures groups { IfOk result (λ found. (k : Known)
        → AreNumberedGroups (bindings_of k (declarations decls.now) (declarations decls.now)) (node_name k (declarations decls.now))
        (length found.numbers) (lists found.groups.items)) }
    ensures repeated { result ≡ Err UnifyFault.Clash → (k : Known) → ¬ (IsDistinct (names (bindings_of k (declarations decls.now) (declarations decls.now)))) }
{
    match binding_groups(alloc, decls) {
        Ok(found) => Ok(found),
        Err(GroupFault::Repeated) => Err(UnifyFault::Clash),
        Err(GroupFault::Memory) => Err(UnifyFault::Memory),
    }
}
