//! Graphs and plans: one test for each public call.
ghost use Rattle.std.specs.Prelude.{◌≡◌, ◌<◌, length};

use hm_graph::{Dependents, Digraph, Plan, PlanFault, import_plan};
use hm_lex::lex;
use hm_parse::parse;
use hm_syntax::Module;
use std::alloc::{AllocError, Global};
use std::test::Fail;

/// Adds three edges to a graph of three nodes.
fn add_three_edges(graph: &mut Digraph) -> Result<(), AllocError>
    requires { length graph.old ≡ 3 }
    ensures { length graph.new ≡ 3 }
{
    graph.add(0, 1)?;
    graph.add(1, 0)?;
    graph.add(2, 0)?;
    Ok(())
}

/// Returns whether the first of the three nodes reaches itself, and doesn't reach the last.
fn has_paths(graph: &Digraph) -> Result<bool, AllocError>
    requires { length graph.now ≡ 3 }
{
    Ok(graph.len() == 3 && graph.reaches(0, 0)? && !graph.reaches(0, 2)?)
}

/// Returns whether the groups are the first two nodes and the last.
fn are_two(groups: &[Vec<usize>]) -> bool {
    groups.len() == 2
        && groups[0].as_slice() == [0, 1].as_slice()
        && groups[1].as_slice() == [2].as_slice()
}

/// Returns whether a graph has these groups.
fn has_two_groups(graph: &Digraph) -> Result<bool, AllocError> {
    Ok(are_two(&graph.groups()?))
}

#[test]
fn a_graph_of_three(rt: HostRuntime) -> Result<(), AllocError> {
    let mut graph = Digraph::new(rt.alloc(), 3)?;
    add_three_edges(&mut graph)?;
    assert!(rt; has_paths(&graph)?);
    assert!(rt; has_two_groups(&graph)?);
    Ok(())
}

/// A set of three modules.
const THREE: &[u8] =
    b"module A where { import C ; import Prelude ; import B ; import C }\nmodule B where { }\nmodule C where { import B }";

/// Returns whether the plan of the three modules has their imports and importers.
fn has_order(plan: &Plan) -> bool {
    plan.len() == 3
        && plan.imports(0) == [2, 1].as_slice()
        && plan.imports(1).is_empty()
        && plan.imports(2) == [1].as_slice()
        && plan.importers(0).is_empty()
        && plan.importers(1) == [0, 2].as_slice()
}

/// Returns whether the dependents of the second module are found, and then those of the third.
fn finds_dependents(alloc: Global, plan: &Plan) -> Result<bool, AllocError> {
    if plan.len() != 3 {
        return Ok(false);
    }
    let mut dependents = Dependents::new(alloc, 3)?;
    dependents.find(plan, 1);
    let of_second = dependents.marks() == [true, false, true].as_slice();
    dependents.find(plan, 2);
    Ok(of_second && dependents.marks() == [true, false, false].as_slice())
}

/// Returns the plan of these modules.
fn plan_of(alloc: Global, modules: &[Module]) -> Result<Plan, PlanFault> {
    let mut headers = Vec::new(alloc);
    for module in modules {
        headers.push(&module.header)?;
    }
    import_plan(alloc, &headers)
}

/// Returns the plan of the modules of a source.
fn planned(alloc: Global, source: &[u8]) -> Result<Plan, Fail> {
    let Ok(tokens) = lex(alloc, source) else {
        return Err(Fail::from("no tokens"));
    };
    let Ok(modules) = parse(alloc, source, &tokens) else {
        return Err(Fail::from("no modules"));
    };
    plan_of(alloc, &modules).map_err(|_| Fail::from("no plan"))
}

#[test]
fn the_order_of_first_imports(rt: HostRuntime) -> Result<(), Fail> {
    let plan = planned(rt.alloc(), THREE)?;
    assert!(rt; has_order(&plan));
    assert!(rt; finds_dependents(rt.alloc(), &plan)?);
    Ok(())
}
