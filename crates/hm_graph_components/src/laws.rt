//! Laws of groups and orders. Each law is a function with an empty body, and its contract is the law.
ghost use Rattle.std.specs.Prelude.{◌≡◌, List, ℕ};
ghost use Rattle.hm_graph_components.specs.Digraph.{AreGroups, Graph};
ghost use Rattle.hm_graph_components.specs.Worked.{OrdersRow};

/// A graph has exactly one list of groups in their order.
#[tactic(auto, using(crate::proofs::Unique::one_list_of_groups))]
pub fn one_list_of_groups()
    ensures { (graph : Graph) (groups others : List (List ℕ)) → AreGroups graph groups → AreGroups graph others → groups ≡ others }
{}

/// Worked example: the lists that `Digraph::order` may return for a graph.
#[tactic(auto, using(crate::proofs::WorkedOrders::orders))]
pub fn worked_orders()
    ensures { OrdersRow }
{}
