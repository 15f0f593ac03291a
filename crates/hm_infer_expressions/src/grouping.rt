//! The names of a binding group: their types while it is inferred, and their schemes afterwards
//! (Haskell 98 Report, section 4.5.2).

ghost use Rattle.std.specs.Prelude.{◌≡◌, ℕ, ◌+◌, ◌<◌, ◌≤◌, ◌^◌, ◌++◌, List, All, IfOk, IfErr, OnOk, false, length};
ghost use Rattle.hm_infer_dependencies.specs.Nodes.{list_nodes};
ghost use Rattle.hm_infer_dependencies.specs.Groups.{node_name};
ghost use Rattle.hm_types.specs.Shape.{type_of};
ghost use Rattle.hm_unify.specs.Levels.{is_outer};
ghost use Rattle.hm_unify.specs.WellFormed.{IsWellFormed};
ghost use Rattle.hm_infer_expressions.specs.BoundNames.{ArePlaced, BindsNode, BindsTypes, BindsSchemes};
ghost use Rattle.hm_infer_context.specs.Environments.{Extends, AreAssumed, Assumed, assumptions};
ghost use Rattle.hm_infer_generalisation.specs.Generalisations.{IsSolution, KeepsEach, KeepsNone};
ghost use Rattle.hm_infer_expressions.specs.GroupQuestions.{AreGivenTypes};
ghost use Rattle.hm_infer_expressions.specs.OpenGroups.{AreUpTo, ChangesOnly, IsOpenGroup, IsClosedGroup};
ghost use Rattle.hm_graph_components.specs.Digraph.{lists};
ghost use Rattle.hm_unify.specs.declared.faults.UnifyFault.TheVariants.{Memory};
ghost use Rattle.hm_names.specs.Syntax.{Known};
ghost use Rattle.hm_syntax.specs.Trees.{Declarations};
ghost use Rattle.hm_typing.specs.Assumptions.{Assumptions, assumptions_put};
ghost use Rattle.hm_typing.specs.Schemes.{Monotype};

use hm_infer_binding_groups::BindingGroups;
use hm_infer_context::{Environment, Inference, new_variables};
use hm_infer_dependencies::{Member, Numbers, group_members};
use hm_infer_generalisation::{Generalised, generalise};
use hm_types::Ty;
use hm_unify::{Solver, UnifyFault};
use std::alloc::{AllocError, Global};

/// A group of a list whose nodes have types. Variables in the values of the first `older` variables
/// stay free in its schemes.
#[derive(Clone, Copy)]
pub(crate) struct TypedGroup<'g, 'a> {
    pub numbers: &'g Numbers<'a>,
    pub nodes: &'g [usize],
    pub types: &'g [usize],
    pub older: usize,
}

/// Sets the types of a group's nodes to the variables from `first` on.
pub(crate) fn place_types(types: &mut [usize], group: &[usize], first: usize)
    requires nodes { All (λ j. j < length types.old) group.now }
    requires fits { first + length group.now < 2 ^ 64 }
    ensures placed { ArePlaced first group.now types.new }
    ensures given { (g : ℕ) → first + length group.now ≤ g → AreGivenTypes g types.old → AreGivenTypes g types.new }
    ensures changed { ChangesOnly group.now types.old types.new }
{
    'nodes: for place in 0..group.len() {
        types[group[place]] = first + place;
    }
}

/// Binds a node to a scheme if it is a variable. No expression refers to a pattern binding itself.
fn bind_node<'a>(
    environment: &mut Environment<'a>,
    numbers: &Numbers<'a>,
    node: usize,
    quantified: usize,
    body: Ty,
) -> Result<(), AllocError>
    requires { node < length numbers.now }
    ensures bound { OnOk result ((k : Known) (all : Declarations) → numbers.now ≡ list_nodes all all
        → BindsNode (node_name k all node) (record { quantified = quantified; body = type_of body }) environment.old environment.new) }
    ensures given { OnOk result ((g : ℕ) → IsWellFormed (quantified + g) (type_of body) → AreAssumed g environment.old → AreAssumed g environment.new) }
    ensures kept { Extends environment.old environment.new }
{
    let Some(name) = numbers.variable(node) else {
        return Ok(());
    };
    environment.bind(name, quantified, body)?;
    Ok(())
}

/// Binds the variables among the nodes of a group to their types.
pub(crate) fn bind_types<'a>(
    alloc: Global,
    environment: &mut Environment<'a>,
    numbers: &Numbers<'a>,
    group: &[usize],
    types: &[usize],
) -> Result<(), AllocError>
    requires nodes { All (λ j. j < length numbers.now) group.now }
    requires types { length types.now ≡ length numbers.now }
    ensures bound { OnOk result ((k : Known) (all : Declarations) → numbers.now ≡ list_nodes all all
        → BindsTypes k all types.now group.now environment.old environment.new) }
    ensures given { OnOk result ((g : ℕ) → AreGivenTypes g types.now → AreAssumed g environment.old → AreAssumed g environment.new) }
    ensures kept { Extends environment.old environment.new }
{
    'nodes: for place in 0..group.len() {
        let node = group[place];
        let number = types[node];
        bind_node(environment, numbers, node, 0, Ty::Var(number))?;
    }
    Ok(())
}

/// Binds the variables among the nodes of a group to the closures of their types under the
/// solution.
pub(crate) fn bind_schemes<'a>(
    alloc: Global,
    solver: &Solver,
    environment: &mut Environment<'a>,
    group: &TypedGroup<'_, 'a>,
) -> Result<(), AllocError>
    requires nodes { All (λ j. j < length group.now.numbers.now) group.now.nodes.now }
    requires types { length group.now.types.now ≡ length group.now.numbers.now }
    requires numbers { AreGivenTypes solver.now.given group.now.types.now }
    ensures bound { OnOk result ((k : Known) (all : Declarations) → group.now.numbers.now ≡ list_nodes all all → (A : Assumptions) (m : ℕ → Monotype)
        → IsSolution solver.now.equations m → KeepsEach (is_outer solver.now.equations group.now.older) solver.now.equations group.now.types.now
        group.now.nodes.now (assumptions_put m A) → BindsSchemes k all group.now.types.now m A group.now.nodes.now environment.old environment.new) }
    ensures given { OnOk result (AreAssumed solver.now.given environment.old → AreAssumed solver.now.given environment.new) }
    ensures closed { OnOk result (KeepsNone (is_outer solver.now.equations group.now.older) solver.now.equations group.now.types.now
        group.now.nodes.now → AreAssumed 0 environment.old → AreAssumed 0 environment.new) }
    ensures kept { Extends environment.old environment.new }
{
    'nodes: for place in 0..group.nodes.len() {
        let node = group.nodes[place];
        let number = group.types[node];
        let scheme = generalise(alloc, solver, group.older, &Ty::Var(number))?;
        let Generalised { quantified, body } = scheme;
        bind_node(environment, group.numbers, node, quantified, body)?;
    }
    Ok(())
}

/// Gives the nodes of a group new variables as types, and binds its names to these. Returns
/// the declarations of the group.
pub(crate) fn open_group<'a>(
    inference: &mut Inference<'a>,
    found: &BindingGroups<'a>,
    group: &[usize],
    types: &mut [usize],
) -> Result<Vec<Member>, UnifyFault>
    requires nodes { All (λ j. j < length found.now.numbers) group.now }
    requires rows { length found.now.rows.items ≡ length found.now.numbers }
    requires types { length types.old ≡ length found.now.numbers }
    requires some { 0 < length group.now }
    requires numbers { AreUpTo inference.old.solver.given types.old }
    requires assumed { AreAssumed inference.old.solver.given inference.old.environment }
    ensures opened { IfOk result (λ members. IsOpenGroup found.now.numbers (lists found.now.rows.items) group.now inference.old.solver
        inference.old.environment inference.new.solver inference.new.environment types.new members.items) }
    ensures refused { IfErr result (λ e. e ≡ Memory) }
    ensures kept { Extends inference.old.environment inference.new.environment }
    ensures changed { ChangesOnly group.now types.old types.new }
{
    let first = new_variables(&mut inference.solver, group.len())?;
    place_types(types, group, first);
    bind_types(
        inference.alloc,
        &mut inference.environment,
        &found.numbers,
        group,
        types,
    )?;
    Ok(group_members(inference.alloc, &found.rows, group)?)
}

/// Binds the names of a group to the closures of their types.
pub(crate) fn close_group<'a>(
    alloc: Global,
    solver: &Solver,
    environment: &mut Environment<'a>,
    group: &TypedGroup<'_, 'a>,
) -> Result<(), UnifyFault>
    requires nodes { All (λ j. j < length group.now.numbers.now) group.now.nodes.now }
    requires types { length group.now.types.now ≡ length group.now.numbers.now }
    requires numbers { AreGivenTypes solver.now.given group.now.types.now }
    requires assumed { AreAssumed solver.now.given environment.old }
    ensures closed { OnOk result (IsClosedGroup group.now.numbers.now group.now.nodes.now group.now.types.now group.now.older solver.now
        environment.old environment.new) }
    ensures assumed { OnOk result (AreAssumed solver.now.given environment.new) }
    ensures closed_alone { OnOk result (KeepsNone (is_outer solver.now.equations group.now.older) solver.now.equations group.now.types.now
        group.now.nodes.now → AreAssumed 0 environment.old → AreAssumed 0 environment.new) }
    ensures kept { Extends environment.old environment.new }
    ensures refused { IfErr result (λ e. e ≡ Memory) }
{
    solver.has_solution();
    Ok(bind_schemes(alloc, solver, environment, group)?)
}
