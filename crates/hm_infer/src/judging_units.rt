//! Judges the units without signatures one by one. A unit is typed under closed assumptions if all
//! names that it uses from outside have types. If it has no type, it leaves the environment as it was.

ghost use Rattle.std.specs.Prelude.{◌≡◌, ℕ, ◌<◌, ◌++◌, List, All, IfOk, OnOk, length, slice_index_or};
ghost use Rattle.hm_graph_components.specs.Digraph.{lists};
ghost use Rattle.hm_typing.specs.Names.{IsDistinct, IsOneOf};
ghost use Rattle.hm_typing.specs.Orders.{AreNumberedGroups};
ghost use Rattle.hm_typing.specs.Syntax.{names};
ghost use Rattle.hm_syntax.specs.Lists.{declarations};
ghost use Rattle.hm_infer_dependencies.specs.Groups.{node_name};
ghost use Rattle.hm_infer_dependencies.specs.Nodes.{AllShown};
ghost use Rattle.hm_infer_context.specs.Environments.{Extends, AreAssumed, Assumed};
ghost use Rattle.hm_infer_context.specs.Constructors.{known_of};
ghost use Rattle.hm_infer_expressions.specs.Dependences.{UnitJudged};
ghost use Rattle.hm_infer_expressions.specs.OpenGroups.{AreUpTo};
ghost use Rattle.hm_infer.specs.JudgedUnits.{UnitsJudged};
ghost use Rattle.hm_infer_expressions.specs.SignedLists.{BindsSigned};
ghost use Rattle.hm_infer_expressions.specs.Stages.{IsListFound, list_of};

use hm_infer_context::Inference;
use hm_infer_dependencies::group_members;
use hm_infer_expressions::{CheckedList, infer_group};
use hm_infer_results::{mark, members_refer_to_typed, unmark};
use hm_unify::UnifyFault;

/// Removes the variables of a group's nodes from the table.
fn clear(types: &mut [usize], group: &[usize])
    requires nodes { All (λ j. j < length types.old) group.now }
    requires others { (j : ℕ) → j < length types.old → ¬ (IsOneOf j group.now) → slice_index_or types.old j 0 ≡ 0 }
    ensures { AreUpTo 0 types.new }
{
    'nodes: for place in 0..group.len() {
        types[group[place]] = 0;
    }
}

/// A group of a list, with its list.
#[derive(Clone, Copy)]
struct CheckedGroup<'l, 'a, 'c> {
    list: CheckedList<'l, 'a, 'c>,
    nodes: &'l [usize],
}

/// Judges a group. Its nodes become typed and its names bound if the group has types and all names
/// that it uses from outside are typed. Otherwise the environment stays the same. The borrowed
/// table of variables is empty before and after.
fn judge_group<'a>(
    inference: &mut Inference<'a>,
    group: &CheckedGroup<'_, 'a, '_>,
    types: &mut [usize],
    shown: &mut [bool],
    typed: &mut [bool],
) -> Result<(), UnifyFault>
    requires list { IsListFound (known_of group.now.list.constructors.now) group.now.list.decls.now group.now.list.found.now.numbers
        (lists group.now.list.found.now.rows.items) }
    requires nodes { All (λ j. j < length group.now.list.found.now.numbers) group.now.nodes.now }
    requires some { 0 < length group.now.nodes.now }
    requires closed { AreAssumed 0 inference.old.environment }
    requires types { length types.old ≡ length group.now.list.found.now.numbers }
    requires numbers { AreUpTo 0 types.old }
    requires shown { AllShown shown.old (length group.now.list.found.now.numbers) }
    requires typed { length typed.old ≡ length group.now.list.found.now.numbers }
    ensures judged { OnOk result ((added base : List Assumed) → inference.old.environment ≡ added ++ base
        → UnitJudged (known_of group.now.list.constructors.now) group.now.list.decls.now group.now.list.found.now.numbers
        (lists group.now.list.found.now.rows.items) group.now.nodes.now base inference.old.environment inference.new.environment typed.old typed.new) }
    ensures closed { OnOk result (AreAssumed 0 inference.new.environment) }
    ensures kept { OnOk result (Extends inference.old.environment inference.new.environment) }
    ensures numbers { OnOk result (AreUpTo 0 types.new) }
    ensures shown { OnOk result (shown.new ≡ shown.old) }
{
    mark(typed, group.nodes);
    let list = &group.list;
    let members = group_members(inference.alloc, &list.found.rows, group.nodes)?;
    if !members_refer_to_typed(inference.alloc, list, shown, typed, &members)? {
        unmark(typed, group.nodes);
        return Ok(());
    }
    let outside = inference.environment.len();
    inference.solver = inference.solver.renewed();
    match infer_group(inference, list, group.nodes, types) {
        Ok(()) => {
            clear(types, group.nodes);
            Ok(())
        }
        Err(UnifyFault::Clash) => {
            clear(types, group.nodes);
            inference.environment.truncate(outside);
            unmark(typed, group.nodes);
            Ok(())
        }
        Err(UnifyFault::Memory) => Err(UnifyFault::Memory),
    }
}

/// Judges the groups of a list in order. The borrowed table of variables must be empty.
fn judge_each<'a>(
    inference: &mut Inference<'a>,
    list: &CheckedList<'_, 'a, '_>,
    types: &mut [usize],
    shown: &mut [bool],
    typed: &mut [bool],
) -> Result<(), UnifyFault>
    requires list { IsListFound (known_of list.now.constructors.now) list.now.decls.now list.now.found.now.numbers (lists list.now.found.now.rows.items) }
    requires groups { AreNumberedGroups (list_of (known_of list.now.constructors.now) list.now.decls.now)
        (node_name (known_of list.now.constructors.now) (declarations list.now.decls.now)) (length list.now.found.now.numbers)
        (lists list.now.found.now.groups.items) }
    requires closed { AreAssumed 0 inference.old.environment }
    requires types { length types.old ≡ length list.now.found.now.numbers }
    requires numbers { AreUpTo 0 types.old }
    requires shown { AllShown shown.old (length list.now.found.now.numbers) }
    requires typed { length typed.old ≡ length list.now.found.now.numbers }
    ensures judged { OnOk result ((added base : List Assumed) → inference.old.environment ≡ added ++ base
        → UnitsJudged (known_of list.now.constructors.now) list.now.decls.now (lists list.now.found.now.groups.items)
        (length list.now.found.now.numbers) 0 base inference.old.environment typed.old
        → UnitsJudged (known_of list.now.constructors.now) list.now.decls.now (lists list.now.found.now.groups.items)
        (length list.now.found.now.numbers) (length (lists list.now.found.now.groups.items)) base inference.new.environment typed.new) }
    ensures closed { OnOk result (AreAssumed 0 inference.new.environment) }
{
    let found = list.found;
    'groups: for i in 0..found.groups.len() {
        let group = CheckedGroup {
            list: *list,
            nodes: &found.groups[i],
        };
        judge_group(inference, &group, types, shown, typed)?;
    }
    Ok(())
}

// Why: docs/DECISIONS.md, "Units one by one".
/// Judges the groups of a list in order, after the variables with signatures are bound. Returns
/// which nodes are typed, and binds their names.
pub(crate) fn judge_groups<'a>(
    inference: &mut Inference<'a>,
    list: &CheckedList<'_, 'a, '_>,
) -> Result<Vec<bool>, UnifyFault>
    requires list { IsListFound (known_of list.now.constructors.now) list.now.decls.now list.now.found.now.numbers (lists list.now.found.now.rows.items) }
    requires groups { AreNumberedGroups (list_of (known_of list.now.constructors.now) list.now.decls.now)
        (node_name (known_of list.now.constructors.now) (declarations list.now.decls.now)) (length list.now.found.now.numbers)
        (lists list.now.found.now.groups.items) }
    requires distinct { IsDistinct (names (list_of (known_of list.now.constructors.now) list.now.decls.now)) }
    requires closed { AreAssumed 0 inference.old.environment }
    ensures judged { IfOk result (λ typed. (added base : List Assumed) → inference.old.environment ≡ added ++ base
        → BindsSigned (list_of (known_of list.now.constructors.now) list.now.decls.now) base inference.old.environment
        → UnitsJudged (known_of list.now.constructors.now) list.now.decls.now (lists list.now.found.now.groups.items)
        (length list.now.found.now.numbers) (length (lists list.now.found.now.groups.items)) base inference.new.environment typed.items) }
    ensures sized { IfOk result (λ typed. length typed.items ≡ length list.now.found.now.numbers) }
    ensures closed { OnOk result (AreAssumed 0 inference.new.environment) }
{
    let alloc = inference.alloc;
    let count = list.found.numbers.len();
    let mut typed = vec![in alloc; false; count]?;
    let mut shown = vec![in alloc; true; count]?;
    let mut types = vec![in alloc; 0; count]?;
    judge_each(inference, list, &mut types, &mut shown, &mut typed)?;
    Ok(typed)
}
