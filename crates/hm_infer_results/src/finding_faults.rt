//! The units without signatures that are type faults (Haskell 98 Report, section 4.5.1): units
//! without types that refer only to typed nodes outside.

ghost use Rattle.std.specs.Prelude.{◌≡◌, ◌<◌, ℕ, All, IfOk, OnOk, List, [], false, length, slice_index_or};
ghost use Rattle.hm_graph_components.specs.Digraph.{lists};
ghost use Rattle.hm_typing.specs.Names.{IsOneOf};
ghost use Rattle.hm_infer_dependencies.specs.Members.{AreRows};
ghost use Rattle.hm_infer_dependencies.specs.Nodes.{AllShown};
ghost use Rattle.hm_infer_results.specs.UnitFaults.{AreAlike, IsFirstPlace, AreGroupsTold, ArePlainGroups, GroupTold, IsSameTable};

use crate::dependences::{mark, members_refer_to_typed, unmark};
use hm_infer_dependencies::{Member, group_members};
use hm_infer_expressions::CheckedList;
use std::alloc::{AllocError, Global};

/// Returns whether a group has no types, though all nodes outside that it refers to have.
fn is_faulty(
    alloc: Global,
    list: &CheckedList<'_, '_, '_>,
    group: &[usize],
    shown: &mut [bool],
    typed: &mut [bool],
) -> Result<bool, AllocError>
    requires rows { AreRows list.now.decls.now (length list.now.found.now.numbers) (lists list.now.found.now.rows.items) }
    requires nodes { All (λ j. j < length list.now.found.now.numbers) group.now }
    requires some { 0 < length group.now }
    requires shown { AllShown shown.old (length list.now.found.now.numbers) }
    requires typed { length typed.old ≡ length list.now.found.now.numbers }
    requires alike { AreAlike group.now typed.old }
    ensures shown { OnOk result (shown.new ≡ shown.old) }
    ensures table { OnOk result (IsSameTable typed.old typed.new) }
    ensures told { IfOk result (λ b. GroupTold list.now.decls.now list.now.found.now.numbers (lists list.now.found.now.rows.items) group.now typed.old b) }
{
    if typed[group[0]] {
        return Ok(false);
    }
    mark(typed, group);
    let members = group_members(alloc, &list.found.rows, group)?;
    let is_free = members_refer_to_typed(alloc, list, shown, typed, &members)?;
    unmark(typed, group);
    Ok(is_free)
}

/// Returns for each group of a list whether it is a fault, by a table of the nodes that have types.
pub fn faulty_groups(
    alloc: Global,
    list: &CheckedList<'_, '_, '_>,
    typed: &mut [bool],
) -> Result<Vec<bool>, AllocError>
    requires rows { AreRows list.now.decls.now (length list.now.found.now.numbers) (lists list.now.found.now.rows.items) }
    requires typed { length typed.old ≡ length list.now.found.now.numbers }
    requires groups { ArePlainGroups (lists list.now.found.now.groups.items) (length list.now.found.now.numbers) typed.old }
    ensures table { OnOk result (IsSameTable typed.old typed.new) }
    ensures told { IfOk result (λ faulty. AreGroupsTold list.now.decls.now list.now.found.now.numbers (lists list.now.found.now.rows.items)
        (lists list.now.found.now.groups.items) typed.old faulty.items) }
{
    let found = list.found;
    let count = found.numbers.len();
    let mut shown = vec![in alloc; true; count]?;
    let mut faulty = Vec::new(alloc);
    'groups: for i in 0..found.groups.len() {
        let is_fault = is_faulty(alloc, list, &found.groups[i], &mut shown, typed)?;
        faulty.push(is_fault)?;
    }
    Ok(faulty)
}

/// Returns the place of the first declaration of a group.
pub fn first_place(members: &[Member]) -> usize
    requires { 0 < length members.now }
    ensures { IsFirstPlace members.now result }
{
    let mut place = members[0].place;
    'members: for member in members {
        if member.place < place {
            place = member.place;
        }
    }
    place
}
