//! The first places of the units without signatures that are type faults (Haskell 98
//! Report, section 4.5.1).

ghost use Rattle.std.specs.Prelude.{◌≡◌, ℕ, ◌<◌, All, List, OnOk, IfOk, length};
ghost use Rattle.hm_graph_components.specs.Digraph.{lists};
ghost use Rattle.hm_typing.specs.Names.{IsOneOf};
ghost use Rattle.hm_infer.specs.UnitStarts.{AddsStart, AreGroupStarts, HasMember};

use hm_infer_binding_groups::BindingGroups;
use hm_infer_dependencies::group_members;
use hm_infer_results::first_place;
use std::alloc::{AllocError, Global};

/// Adds the first place of a group's declarations, if the group is a fault.
fn add_start(
    alloc: Global,
    starts: &mut Vec<usize>,
    rows: &[Vec<usize>],
    group: &[usize],
    is_fault: bool,
) -> Result<(), AllocError>
    requires nodes { All (λ j. j < length rows.now) group.now }
    requires some { HasMember (lists rows.now) group.now }
    ensures { OnOk result (AddsStart is_fault (lists rows.now) group.now starts.old.items starts.new.items) }
{
    if !is_fault {
        return Ok(());
    }
    let members = group_members(alloc, rows, group)?;
    let place = first_place(&members);
    starts.push(place)?;
    Ok(())
}

/// Returns the places of the first declarations of the faulty groups.
pub(crate) fn unsigned_starts(
    alloc: Global,
    found: &BindingGroups,
    faulty: &[bool],
) -> Result<Vec<usize>, AllocError>
    requires nodes { (g : List ℕ) → IsOneOf g (lists found.now.groups.items) → All (λ j. j < length found.now.rows.items) g }
    requires some { (g : List ℕ) → IsOneOf g (lists found.now.groups.items) → HasMember (lists found.now.rows.items) g }
    requires sized { length faulty.now ≡ length found.now.groups.items }
    ensures { IfOk result (λ starts. AreGroupStarts (lists found.now.rows.items) (lists found.now.groups.items) faulty.now
        (length (lists found.now.groups.items)) starts.items) }
{
    let mut starts = Vec::new(alloc);
    'groups: for i in 0..found.groups.len() {
        add_start(alloc, &mut starts, &found.rows, &found.groups[i], faulty[i])?;
    }
    Ok(starts)
}
