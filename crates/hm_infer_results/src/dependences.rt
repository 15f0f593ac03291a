//! Whether the declarations of a unit refer only to typed nodes (Haskell 98 Report, section 4.5.1).

ghost use Rattle.std.specs.Prelude.{◌≡◌, ◌<◌, true, false, All, Contains, IfOk, OnOk, length};
ghost use Rattle.hm_infer_dependencies.specs.Nodes.{AllShown};
ghost use Rattle.hm_infer_expressions.specs.Dependences.{IsMarked, IsReferred, TellsMembers, TellsNodes};
ghost use Rattle.hm_infer_dependencies.specs.declared.members.Member.{Member};
ghost use Rattle.hm_typing.specs.Names.{IsOneOf};

use hm_infer_dependencies::{Member, Numbers, referred_nodes};
use hm_infer_expressions::CheckedList;
use hm_syntax::Decl;
use std::alloc::{AllocError, Global};

/// Marks the nodes of a group.
pub fn mark(typed: &mut [bool], group: &[usize])
    requires { All (λ j. j < length typed.old) group.now }
    ensures { IsMarked group.now true typed.old typed.new }
{
    'nodes: for node in group {
        typed[*node] = true;
    }
}

/// Clears the marks of the nodes of a group.
pub fn unmark(typed: &mut [bool], group: &[usize])
    requires { All (λ j. j < length typed.old) group.now }
    ensures { IsMarked group.now false typed.old typed.new }
{
    'nodes: for node in group {
        typed[*node] = false;
    }
}

/// Returns whether these nodes are typed.
fn are_typed(typed: &[bool], nodes: &[usize]) -> bool
    requires { All (λ j. j < length typed.now) nodes.now }
    ensures { TellsNodes result typed.now (Contains nodes.now) }
{
    'nodes: for node in nodes {
        if !typed[*node] {
            return false;
        }
    }
    true
}

/// Returns whether a declaration refers only to typed nodes.
pub fn refers_to_typed(
    alloc: Global,
    numbers: &Numbers,
    shown: &mut [bool],
    typed: &[bool],
    decl: &Decl,
) -> Result<bool, AllocError>
    requires shown { AllShown shown.old (length numbers.now) }
    requires typed { length typed.now ≡ length numbers.now }
    ensures shown { OnOk result (shown.new ≡ shown.old) }
    ensures told { IfOk result (λ b. TellsNodes b typed.now (IsReferred numbers.now decl.now)) }
{
    let found = referred_nodes(alloc, numbers, shown, decl)?;
    Ok(are_typed(typed, &found))
}

/// Returns whether the declarations of a group refer only to typed nodes.
pub fn members_refer_to_typed(
    alloc: Global,
    list: &CheckedList<'_, '_, '_>,
    shown: &mut [bool],
    typed: &[bool],
    members: &[Member],
) -> Result<bool, AllocError>
    requires shown { AllShown shown.old (length list.now.found.now.numbers) }
    requires typed { length typed.now ≡ length list.now.found.now.numbers }
    requires members { (m : Member) → IsOneOf m members.now → m.place < length list.now.decls.now }
    ensures shown { OnOk result (shown.new ≡ shown.old) }
    ensures told { IfOk result (λ b. TellsMembers b list.now.found.now.numbers typed.now list.now.decls.now members.now) }
{
    let decls = list.decls;
    'members: for j in 0..members.len() {
        let member = &members[j];
        if !refers_to_typed(
            alloc,
            &list.found.numbers,
            shown,
            typed,
            &decls[member.place],
        )? {
            return Ok(false);
        }
    }
    Ok(true)
}
