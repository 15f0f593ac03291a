//! Finds the units of a core that are type faults (Haskell 98 Report, section 4.5.1).

ghost use Rattle.std.specs.Prelude.{◌≡◌, ℕ, List, IfOk, length};
ghost use Rattle.hm_graph_components.specs.Digraph.{lists};
ghost use Rattle.hm_syntax.specs.Lists.{declarations};
ghost use Rattle.hm_typing.specs.BindingLists.{HasSchemes};
ghost use Rattle.hm_typing.specs.Names.{Identifier as UnitName, IsDistinct, IsOneOf};
ghost use Rattle.hm_typing.specs.Orders.{AreNumberedGroups};
ghost use Rattle.hm_typing.specs.Schemes.{Scheme};
ghost use Rattle.hm_typing.specs.Syntax.{names};
ghost use Rattle.hm_infer_dependencies.specs.Groups.{node_name};
ghost use Rattle.hm_infer_dependencies.specs.Members.{AreRows};
ghost use Rattle.hm_names.specs.Cores.{IsSomeCore, known, syntax_of, assumptions as assumptions_of};
ghost use Rattle.hm_names.specs.Untyped.{AreUntyped};
ghost use Rattle.hm_infer_context.specs.Constructors.{known_of};
ghost use Rattle.hm_infer_context.specs.Environments.{AreAssumed, assumptions};
ghost use Rattle.hm_infer_expressions.specs.SignedLists.{AreSignatures};
ghost use Rattle.hm_infer_expressions.specs.Stages.{IsListFound, list_of};
ghost use Rattle.hm_infer_results.specs.UnitFaults.{ArePlainGroups};
ghost use Rattle.hm_infer.specs.UnitStarts.{AreFaultStarts, AreUnsignedStarts, HasMember, IsCoreList};

use crate::assuming::imported_environment;
use crate::judging_units::judge_groups;
use crate::signed_starts::signed_starts;
use crate::telling::told_faults;
use crate::unit_starts::unsigned_starts;
use hm_infer_context::{Constructors, Inference};
use hm_infer_expressions::{CheckedList, bind_signed, listed_groups, signatures_of};
use hm_infer_results::faulty_groups;
use hm_names::{Core, Fault, TypeLimits};
use hm_syntax::{Decl, Row};
use hm_unify::{Solver, UnifyFault};
use std::alloc::{AllocError, Global};

/// Returns the first places of a list's faulty units without signatures, by a table of the nodes
/// that have types.
fn unsigned_fault_starts(
    alloc: Global,
    list: &CheckedList<'_, '_, '_>,
    typed: &mut [bool],
) -> Result<Vec<usize>, AllocError>
    requires rows { AreRows list.now.decls.now (length list.now.found.now.numbers) (lists list.now.found.now.rows.items) }
    requires typed { length typed.old ≡ length list.now.found.now.numbers }
    requires groups { ArePlainGroups (lists list.now.found.now.groups.items) (length list.now.found.now.numbers) typed.old }
    requires members { (g : List ℕ) → IsOneOf g (lists list.now.found.now.groups.items) → HasMember (lists list.now.found.now.rows.items) g }
    ensures { IfOk result (λ starts. AreUnsignedStarts list.now.decls.now list.now.found.now.numbers (lists list.now.found.now.rows.items)
        (lists list.now.found.now.groups.items) typed.old starts.items) }
{
    let faulty = faulty_groups(alloc, list, typed)?;
    Ok(unsigned_starts(alloc, list.found, &faulty)?)
}

/// Returns the first places of the faulty units of a core's list, under closed assumptions, by its
/// groups and its signatures.
fn starts_of_groups<'a>(
    inference: &mut Inference<'a>,
    list: &CheckedList<'_, 'a, '_>,
) -> Result<Vec<usize>, UnifyFault>
    requires core { IsCoreList (known_of list.now.constructors.now) list.now.decls.now }
    requires closed { AreAssumed 0 inference.old.environment }
    requires list { IsListFound (known_of list.now.constructors.now) list.now.decls.now list.now.found.now.numbers (lists list.now.found.now.rows.items) }
    requires groups { AreNumberedGroups (list_of (known_of list.now.constructors.now) list.now.decls.now)
        (node_name (known_of list.now.constructors.now) (declarations list.now.decls.now)) (length list.now.found.now.numbers)
        (lists list.now.found.now.groups.items) }
    requires distinct { IsDistinct (names (list_of (known_of list.now.constructors.now) list.now.decls.now)) }
    requires signatures { AreSignatures (declarations list.now.decls.now) list.now.signatures.now }
    ensures { IfOk result (λ starts. (o : IsCoreList (known_of list.now.constructors.now) list.now.decls.now)
        → AreFaultStarts o.core (assumptions inference.old.environment) starts.items) }
{
    let alloc = inference.alloc;
    bind_signed(
        alloc,
        &mut inference.environment,
        list.signatures,
        list.decls,
    )?;
    let mut typed = judge_groups(inference, list)?;
    let signed = signed_starts(inference, list, &typed)?;
    let mut starts = unsigned_fault_starts(alloc, list, &mut typed)?;
    starts.extend_from_slice(&signed)?;
    Ok(starts)
}

/// Returns the first places of the faulty units of a core's list, under closed assumptions.
fn fault_starts<'a>(
    inference: &mut Inference<'a>,
    constructors: &Constructors,
    decls: &'a [Decl],
) -> Result<Vec<usize>, UnifyFault>
    requires core { IsCoreList (known_of constructors.now) decls.now }
    requires closed { AreAssumed 0 inference.old.environment }
    ensures { IfOk result (λ starts. (o : IsCoreList (known_of constructors.now) decls.now)
        → AreFaultStarts o.core (assumptions inference.old.environment) starts.items) }
{
    let found = listed_groups(inference.alloc, decls)?;
    let signatures = signatures_of(inference.alloc, decls)?;
    let list = CheckedList {
        constructors,
        decls,
        found: &found,
        signatures: &signatures,
    };
    Ok(starts_of_groups(inference, &list)?)
}

/// Returns the type faults of a core that has no typing.
pub(crate) fn untyped_units(
    alloc: Global,
    core: &Core,
    constructors: &Constructors,
    limits: TypeLimits,
) -> Result<Row<Fault>, UnifyFault>
    requires core { IsSomeCore core.now }
    requires known { known_of constructors.now ≡ known core.now }
    requires untyped { (B : UnitName → Scheme) → HasSchemes (assumptions_of core.now) (syntax_of core.now) B → ⊥ }
    ensures { IfOk result (λ found. AreUntyped core.now found) }
{
    let decls = core.decls.as_slice();
    let environment = imported_environment(alloc, core.interfaces.as_slice(), decls.len())?;
    let mut inference = Inference {
        alloc,
        solver: Solver::with_limits(alloc, limits.levels, limits.nodes),
        environment,
    };
    let starts = fault_starts(&mut inference, constructors, decls)?;
    Ok(told_faults(alloc, decls, &starts)?)
}
