//! The first places of the bindings with signatures that are type faults (Haskell 98 Report,
//! sections 4.4.1 and 4.5.1).

ghost use Rattle.std.specs.Prelude.{◌≡◌, IfOk, length};
ghost use Rattle.hm_graph_components.specs.Digraph.{lists};
ghost use Rattle.hm_syntax.specs.Lists.{declarations};
ghost use Rattle.hm_infer_context.specs.Constructors.{known_of};
ghost use Rattle.hm_infer_context.specs.Environments.{AreAssumed};
ghost use Rattle.hm_infer_expressions.specs.SignedLists.{AreSignatures};
ghost use Rattle.hm_infer.specs.UnitStarts.{TellsSigned};

use crate::signed_faults::signed_faults;
use hm_infer_context::Inference;
use hm_infer_expressions::CheckedList;
use hm_unify::UnifyFault;

/// Returns the places of the first clauses of all faulty bindings with signatures. All units
/// without signatures must be judged before.
pub(crate) fn signed_starts<'a>(
    inference: &mut Inference<'a>,
    list: &CheckedList<'_, 'a, '_>,
    typed: &[bool],
) -> Result<Vec<usize>, UnifyFault>
    requires signatures { AreSignatures (declarations list.now.decls.now) list.now.signatures.now }
    requires closed { AreAssumed 0 inference.old.environment }
    requires sized { length typed.now ≡ length list.now.found.now.numbers }
    ensures { IfOk result (λ places. TellsSigned (known_of list.now.constructors.now) list.now.decls.now list.now.found.now.numbers
        (lists list.now.found.now.rows.items) (lists list.now.found.now.groups.items) inference.old.environment typed.now places.items) }
{
    Ok(signed_faults(inference, list, typed)?)
}
