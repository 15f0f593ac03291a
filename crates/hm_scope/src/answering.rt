//! The result for the faults of one phase.

ghost use Rattle.std.specs.Prelude.{◌≡◌, ◌==◌, cond, length, IfOk, List};
ghost use Rattle.hm_syntax.specs.declared.ast.Module.{Module};
ghost use Rattle.hm_scope.specs.PhaseAnswers.{AreExact, AreFirstFaults, IsPhaseAnswer};
ghost use Rattle.hm_names.specs.Faults.Phases.{Phase, HasFault, Importing, Declaring, Exporting, Naming, Counting};
ghost use Rattle.hm_types.specs.Interfaces.{Exports as Interface};

use hm_names::{Fault, sort_faults};
use hm_syntax::Row;
use std::alloc::AllocError;

/// Returns the faults of one phase, in order, or `None` if there are none.
pub fn phase_answer(faults: Vec<Fault>) -> Result<Option<Row<Fault>>, AllocError>
    ensures { IfOk result (λ answer. (m : Module) (fs : List Interface) (p : Phase) → AreExact m fs p faults.items → IsPhaseAnswer m fs p answer) }
{
    let items = sort_faults(faults)?;
    if items.is_empty() {
        return Ok(None);
    }
    Ok(Some(Row { items }))
}

/// Returns the first list if it has a fault, else the second.
fn first_of(first: Vec<Fault>, second: Vec<Fault>) -> Vec<Fault>
    ensures { result.items ≡ cond (length first.items == 0) second.items first.items }
{
    if first.is_empty() {
        return second;
    }
    first
}

/// Returns the faults of the first phase after imports that has any, in order, or `None` if none has.
pub fn first_faults(
    lists: Vec<Fault>,
    exports: Vec<Fault>,
    names: Vec<Fault>,
    numbers: Vec<Fault>,
) -> Result<Option<Row<Fault>>, AllocError>
    ensures { IfOk result (λ found. (m : Module) (fs : List Interface) → AreExact m fs Declaring lists.items → AreExact m fs Exporting exports.items
        → AreExact m fs Naming names.items → AreExact m fs Counting numbers.items → ((f : Fault) → ¬ (HasFault m fs Importing f)) → AreFirstFaults m fs found) }
{
    let after_exports = first_of(names, numbers);
    let after_lists = first_of(exports, after_exports);
    let found = first_of(lists, after_lists);
    Ok(phase_answer(found)?)
}
