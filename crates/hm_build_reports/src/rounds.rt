//! The order of the workers' calls: rounds, one for each module.
ghost use Rattle.std.specs.Prelude.{◌≡◌, ◌≤◌, ◌↔◌, List, ◌++◌, ◌∷◌, [], All, IfNone, IfSome, IsTrue, length, map, slice_index_or};
ghost use Rattle.hm_build_reports.specs.Rounds.{Deed, Found, IsInRounds, Settled, deeds};

use hm_graph::Plan;
use hm_store::{Act, Call, Record};

/// Returns the calls after look-ups of these modules, if the calls begin with these and each found an interface.
fn after_looks<'a>(modules: &[usize], calls: &'a [Call]) -> Option<&'a [Call]>
    ensures none { IfNone result ((behind : List Deed) → ¬ (deeds calls.now ≡ map Found modules.now ++ behind)) }
    ensures looks { IfSome result (λ behind. deeds calls.now ≡ map Found modules.now ++ deeds behind.now) }
    ensures shorter { IfSome result (λ behind. length behind.now ≤ length calls.now) }
{
    let mut left = calls;
    'modules: for number in modules {
        let (call, behind) = left.split_first()?;
        let Act::Look(found, interface) = &call.act else {
            return None;
        };
        if found != number {
            return None;
        }
        if interface.is_none() {
            return None;
        }
        left = behind;
    }
    Some(left)
}

/// Returns the imports of a module, or none for a number that no module has.
fn imports_of<'a>(plan: &'a Plan, number: usize) -> &'a [usize]
    ensures { result.now ≡ slice_index_or plan.now number [] }
{
    if number < plan.len() {
        return plan.imports(number);
    }
    &[]
}

/// Returns the calls after the round of a module, if they begin with it: found look-ups of its imports, then its publication or failure.
fn after_check<'a>(plan: &Plan, number: usize, calls: &'a [Call]) -> Option<&'a [Call]>
    ensures none { IfNone result ((behind : List Deed) → ¬ (deeds calls.now ≡ map Found (slice_index_or plan.now number []) ++ (Settled number ∷ behind))) }
    ensures checked { IfSome result (λ behind. deeds calls.now ≡ map Found (slice_index_or plan.now number []) ++ (Settled number ∷ deeds behind.now)) }
    ensures shorter { IfSome result (λ behind. length behind.now ≤ length calls.now) }
{
    let (call, behind) = after_looks(imports_of(plan, number), calls)?.split_first()?;
    match call.act {
        Act::Publish(settled) if settled == number => Some(behind),
        Act::Fail(settled) if settled == number => Some(behind),
        _ => None,
    }
}

// Why: docs/DECISIONS.md, "The order of calls".
/// Returns whether a worker made its calls in rounds. A worker without calls did.
fn is_in_rounds(plan: &Plan, log: &Record) -> bool
    ensures { IsTrue result ↔ IsInRounds plan.now log.now }
{
    let mut left = log.calls.as_slice();
    if left.is_empty() {
        return true;
    }
    'rounds: while let Some((call, behind)) = left.split_first() {
        match call.act {
            Act::Done => return behind.is_empty(),
            Act::Job(number) => match after_check(plan, number, behind) {
                Some(rest) => left = rest,
                None => return false,
            },
            _ => return false,
        }
    }
    false
}

/// Returns whether each worker made its calls in rounds.
pub(crate) fn are_in_rounds(plan: &Plan, records: &[Record]) -> bool
    ensures { IsTrue result ↔ All (IsInRounds plan.now) records.now }
{
    'records: for log in records {
        if !is_in_rounds(plan, log) {
            return false;
        }
    }
    true
}
