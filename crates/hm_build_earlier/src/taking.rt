//! Takes outcomes from earlier ones.

ghost use Rattle.std.specs.Prelude.{◌≡◌, ◌↔◌, IfOk, IfSome, IsSome, IsTrue, map};
ghost use Rattle.std.specs.Arc.{arc_value};
ghost use Rattle.hm_verdicts.specs.Outcomes.{verdict_of};
ghost use Rattle.hm_build_earlier.specs.Taking.{IsTakenFor};

use hm_syntax::{Module, Row};
use hm_syntax_equality::is_same_module;
use hm_types::Interface;
use hm_verdicts::{Outcome, Verdict};
use std::alloc::{AllocError, Global};
use std::sync::Arc;

/// Returns whether two lists have the same interfaces in the same order.
#[tactic(auto, using(hm_store::proofs::Lists::maps_more, hm_store::proofs::Lists::maps_at, hm_store::proofs::Lists::maps_length))]
fn are_same(lefts: &[Arc<Interface>], rights: &[Arc<Interface>]) -> bool
    ensures { IsTrue result ↔ (map arc_value lefts.now ≡ map arc_value rights.now) }
{
    if lefts.len() != rights.len() {
        return false;
    }
    for place in 0..lefts.len() {
        if !lefts[place].is_same(&rights[place]) {
            return false;
        }
    }
    true
}

/// Returns second owners of interfaces.
fn shared(alloc: Global, interfaces: &[Arc<Interface>]) -> Result<Row<Arc<Interface>>, AllocError>
    ensures { IfOk result (λ row. map arc_value row ≡ map arc_value interfaces.now) }
{
    let mut items: Vec<Arc<Interface>> = Vec::new(alloc);
    for interface in interfaces {
        items.push(interface.clone()?)?;
    }
    Ok(Row { items })
}

// Why: docs/DECISIONS.md, "Earlier checks".
/// Returns the outcome of a module for these interfaces of its imports, if an earlier outcome is good and is of an equal module for equal
/// interfaces. The new outcome shares the interface of the earlier one.
///
/// # Errors
///
/// If memory runs out.
pub(crate) fn taken(
    alloc: Global,
    earlier: &Outcome,
    module: &Arc<Module>,
    imports: &[Arc<Interface>],
) -> Result<Option<Outcome>, AllocError>
    ensures module { IfOk result (λ found. IfSome found (λ o. o.«module» ≡ arc_value «module».now)) }
    ensures imports { IfOk result (λ found. IfSome found (λ o. o.imports ≡ map arc_value imports.now)) }
    ensures verdict { IfOk result (λ found. IfSome found (λ o. o.verdict ≡ earlier.now.verdict)) }
    ensures when { IfOk result (λ found. IsSome found ↔ IsTakenFor earlier.now (arc_value «module».now) (map arc_value imports.now)) }
{
    let Verdict::Good(interface) = earlier.verdict() else {
        return Ok(None);
    };
    if !is_same_module(earlier.module(), module) || !are_same(earlier.imports(), imports) {
        return Ok(None);
    }
    let verdict = Verdict::Good(interface.clone()?);
    let imports = shared(alloc, imports)?;
    Ok(Some(Outcome::new(module.clone()?, imports, verdict)))
}
