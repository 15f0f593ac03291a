//! The result of a run before it is written: its text and its status.
ghost use Rattle.std.specs.Prelude.{◌≡◌, IfOk, IfErr, map, string_bytes};
ghost use Rattle.hm_run_sources.specs.Refusals.{refusal_text as refusal_bytes};
ghost use Rattle.hm_run_sources.specs.Runs.{IsPlanRun};

use crate::plans::plan_text;
use crate::refusals::refusal_text;
use crate::sets::{PlannedModules, headers_of, set_modules};
use crate::{PlanError, SetFault, Status, Trees};
use hm_run_io::RunFault;
use std::alloc::{AllocError, Global};

/// The text that a run writes, and its status.
#[derive(Drop)]
pub struct Answer {
    pub status: Status,
    pub text: String,
}

/// Returns the text and the status for a refused set.
pub fn refusal_answer(alloc: Global, fault: &SetFault) -> Result<Answer, AllocError>
    ensures status { IfOk result (λ a. a.status ≡ Status.Refused) }
    ensures text { IfOk result (λ a. string_bytes a.text ≡ refusal_bytes fault.now) }
{
    Ok(Answer {
        status: Status::Refused,
        text: refusal_text(alloc, fault)?,
    })
}

/// Returns the text of the plan of a set of sources, or of their refusal.
#[tactic(auto, using(crate::proofs::Reading::planned_sources))]
pub(crate) fn plan_answer(
    alloc: Global,
    sources: &[Vec<u8>],
    trees: Trees,
) -> Result<Answer, RunFault>
    ensures ok { IfOk result (λ a. IsPlanRun (map (λ s. s.items) sources.now) a.status (string_bytes a.text)) }
    ensures err { IfErr result (λ e. e ≡ RunFault.Memory) }
{
    match set_modules(alloc, sources) {
        Ok(set) => {
            let PlannedModules { modules, plan, .. } = set;
            let headers = headers_of(alloc, modules, trees)?;
            let text = plan_text(alloc, headers.as_slice(), &plan)?;
            let status = Status::Good;
            Ok(Answer { status, text })
        }
        Err(PlanError::Refused(refused)) => Ok(refusal_answer(alloc, &refused.fault)?),
        Err(PlanError::Memory) => Err(RunFault::Memory),
    }
}
