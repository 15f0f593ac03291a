//! Checks a held set.
ghost use Rattle.std.specs.Prelude.{◌≡◌, ◌⊎◌, ◌<◌, IfOk, IsErrOf};
ghost use Rattle.hm_service.specs.Checks.{IsHeldCheck};

use crate::earlier::Checks;
use crate::stacks::check_on_thread;
use hm_build_reports::may_work;
use hm_service_places::{Checked, ServiceFault};
use hm_service_sources::{HeldSource, held_texts};
use std::alloc::Global;
use std::sync::Wait;
use std::thread::Threads;

// Why: docs/DECISIONS.md, "Three runs".
/// Checks a held set with the given number of workers. What hasn't changed since the earlier checks is taken from them: the trees of equal sources, and
/// the verdicts of good modules whose imports have equal interfaces.
///
/// # Errors
///
/// - `Workers` if the number of workers is 0 or above 16. Nothing is read then.
/// - `Memory` if memory ran out, and `NoWorker` if no thread could start.
/// - `Mixed` if the workers contradict the store, or two results each other.
pub fn check<T: Threads + Wait + Sync>(
    rt: &T,
    alloc: Global,
    held: &[HeldSource],
    earlier: &[&Checked],
    workers: usize,
) -> Result<Checked, ServiceFault>
    ensures ok { IfOk result (IsHeldCheck workers held.now) }
    ensures workers { ((workers ≡ 0) ⊎ (16 < workers)) → IsErrOf result ServiceFault.Workers }
{
    if !may_work(workers) {
        return Err(ServiceFault::Workers);
    }
    let texts = held_texts(alloc, held)?;
    let earlier = Checks { all: earlier };
    let checked = check_on_thread(rt, alloc, texts, &earlier, workers)?;
    Ok(checked)
}
